ghost use Rattle.std.specs.Prelude.{◌≡◌, ◌++◌, ◌∷◌, [], IfOk, OnOk};
ghost use Rattle.std.specs.Option.{option_map};
ghost use Rattle.vh_ast.specs.Expressions.{place_of};
ghost use Rattle.vh_ast.specs.Views.{expr_tree};
ghost use Rattle.vh_bind.specs.Constants.{constant};
ghost use Rattle.vh_bind.specs.Steps.{Gives};
ghost use Rattle.vh_elab_declare.specs.Constants.{genvars_in};
ghost use Rattle.vh_elab_sites.specs.Views.{choice_seen};
ghost use Rattle.vh_elab_declare.specs.Views.{home_seen, known_seen};
ghost use Rattle.vh_elab_unroll.specs.Constructs;
ghost use Rattle.vh_elab_unroll.specs.Views.{NotesBy, home_of, turn_seen, unrolling_seen};

use std::alloc::Global;
use vh_ast::Expr;
use vh_base::{DesignFault, NoMemory, ObjId, Place};
use vh_bind::{ElabFault, Genvar, constant};
use vh_bind_least::least;
use vh_design_nodes::Name;
use vh_elab_declare::{Given, Home, Known, around, genvars_in, in_scope};
use vh_elab_ports::Ports;
use vh_elab_sites::Choice;
use vh_logic::{Vec4, resize};

// What is known so far, under numbers of its own, what constructs come to so far, and the least
// fault so far; whether something was passed over, and how many blocks there are.
#[derive(Drop)]
pub(crate) struct Unrolling<'a> {
    pub(crate) known: Known,
    pub(crate) choices: Vec<Choice<'a>>,
    pub(crate) blocks: u32,
    pub(crate) fault: Option<vh_bind_least::Fault>,
    pub(crate) passed: bool,
}

// What holds for all of an instance, whose module is number 0 here.
#[derive(Clone, Copy)]
pub(crate) struct Instance<'a, 'b> {
    pub(crate) ports: &'b Ports<'a>,
    pub(crate) top_name: &'a [u8],
    pub(crate) unit: u8,
    pub(crate) precision: u8,
    pub(crate) given: &'b Given<'a>,
}

// The same as the values of parameters need it.
pub(crate) fn home_in<'a, 'b>(instance: Instance<'a, 'b>) -> Home<'a, 'b>
    ensures { home_seen result ≡ home_of instance.entry }
{
    Home {
        number: 0,
        top_name: instance.top_name,
        unit: instance.unit,
        precision: instance.precision,
        given: instance.given,
    }
}

// One fault more.
pub(crate) fn take_fault(fault: DesignFault, place: Place, state: &mut Unrolling)
    ensures { unrolling_seen state.new
        ≡ Constructs.with_fault fault place (unrolling_seen state.old) }
{
    state.fault = least(state.fault, Some((fault, place)));
}

// One choice more.
pub(crate) fn add_choice<'a>(choice: Choice<'a>, state: &mut Unrolling<'a>) -> Result<(), NoMemory>
    ensures { OnOk result (unrolling_seen state.new
        ≡ Constructs.with_choice (choice_seen choice.entry) (unrolling_seen state.old)) }
{
    state.choices.push(choice)?;
    Ok(())
}

// Whether so much is made that nothing behind it is looked for.
pub(crate) fn is_full(state: &Unrolling) -> bool
    ensures { result ≡ Constructs.is_full (unrolling_seen state.now) }
{
    state.blocks > 100_000
}

// The genvar of a turn, if there is one.
fn turn_genvars(alloc: Global, turn: Option<&Genvar>) -> Result<Vec<Genvar>, NoMemory>
    ensures { IfOk result (λ v. v.items ≡ turn_seen turn.entry) }
{
    let mut all = Vec::new(alloc);
    if let Some(turn) = turn {
        all.push(Genvar {
            scope: turn.scope,
            name: Name::from_slice(alloc, turn.name.as_slice())?,
            value: turn.value,
        })?;
    }
    Ok(all)
}

// With the genvars that have a value around.
fn genvars_at(
    alloc: Global,
    known: &Known,
    around: &[ObjId],
    turn: Option<&Genvar>,
) -> Result<Vec<Genvar>, NoMemory>
    ensures { IfOk result (λ v. v.items
        ≡ turn_seen turn.entry ++ genvars_in (known_seen known.now).genvars around.now) }
{
    let mut all = turn_genvars(alloc, turn)?;
    let mut behind = genvars_in(alloc, &known.genvars, around)?;
    all.append(&mut behind)?;
    Ok(all)
}

// A constant in a scope.
fn constant_in<'a>(
    alloc: Global,
    home: Home<'a, '_>,
    known: &'a Known,
    scope: u32,
    turn: Option<&Genvar>,
    e: &Expr,
) -> Result<Option<Vec4>, ElabFault>
    ensures { Gives (constant (Constructs.scope_of (home_seen home.entry) (known_seen known.now)
        scope (turn_seen turn.entry)) 0 (expr_tree e.now)) result }
{
    let around = around(alloc, &known.objects, ObjId::new(scope))?;
    let genvars = genvars_at(alloc, known, &around, turn)?;
    in_scope(home, known, &around, &genvars, |inside| {
        constant(alloc, inside, e, 0)
    })
}

// What a constant comes to is noted.
fn note(
    outcome: Result<Option<Vec4>, ElabFault>,
    state: &mut Unrolling,
) -> Result<Option<Vec4>, NoMemory>
    ensures { NotesBy outcome (unrolling_seen state.old) result (unrolling_seen state.new) }
{
    match outcome {
        Ok(Some(value)) => Ok(Some(value)),
        Ok(None) => {
            state.passed = true;
            Ok(None)
        }
        Err(ElabFault::Refused(fault, place)) => {
            take_fault(fault, place, state);
            Ok(None)
        }
        Err(ElabFault::NoMemory) => Err(NoMemory),
    }
}

// The value of a constant, where it has one; else its fault counts, or it is passed over.
pub(crate) fn value_of(
    alloc: Global,
    home: Home,
    scope: u32,
    turn: Option<&Genvar>,
    e: &Expr,
    state: &mut Unrolling,
) -> Result<Option<Vec4>, NoMemory>
    ensures { IfOk result (λ v. (v, unrolling_seen state.new)
        ≡ Constructs.value_of (home_seen home.entry) scope (turn_seen turn.entry)
        (expr_tree e.now) (unrolling_seen state.old)) }
{
    let outcome = constant_in(alloc, home, &state.known, scope, turn, e);
    note(outcome, state)
}

// The number that a value stands for, read without a sign; 0 where a digit is x or z.
pub(crate) fn number_in(value: &Vec4) -> u64
    ensures { result ≡ Constructs.number_in value.now }
{
    value.number().unwrap_or(0)
}

// One with an x is N4.
fn without_x(place: Place, value: Option<Vec4>, state: &mut Unrolling) -> Option<Vec4>
    ensures { (result, unrolling_seen state.new)
        ≡ Constructs.without_x place (value, unrolling_seen state.old) }
{
    let value = value?;
    if value.number().is_some() {
        Some(value)
    } else {
        take_fault(DesignFault::N4, place, state);
        None
    }
}

// The value of a constant without x.
pub(crate) fn known_value(
    alloc: Global,
    home: Home,
    scope: u32,
    turn: Option<&Genvar>,
    e: &Expr,
    state: &mut Unrolling,
) -> Result<Option<Vec4>, NoMemory>
    ensures { IfOk result (λ v. (v, unrolling_seen state.new)
        ≡ Constructs.without_x (place_of (expr_tree e.now)) (Constructs.value_of
        (home_seen home.entry) scope (turn_seen turn.entry) (expr_tree e.now)
        (unrolling_seen state.old))) }
{
    let value = value_of(alloc, home, scope, turn, e, state)?;
    Ok(without_x(e.place, value, state))
}

// The value of a loop's variable: 32 digits, signed.
pub(crate) fn genvar_value(
    alloc: Global,
    home: Home,
    scope: u32,
    turn: Option<&Genvar>,
    e: &Expr,
    state: &mut Unrolling,
) -> Result<Option<Vec4>, NoMemory>
    ensures { IfOk result (λ v. (v, unrolling_seen state.new)
        ≡ Constructs.genvar_value (home_seen home.entry) scope (turn_seen turn.entry)
        (expr_tree e.now) (unrolling_seen state.old)) }
{
    let value = value_of(alloc, home, scope, turn, e, state)?;
    let value = value.map(|v| resize(&v, 32, true));
    Ok(without_x(e.place, value, state))
}
