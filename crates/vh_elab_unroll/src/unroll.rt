ghost use Rattle.std.specs.Prelude.{◌≡◌, ◌++◌, ◌∷◌, [], false, bytes_eq, length, map, nat_eq, IfOk, OnOk};
ghost use Rattle.std.specs.List.{list_any};
ghost use Rattle.vh_ast.specs.Items;
ghost use Rattle.vh_ast.specs.Views.{assigned_tree, expr_tree, gblock_tree, gelse_tree, item_tree, module_tree};
ghost use Rattle.vh_elab_declare.specs.Views.{known_seen};
ghost use Rattle.vh_elab_sites.specs.Blocks.{block_place, name_place};
ghost use Rattle.vh_elab_sites.specs.Views.{block_name_seen, block_text_seen};
ghost use Rattle.vh_elab_unroll.specs.Constructs;
ghost use Rattle.vh_elab_unroll.specs.Views.{head_seen, home_of, tree_of, unrolled_seen, unrolling_seen};

use crate::scope::{counted_name, open_block, open_module};
use crate::state::{
    Instance, Unrolling, add_choice, genvar_value, home_in, is_full, known_value, number_in,
    take_fault, value_of,
};
use indexmap::IndexSet;
use sqlite_items::Boxed;
use std::alloc::Global;
use vh_ast::{Assigned, Expr, Gblock, Id, Item, ItemForm};
use vh_base::{DesignFault, NoMemory, ObjId, Place};
use vh_bind::Genvar;
use vh_bind_scope::{Declaration, Meaning, found};
use vh_design_nodes::Name;
use vh_elab_declare::{Given, Known, around};
use vh_elab_ports::Ports;
use vh_elab_sites::{BlockName, BlockText, Choice, block_place, is_lone_if};
use vh_eval::integer;
use vh_logic::{Digit, Vec4, truth};

/// What the generate constructs of an instance come to, and the least fault of these; whether
/// something was passed over.
#[derive(Drop)]
pub struct Unrolled<'a> {
    pub choices: Vec<Choice<'a>>,
    pub fault: Option<vh_bind_least::Fault>,
    pub passed: bool,
}

// What a block is called.
fn named_or<'a>(id: &'a Option<Id>, counted: BlockText<'a>) -> BlockText<'a>
    ensures { block_text_seen result
        ≡ Constructs.named_or id.now (block_text_seen counted.entry) }
{
    match id {
        None => counted,
        Some(id) => BlockText::Written(id.name.as_slice()),
    }
}

fn block_word<'a>(block: &'a Gblock<Item>, counted: BlockText<'a>) -> BlockText<'a>
    ensures { block_text_seen result
        ≡ Constructs.block_text (gblock_tree block.now) (block_text_seen counted.entry) }
{
    match block {
        Gblock::Item(_, _) => counted,
        Gblock::Block { id, .. } => named_or(id, counted),
    }
}

// Where a block stands: at its name, or else at its first token.
fn name_place(place: Place, id: &Option<Id>) -> Place
    ensures { result ≡ name_place place id.now }
{
    match id {
        None => place,
        Some(id) => id.place,
    }
}

// A condition holds where some digit of it is 1.
fn is_true(value: &Vec4) -> bool
    ensures { result ≡ Constructs.is_true value.now }
{
    truth(value) == Digit::One
}

fn is_genvar(meaning: Meaning) -> bool
    ensures { result ≡ Constructs.is_genvar meaning }
{
    match meaning {
        Meaning::Genvar => true,
        Meaning::Object { .. } | Meaning::Result { .. } | Meaning::Blocks | Meaning::Gate => false,
    }
}

fn genvar_scope(declaration: Option<Declaration>) -> Option<ObjId>
    ensures { result ≡ Constructs.genvar_scope declaration }
{
    let declaration = declaration?;
    if is_genvar(declaration.meaning) {
        Some(declaration.scope)
    } else {
        None
    }
}

// The scope that declares a genvar of this name.
fn genvar_at(alloc: Global, known: &Known, scope: u32, id: &Id) -> Result<Option<ObjId>, NoMemory>
    ensures { IfOk result (λ s. s
        ≡ Constructs.genvar_at (known_seen known.now) scope id.now) }
{
    let around = around(alloc, &known.objects, ObjId::new(scope))?;
    Ok(genvar_scope(found(&known.names, &around, id.name.as_slice())))
}

// The fault of a loop's variable.
fn check_start(id: &Id, declaring: &Option<ObjId>, state: &mut Unrolling)
    ensures { unrolling_seen state.new
        ≡ Constructs.with_start id.now declaring.now (unrolling_seen state.old) }
{
    if declaring.is_none() {
        take_fault(DesignFault::N1, id.place, state);
    }
}

fn is_same_name(start: &Id, step: &Id) -> bool
    ensures { result ≡ bytes_eq start.now.name step.now.name }
{
    start.name.as_slice() == step.name.as_slice()
}

// The step assigns the same genvar; to another one it is N5.
fn check_step(start: &Id, step: &Id, declaring: &Option<ObjId>, state: &mut Unrolling)
    ensures { unrolling_seen state.new
        ≡ Constructs.with_step start.now step.now declaring.now (unrolling_seen state.old) }
{
    match declaring {
        None => take_fault(DesignFault::N1, step.place, state),
        Some(_) => {
            if !is_same_name(start, step) {
                take_fault(DesignFault::N5, step.place, state);
            }
        }
    }
}

fn is_right(start: &Id, step: &Id, declaring: &Option<ObjId>) -> bool
    ensures { result ≡ Constructs.is_right start.now step.now declaring.now }
{
    match declaring {
        None => false,
        Some(_) => is_same_name(start, step),
    }
}

// The branch of an `if` that is taken.
#[derive(Clone, Copy)]
pub(crate) enum Branch {
    Holds,
    Fails,
    // The condition has no value.
    Neither,
}

// Where a loop stands whose genvar and step are right, and its blocks; and the scope that declares
// the genvar.
#[derive(Clone, Copy)]
pub(crate) struct Looping {
    pub(crate) scope: u32,
    // Of the `for`.
    pub(crate) place: Place,
    pub(crate) declaring: ObjId,
    pub(crate) block_place: Place,
}

// Where a loop begins: the scope that declares its genvar, and the first value.
#[derive(Clone, Copy)]
pub(crate) struct FirstTurn {
    pub(crate) declaring: ObjId,
    pub(crate) value: Vec4,
}

// One more than the blocks of a loop, whose test may fail behind the last of them.
const MOST_TURNS: u32 = 100_001;

// The items of a block that is made.
#[cycle(unroll)]
fn unroll_inside<'a>(
    alloc: Global,
    instance: Instance<'a, '_>,
    scope: u32,
    place: Place,
    name: BlockName<'a>,
    items: &'a [Item],
    state: &mut Unrolling<'a>,
) -> Result<(), NoMemory>
    ensures { OnOk result (unrolling_seen state.new
        ≡ Constructs.items_unrolled (home_of instance.entry) (tree_of instance.entry)
        (length (unrolling_seen state.old).known.objects) 1
        (Items.items (map item_tree items.now))
        (Constructs.opened (home_of instance.entry) (tree_of instance.entry) scope place
        (block_name_seen name.entry) []
        (Items.items (map item_tree items.now)) (unrolling_seen state.old))) }
{
    let number = open_block(alloc, instance, scope, place, name, None, items, state)?;
    unroll_items(alloc, instance, number, items, state)
}

// An `if` that stands as a branch without `begin` belongs to the same construct.
#[cycle(unroll)]
fn unroll_lone<'a>(
    alloc: Global,
    instance: Instance<'a, '_>,
    scope: u32,
    counted: BlockText<'a>,
    items: &'a [Item],
    state: &mut Unrolling<'a>,
) -> Result<(), NoMemory>
    ensures { OnOk result (unrolling_seen state.new
        ≡ Constructs.lone_unrolled (home_of instance.entry) (tree_of instance.entry) scope
        (block_text_seen counted.entry) (Items.items (map item_tree items.now))
        (unrolling_seen state.old)) }
{
    for item in items {
        unroll_item(alloc, instance, scope, item, counted, state)?;
    }
    Ok(())
}

// A branch that is taken.
#[cycle(unroll)]
fn unroll_branch<'a>(
    alloc: Global,
    instance: Instance<'a, '_>,
    scope: u32,
    branch: &'a Gblock<Item>,
    counted: BlockText<'a>,
    state: &mut Unrolling<'a>,
) -> Result<(), NoMemory>
    ensures { OnOk result (unrolling_seen state.new
        ≡ Constructs.branch_unrolled (home_of instance.entry) (tree_of instance.entry) scope
        (block_text_seen counted.entry) (gblock_tree branch.now)
        (unrolling_seen state.old)) }
{
    match branch {
        Gblock::Item(place, items) => {
            if is_lone_if(branch) {
                return unroll_lone(alloc, instance, scope, counted, items.as_slice(), state);
            }
            let name = BlockName {
                word: counted,
                index: None,
            };
            let place = *place;
            unroll_inside(alloc, instance, scope, place, name, items.as_slice(), state)
        }
        Gblock::Block { place, id, items } => {
            let name = BlockName {
                word: named_or(id, counted),
                index: None,
            };
            let place = name_place(*place, id);
            unroll_inside(alloc, instance, scope, place, name, items.as_slice(), state)
        }
    }
}

// The value of a genvar as an index: 32 digits are in its range.
fn index_of(value: &Vec4) -> Result<i32, NoMemory>
    ensures { IfOk result (λ z. z ≡ Constructs.index_of value.now) }
{
    let Some(index) = integer(value) else {
        return Ok(0);
    };
    i32::try_from(index).map_err(|_| NoMemory)
}

// The genvar of a turn.
fn turn_of(alloc: Global, declaring: ObjId, id: &Id, value: &Vec4) -> Result<Genvar, NoMemory>
    ensures { IfOk result (λ g. g ≡ Constructs.genvar_of declaring id.now value.now) }
{
    Ok(Genvar {
        scope: declaring,
        name: Name::from_slice(alloc, id.name.as_slice())?,
        value: *value,
    })
}

// A block of a loop; answers its number.
fn open_turn(
    alloc: Global,
    instance: Instance,
    looping: &Looping,
    id: &Id,
    value: &Vec4,
    place: Place,
    name: BlockName,
    items: &[Item],
    state: &mut Unrolling,
) -> Result<u32, NoMemory>
    ensures number { IfOk result (λ n. n ≡ length (unrolling_seen state.old).known.objects) }
    ensures opened { OnOk result (unrolling_seen state.new
        ≡ Constructs.opened (home_of instance.entry) (tree_of instance.entry) looping.now.scope
        place
        (block_name_seen name.entry)
        (Constructs.genvar_of looping.now.declaring id.now value.now ∷ [])
        (Items.items (map item_tree items.now)) (unrolling_seen state.old)) }
{
    let turn = turn_of(alloc, looping.declaring, id, value)?;
    let scope = looping.scope;
    open_block(
        alloc,
        instance,
        scope,
        place,
        name,
        Some(&turn),
        items,
        state,
    )
}

// The items of a block of a loop.
#[cycle(unroll)]
fn unroll_made<'a>(
    alloc: Global,
    instance: Instance<'a, '_>,
    looping: &Looping,
    id: &Id,
    value: &Vec4,
    place: Place,
    name: BlockName<'a>,
    items: &'a [Item],
    state: &mut Unrolling<'a>,
) -> Result<(), NoMemory>
    ensures { OnOk result (unrolling_seen state.new
        ≡ Constructs.items_unrolled (home_of instance.entry) (tree_of instance.entry)
        (length (unrolling_seen state.old).known.objects) 1
        (Items.items (map item_tree items.now))
        (Constructs.opened (home_of instance.entry) (tree_of instance.entry) looping.now.scope place
        (block_name_seen name.entry)
        (Constructs.genvar_of looping.now.declaring id.now value.now ∷ [])
        (Items.items (map item_tree items.now)) (unrolling_seen state.old))) }
{
    let number = open_turn(
        alloc, instance, looping, id, value, place, name, items, state,
    )?;
    unroll_items(alloc, instance, number, items, state)
}

// A block of a loop.
#[cycle(unroll)]
fn unroll_turn<'a>(
    alloc: Global,
    instance: Instance<'a, '_>,
    looping: &Looping,
    id: &Id,
    word: BlockText<'a>,
    body: &'a Gblock<Item>,
    value: &Vec4,
    state: &mut Unrolling<'a>,
) -> Result<(), NoMemory>
    ensures { OnOk result (unrolling_seen state.new
        ≡ Constructs.turn_unrolled (home_of instance.entry) (tree_of instance.entry)
        looping.now.scope (block_text_seen word.entry) (gblock_tree body.now)
        (Constructs.genvar_of looping.now.declaring id.now value.now)
        (unrolling_seen state.old)) }
{
    let index = index_of(value)?;
    let name = BlockName {
        word,
        index: Some(index),
    };
    match body {
        Gblock::Item(place, items) => {
            let place = *place;
            let items = items.as_slice();
            unroll_made(
                alloc, instance, looping, id, value, place, name, items, state,
            )
        }
        Gblock::Block {
            place,
            id: block,
            items,
        } => {
            let place = name_place(*place, block);
            let items = items.as_slice();
            unroll_made(
                alloc, instance, looping, id, value, place, name, items, state,
            )
        }
    }
}

// A value of the genvar that wasn't there before.
fn see_number(seen: &mut IndexSet<u64>, number: u64) -> Result<(), NoMemory>
    ensures { list_any (nat_eq number) seen.old.keys ≡ false →
        OnOk result (seen.new.keys ≡ seen.old.keys ++ number ∷ []) }
{
    seen.insert(number)?;
    Ok(())
}

// A turn whose test holds; answers whether its block is to be made.
fn choose_turn(
    looping: &Looping,
    value: &Vec4,
    seen: &mut IndexSet<u64>,
    state: &mut Unrolling,
) -> Result<bool, NoMemory>
    ensures { IfOk result (λ on. record {
      goes_on = on;
      seen = seen.new.keys;
      state = unrolling_seen state.new;
    } ≡ Constructs.chosen_turn looping.now seen.old.keys value.now (unrolling_seen state.old)) }
{
    let number = number_in(value);
    if seen.contains(&number) {
        take_fault(DesignFault::N2, looping.block_place, state);
        return Ok(false);
    }
    if seen.len() >= 100_000 {
        take_fault(DesignFault::N11, looping.place, state);
        return Ok(false);
    }
    see_number(seen, number)?;
    let index = index_of(value)?;
    add_choice(Choice::Turn(index), state)?;
    Ok(true)
}

// A turn whose test holds, with its block; answers whether the loop goes on.
#[cycle(unroll)]
fn hold_turn<'a>(
    alloc: Global,
    instance: Instance<'a, '_>,
    looping: &Looping,
    id: &Id,
    word: BlockText<'a>,
    body: &'a Gblock<Item>,
    value: &Vec4,
    seen: &mut IndexSet<u64>,
    state: &mut Unrolling<'a>,
) -> Result<bool, NoMemory>
    ensures { IfOk result (λ on. record {
      goes_on = on;
      seen = seen.new.keys;
      state = unrolling_seen state.new;
    } ≡ Constructs.held_turn looping.now (Constructs.turn_unrolled (home_of instance.entry)
        (tree_of instance.entry) looping.now.scope (block_text_seen word.entry)
        (gblock_tree body.now)) seen.old.keys
        (Constructs.genvar_of looping.now.declaring id.now value.now)
        (unrolling_seen state.old)) }
{
    if !choose_turn(looping, value, seen, state)? {
        return Ok(false);
    }
    unroll_turn(alloc, instance, looping, id, word, body, value, state)?;
    Ok(true)
}

// Whether a loop's test holds in a turn.
fn is_met(
    alloc: Global,
    instance: Instance,
    scope: u32,
    declaring: ObjId,
    id: &Id,
    value: &Vec4,
    test: &Expr,
    state: &mut Unrolling,
) -> Result<bool, NoMemory>
    ensures { IfOk result (λ b. (b, unrolling_seen state.new)
        ≡ Constructs.is_met (home_of instance.entry) scope (expr_tree test.now)
        (Constructs.genvar_of declaring id.now value.now) (unrolling_seen state.old)) }
{
    let turn = turn_of(alloc, declaring, id, value)?;
    let home = home_in(instance);
    match known_value(alloc, home, scope, Some(&turn), test, state)? {
        None => Ok(false),
        Some(test) => Ok(is_true(&test)),
    }
}

// A turn; answers whether the loop goes on.
#[cycle(unroll)]
fn test_turn<'a>(
    alloc: Global,
    instance: Instance<'a, '_>,
    looping: &Looping,
    body: &'a Gblock<Item>,
    id: &Id,
    test: &Expr,
    word: BlockText<'a>,
    value: &Vec4,
    seen: &mut IndexSet<u64>,
    state: &mut Unrolling<'a>,
) -> Result<bool, NoMemory>
    ensures { IfOk result (λ on. record {
      goes_on = on;
      seen = seen.new.keys;
      state = unrolling_seen state.new;
    } ≡ Constructs.one_turn (home_of instance.entry) looping.now (expr_tree test.now)
        (Constructs.turn_unrolled (home_of instance.entry) (tree_of instance.entry)
        looping.now.scope (block_text_seen word.entry) (gblock_tree body.now))
        seen.old.keys (Constructs.genvar_of looping.now.declaring id.now value.now)
        (unrolling_seen state.old)) }
{
    let scope = looping.scope;
    let declaring = looping.declaring;
    if !is_met(alloc, instance, scope, declaring, id, value, test, state)? {
        return Ok(false);
    }
    hold_turn(alloc, instance, looping, id, word, body, value, seen, state)
}

// What stands behind a turn: the genvar's next value, if the loop goes on.
fn step_turn(
    alloc: Global,
    instance: Instance,
    scope: u32,
    declaring: ObjId,
    id: &Id,
    value: &Vec4,
    step: &Expr,
    goes_on: bool,
    state: &mut Unrolling,
) -> Result<Option<Vec4>, NoMemory>
    ensures { IfOk result (λ next. (next, unrolling_seen state.new)
        ≡ Constructs.next_value (home_of instance.entry) scope (expr_tree step.now)
        (Constructs.genvar_of declaring id.now value.now) goes_on
        (unrolling_seen state.old)) }
{
    if !goes_on {
        return Ok(None);
    }
    let turn = turn_of(alloc, declaring, id, value)?;
    genvar_value(alloc, home_in(instance), scope, Some(&turn), step, state)
}

// A turn, if there is room for one; answers the genvar's next value, if the loop goes on.
#[cycle(unroll)]
fn next_turn<'a>(
    alloc: Global,
    instance: Instance<'a, '_>,
    looping: &Looping,
    body: &'a Gblock<Item>,
    id: &Id,
    test: &Expr,
    step: &Expr,
    word: BlockText<'a>,
    value: &Vec4,
    seen: &mut IndexSet<u64>,
    state: &mut Unrolling<'a>,
) -> Result<Option<Vec4>, NoMemory>
    ensures { IfOk result (λ next. record {
      next = next;
      seen = seen.new.keys;
      state = unrolling_seen state.new;
    } ≡ Constructs.one_step (home_of instance.entry)
        (head_seen looping.now id.now test.now step.now)
        (Constructs.turn_unrolled (home_of instance.entry) (tree_of instance.entry)
        looping.now.scope (block_text_seen word.entry) (gblock_tree body.now))
        seen.old.keys value.now (unrolling_seen state.old)) }
{
    if is_full(state) {
        return Ok(None);
    }
    let scope = looping.scope;
    let declaring = looping.declaring;
    let goes_on = test_turn(
        alloc, instance, looping, body, id, test, word, value, seen, state,
    )?;
    step_turn(
        alloc, instance, scope, declaring, id, value, step, goes_on, state,
    )
}

// The turns of a loop, from its start on.
#[cycle(unroll)]
fn unroll_turns<'a>(
    alloc: Global,
    instance: Instance<'a, '_>,
    looping: &Looping,
    body: &'a Gblock<Item>,
    id: &Id,
    test: &Expr,
    step: &Expr,
    word: BlockText<'a>,
    start: &Vec4,
    state: &mut Unrolling<'a>,
) -> Result<(), NoMemory>
    ensures { OnOk result (unrolling_seen state.new
        ≡ Constructs.turns MOST_TURNS (home_of instance.entry)
        (head_seen looping.now id.now test.now step.now)
        (Constructs.turn_unrolled (home_of instance.entry) (tree_of instance.entry)
        looping.now.scope (block_text_seen word.entry) (gblock_tree body.now))
        [] start.now (unrolling_seen state.old)) }
{
    let mut seen = IndexSet::new(alloc);
    let mut value = *start;
    for _turn in 0..MOST_TURNS {
        let next = next_turn(
            alloc, instance, looping, body, id, test, step, word, &value, &mut seen, state,
        )?;
        let Some(next) = next else {
            return Ok(());
        };
        value = next;
    }
    Ok(())
}

// The first value of a loop's genvar.
fn start_value(
    alloc: Global,
    instance: Instance,
    scope: u32,
    e: &Expr,
    state: &mut Unrolling,
) -> Result<Option<Vec4>, NoMemory>
    ensures { IfOk result (λ v. (v, unrolling_seen state.new)
        ≡ Constructs.genvar_value (home_of instance.entry) scope [] (expr_tree e.now)
        (unrolling_seen state.old)) }
{
    genvar_value(alloc, home_in(instance), scope, None, e, state)
}

// Where a loop whose genvar and step are right begins.
fn first_turn(declaring: Option<ObjId>, is_right: bool, value: Option<Vec4>) -> Option<FirstTurn>
    ensures { result ≡ Constructs.first_turn declaring is_right value }
{
    if !is_right {
        return None;
    }
    Some(FirstTurn {
        declaring: declaring?,
        value: value?,
    })
}

// The same with the faults of its start and its step.
fn begin_loop(
    alloc: Global,
    instance: Instance,
    scope: u32,
    start: &Assigned,
    step: &Assigned,
    state: &mut Unrolling,
) -> Result<Option<FirstTurn>, NoMemory>
    ensures { IfOk result (λ first. (first, unrolling_seen state.new)
        ≡ Constructs.begun (home_of instance.entry) scope (assigned_tree start.now)
        (assigned_tree step.now) (unrolling_seen state.old)) }
{
    let own = genvar_at(alloc, &state.known, scope, &start.id)?;
    let other = genvar_at(alloc, &state.known, scope, &step.id)?;
    check_step(&start.id, &step.id, &other, state);
    check_start(&start.id, &own, state);
    let value = start_value(alloc, instance, scope, &start.value, state)?;
    let is_right = is_right(&start.id, &step.id, &other);
    Ok(first_turn(own, is_right, value))
}

// The head of a `for`, and where that stands.
#[derive(Clone, Copy)]
struct ForHead<'b> {
    place: Place,
    start: &'b Assigned,
    test: &'b Expr,
    step: &'b Assigned,
}

// The turns of a loop that begins, if it does.
#[cycle(unroll)]
fn begin_turns<'a>(
    alloc: Global,
    instance: Instance<'a, '_>,
    scope: u32,
    head: ForHead<'_>,
    body: &'a Gblock<Item>,
    word: BlockText<'a>,
    first: &Option<FirstTurn>,
    state: &mut Unrolling<'a>,
) -> Result<(), NoMemory>
    ensures { OnOk result (unrolling_seen state.new
        ≡ Constructs.with_turns (home_of instance.entry) scope head.entry.place
        head.entry.start.now.id (expr_tree head.entry.test.now)
        (expr_tree head.entry.step.now.value) (block_place (gblock_tree body.now))
        (Constructs.turn_unrolled (home_of instance.entry) (tree_of instance.entry) scope
        (block_text_seen word.entry) (gblock_tree body.now))
        (first.now, unrolling_seen state.old)) }
{
    let Some(first) = first else {
        return Ok(());
    };
    let looping = Looping {
        scope,
        place: head.place,
        declaring: first.declaring,
        block_place: block_place(body),
    };
    unroll_turns(
        alloc,
        instance,
        &looping,
        body,
        &head.start.id,
        head.test,
        &head.step.value,
        word,
        &first.value,
        state,
    )
}

// A loop, from its name to its end.
#[cycle(unroll)]
fn unroll_loop<'a>(
    alloc: Global,
    instance: Instance<'a, '_>,
    scope: u32,
    head: ForHead<'_>,
    body: &'a Gblock<Item>,
    word: BlockText<'a>,
    state: &mut Unrolling<'a>,
) -> Result<(), NoMemory>
    ensures { OnOk result (unrolling_seen state.new
        ≡ Constructs.loop_unrolled (Constructs.turn_unrolled (home_of instance.entry)
        (tree_of instance.entry) scope (block_text_seen word.entry) (gblock_tree body.now))
        (home_of instance.entry) scope head.entry.place (assigned_tree head.entry.start.now)
        (expr_tree head.entry.test.now) (assigned_tree head.entry.step.now)
        (block_place (gblock_tree body.now)) (block_text_seen word.entry)
        (unrolling_seen state.old)) }
{
    add_choice(Choice::Loop(word), state)?;
    let first = begin_loop(alloc, instance, scope, head.start, head.step, state)?;
    begin_turns(alloc, instance, scope, head, body, word, &first, state)?;
    add_choice(Choice::End, state)
}

// A `for`.
#[cycle(unroll)]
fn unroll_for<'a>(
    alloc: Global,
    instance: Instance<'a, '_>,
    scope: u32,
    head: ForHead<'_>,
    body: &'a Gblock<Item>,
    counted: BlockText<'a>,
    state: &mut Unrolling<'a>,
) -> Result<(), NoMemory>
    ensures { OnOk result (unrolling_seen state.new
        ≡ Constructs.form_unrolled (home_of instance.entry) (tree_of instance.entry) scope
        head.entry.place (block_text_seen counted.entry)
        (Items.for_item (assigned_tree head.entry.start.now) (expr_tree head.entry.test.now)
        (assigned_tree head.entry.step.now) (gblock_tree body.now))
        (unrolling_seen state.old)) }
{
    let word = block_word(body, counted);
    unroll_loop(alloc, instance, scope, head, body, word, state)
}

// What stands behind `else`.
#[cycle(unroll)]
fn unroll_else<'a>(
    alloc: Global,
    instance: Instance<'a, '_>,
    scope: u32,
    counted: BlockText<'a>,
    fails: &'a Option<Boxed<Gblock<Item>>>,
    state: &mut Unrolling<'a>,
) -> Result<(), NoMemory>
    ensures { OnOk result (unrolling_seen state.new
        ≡ Constructs.else_unrolled (home_of instance.entry) (tree_of instance.entry) scope
        (block_text_seen counted.entry) (gelse_tree fails.now) (unrolling_seen state.old)) }
{
    match fails {
        None => add_choice(Choice::Neither, state),
        Some(fails) => {
            let fails = fails.get();
            add_choice(Choice::Fails(block_word(fails, counted)), state)?;
            unroll_branch(alloc, instance, scope, fails, counted, state)
        }
    }
}

// The branch of an `if` that is taken; what stands behind `else` notes its choice itself.
fn test_if<'a>(
    alloc: Global,
    instance: Instance,
    scope: u32,
    test: &Expr,
    word: BlockText<'a>,
    state: &mut Unrolling<'a>,
) -> Result<Branch, NoMemory>
    ensures { IfOk result (λ b. (b, unrolling_seen state.new)
        ≡ Constructs.tested (home_of instance.entry) scope (expr_tree test.now)
        (block_text_seen word.entry) (unrolling_seen state.old)) }
{
    let Some(value) = value_of(alloc, home_in(instance), scope, None, test, state)? else {
        add_choice(Choice::Neither, state)?;
        return Ok(Branch::Neither);
    };
    if !is_true(&value) {
        return Ok(Branch::Fails);
    }
    add_choice(Choice::Holds(word), state)?;
    Ok(Branch::Holds)
}

// A generate construct, or an item that is none.
#[cycle(unroll)]
fn unroll_item<'a>(
    alloc: Global,
    instance: Instance<'a, '_>,
    scope: u32,
    item: &'a Item,
    counted: BlockText<'a>,
    state: &mut Unrolling<'a>,
) -> Result<(), NoMemory>
    ensures { OnOk result (unrolling_seen state.new
        ≡ Constructs.item_unrolled (home_of instance.entry) (tree_of instance.entry) scope
        (block_text_seen counted.entry) (item_tree item.now) (unrolling_seen state.old)) }
{
    match &item.form {
        ItemForm::Plain(_) | ItemForm::Generate | ItemForm::Endgenerate => Ok(()),
        ItemForm::For {
            start,
            test,
            step,
            body,
        } => {
            let head = ForHead {
                place: item.place,
                start: start.get(),
                test: test.get(),
                step: step.get(),
            };
            unroll_for(alloc, instance, scope, head, body.get(), counted, state)
        }
        ItemForm::If { test, holds, fails } => {
            let holds = holds.get();
            let word = block_word(holds, counted);
            let taken = test_if(alloc, instance, scope, test.get(), word, state)?;
            match taken {
                Branch::Holds => unroll_branch(alloc, instance, scope, holds, counted, state),
                Branch::Fails => unroll_else(alloc, instance, scope, counted, fails, state),
                Branch::Neither => Ok(()),
            }
        }
    }
}

fn is_construct(item: &Item) -> bool
    ensures { result ≡ Constructs.is_construct (item_tree item.now) }
{
    match &item.form {
        ItemForm::For { .. } | ItemForm::If { .. } => true,
        ItemForm::Plain(_) | ItemForm::Generate | ItemForm::Endgenerate => false,
    }
}

fn has_construct(items: &[Item]) -> bool
    ensures { result ≡ list_any Constructs.is_construct (map item_tree items.now) }
{
    for item in items {
        if is_construct(item) {
            return true;
        }
    }
    false
}

// An item, before which so many constructs stand in its scope and itself.
#[cycle(unroll)]
fn unroll_next<'a>(
    alloc: Global,
    instance: Instance<'a, '_>,
    scope: u32,
    number: u32,
    item: &'a Item,
    state: &mut Unrolling<'a>,
) -> Result<(), NoMemory>
    ensures { OnOk result (unrolling_seen state.new
        ≡ Constructs.item_unrolled (home_of instance.entry) (tree_of instance.entry) scope
        (Constructs.free_text Constructs.most_zeros (unrolling_seen state.old).known.names scope 0
        number) (item_tree item.now) (unrolling_seen state.old)) }
{
    if !is_construct(item) {
        return Ok(());
    }
    let counted = counted_name(alloc, &state.known.names, scope, number)?;
    unroll_item(alloc, instance, scope, item, counted, state)
}

fn number_behind(number: u32, item: &Item) -> Result<u32, NoMemory>
    ensures { IfOk result (λ n. n ≡ Constructs.number_behind number (item_tree item.now)) }
{
    if is_construct(item) {
        return number.checked_add(1).ok_or(NoMemory);
    }
    Ok(number)
}

// The items of a scope.
#[cycle(unroll)]
fn unroll_items<'a>(
    alloc: Global,
    instance: Instance<'a, '_>,
    scope: u32,
    items: &'a [Item],
    state: &mut Unrolling<'a>,
) -> Result<(), NoMemory>
    ensures { OnOk result (unrolling_seen state.new
        ≡ Constructs.items_unrolled (home_of instance.entry) (tree_of instance.entry) scope 1
        (Items.items (map item_tree items.now)) (unrolling_seen state.old)) }
{
    let mut number: u32 = 1;
    for item in items {
        if is_full(state) {
            return Ok(());
        }
        unroll_next(alloc, instance, scope, number, item, state)?;
        number = number_behind(number, item)?;
    }
    Ok(())
}

/// What the generate constructs of an instance come to, whose parameters are given so.
pub fn unroll_module<'a>(
    alloc: Global,
    ports: &Ports<'a>,
    top_name: &'a [u8],
    given: &Given<'a>,
) -> Result<Unrolled<'a>, NoMemory>
    ensures { IfOk result (λ u. unrolled_seen u
        ≡ Constructs.unrolled (record {
          number = 0;
          top_name = top_name.now;
          unit = (module_tree ports.now).setting.unit;
          precision = (module_tree ports.now).setting.precision;
          given = given.now;
        }) (module_tree ports.now)) }
{
    let module = ports.module();
    let items = module.items.as_slice();
    if !has_construct(items) {
        return Ok(Unrolled {
            choices: Vec::new(alloc),
            fault: None,
            passed: false,
        });
    }
    let instance = Instance {
        ports,
        top_name,
        unit: module.setting.unit,
        precision: module.setting.precision,
        given,
    };
    let mut known = Known::new(alloc);
    open_module(alloc, instance, &mut known)?;
    let mut state = Unrolling {
        known,
        choices: Vec::new(alloc),
        blocks: 0,
        fault: None,
        passed: false,
    };
    unroll_items(alloc, instance, 0, items, &mut state)?;
    let Unrolling {
        choices,
        fault,
        passed,
        ..
    } = state;
    Ok(Unrolled {
        choices,
        fault,
        passed,
    })
}
