ghost use Rattle.std.specs.Prelude.{◌≡◌};
ghost use Rattle.vh_ast.specs.Views.{expr_tree, range_tree, type_tree};
ghost use Rattle.vh_bind.specs.Steps.{Gives};
ghost use Rattle.vh_bind.specs.Views.{scope_seen};
ghost use Rattle.vh_elab_ports.specs.Views.{data_type_seen};
ghost use Rattle.vh_elab_sites.specs.Views.{site_seen, var_type_seen};
ghost use Rattle.vh_elab_declare.specs.Constants;
ghost use Rattle.vh_elab_declare.specs.Views.{home_seen, known_seen};

use crate::genvars::genvars_in;
use crate::known::{Home, Known};
use crate::objects::{LONE_DIGIT, around};
use crate::parameters::{Bounded, given_to, own_or_given};
use crate::ranges::{Measure, joined_measure, memory_measure, typed_measure, vector_measure};
use std::alloc::Global;
use vh_ast::{DataType, Expr, ParameterWord};
use vh_base::ObjId;
use vh_bind::{ElabFault, Genvar, Scope};
use vh_bind_scope::Top;
use vh_design_nodes::Range;
use vh_elab_sites::{Site, VarType};

/// What comes of something that is done in these scopes of an instance, where these genvars have a
/// value.
pub fn in_scope<R, F: FnOnce(&Scope) -> R>(
    home: Home,
    known: &Known,
    around: &[ObjId],
    genvars: &[Genvar],
    work: F,
) -> R
    requires { F.IsAlwaysCallable work }
    ensures { (inside : _) × F.post work inside result
        × (scope_seen inside.now ≡ record (Constants.scope_in (home_seen home.entry)
        (known_seen known.now) around.now) { genvars = genvars.now }) }
{
    let inside = Scope {
        names: &known.names,
        around,
        top: Top {
            id: ObjId::new(0),
            name: home.top_name,
        },
        genvars,
        objects: &known.objects,
        exprs: &known.exprs,
        routines: &[],
        unit: home.unit,
        precision: home.precision,
    };
    work(&inside)
}

// What is known of a variable that is declared in a scope.
#[tactic(auto, unfolding(crate::specs::Constants::var_measure))]
pub(crate) fn var_at(
    alloc: Global,
    home: Home,
    known: &Known,
    scope: u32,
    var_type: VarType,
) -> Result<Option<Measure>, ElabFault>
    ensures { Gives (Constants.var_measure
        (Constants.scope_at (home_seen home.entry) (known_seen known.now) scope)
        (var_type_seen var_type.entry)) result }
{
    let around = around(alloc, &known.objects, ObjId::new(scope))?;
    let genvars = genvars_in(alloc, &known.genvars, &around)?;
    match var_type {
        VarType::Typed(own, None) => in_scope(home, known, &around, &genvars, |inside| {
            typed_measure(alloc, inside, own)
        }),
        VarType::Typed(own, Some(port)) => in_scope(home, known, &around, &genvars, |inside| {
            joined_measure(alloc, inside, own, port)
        }),
        VarType::OneDigit => Ok(Some(vector_measure(false, LONE_DIGIT))),
        VarType::Integer => Ok(Some(vector_measure(true, Range { left: 31, right: 0 }))),
        VarType::Time => Ok(Some(vector_measure(false, Range { left: 63, right: 0 }))),
    }
}

// The same of a memory.
pub(crate) fn memory_at(
    alloc: Global,
    home: Home,
    known: &Known,
    scope: u32,
    data_type: &DataType,
    addresses: &vh_ast::Range,
) -> Result<Option<Measure>, ElabFault>
    ensures { Gives (Constants.memory_measure
        (Constants.scope_at (home_seen home.entry) (known_seen known.now) scope)
        (type_tree data_type.now) (range_tree addresses.now)) result }
{
    let around = around(alloc, &known.objects, ObjId::new(scope))?;
    let genvars = genvars_in(alloc, &known.genvars, &around)?;
    in_scope(home, known, &around, &genvars, |inside| {
        memory_measure(alloc, inside, data_type, addresses)
    })
}

// The value of a parameter, which it may be given.
pub(crate) fn value_at(
    alloc: Global,
    home: Home,
    known: &Known,
    site: &Site,
    word: ParameterWord,
    data_type: Option<&DataType>,
    e: &Expr,
) -> Result<Option<Bounded>, ElabFault>
    ensures { Gives (Constants.value_at
        (home_seen home.entry) (known_seen known.now) (site_seen site.now) word
        (data_type_seen data_type.entry) (expr_tree e.now)) result }
{
    let around = around(alloc, &known.objects, ObjId::new(site.scope))?;
    let genvars = genvars_in(alloc, &known.genvars, &around)?;
    let given = given_to(alloc, home, site, word)?;
    match data_type {
        None => in_scope(home, known, &around, &genvars, |inside| {
            own_or_given(alloc, inside, None, e, given)
        }),
        Some(data_type) => in_scope(home, known, &around, &genvars, |inside| {
            own_or_given(alloc, inside, Some(data_type), e, given)
        }),
    }
}
