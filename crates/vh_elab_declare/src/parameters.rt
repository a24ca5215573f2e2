ghost use Rattle.std.specs.Prelude.{◌≡◌, ◌≤◌, ◌+◌, ◌++◌, ◌∷◌, [], false, length, slice_get, Some, IfOk, OnOk};
ghost use Rattle.vh_logic.specs.declared.vector.TheConstants.{MAX_WIDTH};
ghost use Rattle.vh_ast.specs.Views.{expr_tree, type_tree};
ghost use Rattle.vh_bind.specs.Steps.{Gives};
ghost use Rattle.vh_bind.specs.Views.{scope_seen};
ghost use Rattle.vh_elab_ports.specs.Views.{data_type_seen};
ghost use Rattle.vh_elab_sites.specs.Views.{all_seen, site_seen};
ghost use Rattle.vh_elab_declare.specs.Constants;
ghost use Rattle.vh_elab_declare.specs.Views.{home_seen, known_seen, range_seen, IsFound};

use crate::known::{Home, Known};
use crate::objects::{name_of, set_bounds};
use crate::ranges::{range_of, span};
use crate::standing::value_at;
use std::alloc::Global;
use vh_ast::{DataType, Expr, ParameterWord, held};
use vh_base::{ExprId, NoMemory};
use vh_bind::{ElabFault, Scope, constant};
use vh_design_nodes::{Detail, ExprKind, ExprNode, ObjectInfo, Range};
use vh_elab_sites::{Declared, Site};
use vh_logic::{MAX_WIDTH, Vec4, resize};

// The value of a parameter, with the bounds of its digits.
pub(crate) type Bounded = (Range, Vec4);

// A value in its own width.
fn own_value(signed: bool, value: Vec4) -> Bounded
    ensures { result ≡ Constants.own_value signed value }
{
    let range = Range {
        left: value.width() - 1,
        right: 0,
    };
    (
        range,
        resize(&value, value.width(), signed || value.is_signed()),
    )
}

// A value in a range.
fn ranged_value(
    alloc: Global,
    scope: &Scope,
    signed: bool,
    e: &Expr,
    range: Range,
) -> Result<Option<Bounded>, ElabFault>
    requires { Constants.span range ≤ MAX_WIDTH }
    ensures { Gives (Constants.ranged_value (scope_seen scope.now) signed
        (expr_tree e.now) range) result }
{
    let width = span(range) as u32;
    match constant(alloc, scope, e, width)? {
        None => Ok(None),
        Some(value) => Ok(Some((range, resize(&value, width, signed)))),
    }
}

// A value, with its sign and its range as they are written.
fn typed_value(
    alloc: Global,
    scope: &Scope,
    signed: bool,
    range: Option<&vh_ast::Range>,
    e: &Expr,
) -> Result<Option<Bounded>, ElabFault>
    ensures { Gives (Constants.typed_value (scope_seen scope.now) signed (range_seen range.entry)
        (expr_tree e.now)) result }
{
    let Some(range) = range else {
        let value = constant(alloc, scope, e, 0)?;
        return Ok(value.map(|v| own_value(signed, v)));
    };
    match range_of(alloc, scope, MAX_WIDTH, range)? {
        None => {
            constant(alloc, scope, e, 0)?;
            Ok(None)
        }
        Some(range) => ranged_value(alloc, scope, signed, e, range),
    }
}

// The value of a parameter with the bounds of its digits; none where it needs one that has no value
// (IEEE 1364-2005, 4.10.1).
fn parameter_value(
    alloc: Global,
    scope: &Scope,
    data_type: Option<&DataType>,
    e: &Expr,
) -> Result<Option<Bounded>, ElabFault>
    ensures { Gives (Constants.parameter_value (scope_seen scope.now)
        (data_type_seen data_type.entry) (expr_tree e.now)) result }
{
    match data_type {
        None => typed_value(alloc, scope, false, None, e),
        Some(data_type) => {
            typed_value(alloc, scope, data_type.signed, held(&data_type.range), e)
        }
    }
}

// A value that is given, in a range.
fn given_range(
    alloc: Global,
    scope: &Scope,
    signed: bool,
    value: Vec4,
    range: Option<&vh_ast::Range>,
) -> Result<Option<Bounded>, ElabFault>
    ensures { Gives (Constants.given_range signed value (range_seen range.entry)
        (scope_seen scope.now)) result }
{
    let Some(range) = range else {
        return Ok(Some(own_value(signed, value)));
    };
    let Some(range) = range_of(alloc, scope, MAX_WIDTH, range)? else {
        return Ok(None);
    };
    Ok(Some((range, resize(&value, span(range) as u32, signed))))
}

fn given_value(
    alloc: Global,
    scope: &Scope,
    data_type: Option<&DataType>,
    value: Vec4,
) -> Result<Option<Bounded>, ElabFault>
    ensures { Gives (Constants.given_value (scope_seen scope.now)
        (data_type_seen data_type.entry) value) result }
{
    match data_type {
        None => given_range(alloc, scope, false, value, None),
        Some(data_type) => {
            given_range(
                alloc,
                scope,
                data_type.signed,
                value,
                held(&data_type.range),
            )
        }
    }
}

// What a parameter is given, if it may be.
pub(crate) fn given_to(
    alloc: Global,
    home: Home,
    site: &Site,
    word: ParameterWord,
) -> Result<Option<Vec4>, NoMemory>
    ensures { IfOk result (λ v. v
        ≡ Constants.given_to (home_seen home.entry) (site_seen site.now) word) }
{
    match word {
        ParameterWord::Localparam => Ok(None),
        ParameterWord::Parameter => {
            if site.scope != home.number {
                return Ok(None);
            }
            let name = name_of(alloc, site)?;
            Ok(home.given.of(&name))
        }
    }
}

// Its own value, or the one that it is given.
pub(crate) fn own_or_given(
    alloc: Global,
    scope: &Scope,
    data_type: Option<&DataType>,
    e: &Expr,
    given: Option<Vec4>,
) -> Result<Option<Bounded>, ElabFault>
    ensures { Gives (Constants.own_or_given (scope_seen scope.now)
        (data_type_seen data_type.entry) (expr_tree e.now) given) result }
{
    match given {
        None => parameter_value(alloc, scope, data_type, e),
        Some(value) => given_value(alloc, scope, data_type, value),
    }
}

// Whether an object has a value, or isn't there.
fn is_valued(number: u32, known: &Known) -> bool
    ensures { result ≡ Constants.is_valued number (known_seen known.now) }
{
    match known.objects.get(number as usize) {
        None => true,
        Some(object) => matches!(object.detail, Detail::Value(_)),
    }
}

// An object of this value.
fn value_object(object: &mut ObjectInfo, e: u32, value: Vec4)
    ensures { object.new ≡ Constants.valued_object e value object.old }
{
    object.width = value.width();
    object.signed = value.is_signed();
    object.detail = Detail::Value(ExprId::new(e));
}

// An object takes a value.
fn set_value(objects: &mut Vec<ObjectInfo>, number: u32, e: u32, value: Vec4)
    ensures { objects.new.items
        ≡ Constants.with_object number (Constants.valued_object e value) objects.old.items }
{
    if let Some(object) = objects.get_mut(number as usize) {
        value_object(object, e, value);
    }
}

// A parameter takes its value.
fn take_value(alloc: Global, site: &Site, value: Bounded, known: &mut Known) -> Result<(), NoMemory>
    ensures { OnOk result (known_seen known.new
        ≡ Constants.with_value (site_seen site.now) value (known_seen known.old)) }
{
    let (range, value) = value;
    let Ok(e) = u32::try_from(known.exprs.len()) else {
        return Err(NoMemory);
    };
    known.exprs.push(ExprNode {
        kind: ExprKind::Literal(value),
        width: value.width(),
        signed: value.is_signed(),
    })?;
    set_bounds(alloc, site, range, &mut known.names)?;
    set_value(&mut known.objects, site.number, e, value);
    Ok(())
}

// A value, where there is one: a fault is found later.
fn value_or_none(value: Result<Option<Bounded>, ElabFault>) -> Result<Option<Bounded>, NoMemory>
    ensures { IsFound value result }
{
    match value {
        Ok(value) => Ok(value),
        Err(ElabFault::Refused(_, _)) => Ok(None),
        Err(ElabFault::NoMemory) => Err(NoMemory),
    }
}

// The value of a site's parameter, where it can have one: a fault is found later.
fn value_now(
    alloc: Global,
    home: Home,
    site: &Site,
    word: ParameterWord,
    data_type: Option<&DataType>,
    e: &Expr,
    known: &Known,
) -> Result<Option<Bounded>, NoMemory>
    ensures { IfOk result (λ v. v ≡ Constants.found_value
        (Constants.value_at (home_seen home.entry) (known_seen known.now)
        (site_seen site.now) word (data_type_seen data_type.entry) (expr_tree e.now))) }
{
    let value = value_at(alloc, home, known, site, word, data_type, e);
    value_or_none(value)
}

// A site's parameter takes its value, where it can; answers whether it did.
fn settle_site(alloc: Global, home: Home, site: &Site, known: &mut Known) -> Result<bool, NoMemory>
    ensures settled { OnOk result (known_seen known.new
        ≡ Constants.settled_site (home_seen home.entry) (site_seen site.now)
        (known_seen known.old)) }
    ensures same { result ≡ Ok false → known_seen known.new ≡ known_seen known.old }
{
    let Declared::Constant(word, data_type, e) = site.declared else {
        return Ok(false);
    };
    if is_valued(site.number, known) {
        return Ok(false);
    }
    let Some(value) = value_now(alloc, home, site, word, data_type, e, known)? else {
        return Ok(false);
    };
    take_value(alloc, site, value, known)?;
    Ok(true)
}

// One round; answers whether a parameter took its value.
fn settle_round(
    alloc: Global,
    home: Home,
    sites: &[Site],
    known: &mut Known,
) -> Result<bool, NoMemory>
    ensures settled { OnOk result (known_seen known.new
        ≡ Constants.round (home_seen home.entry) (all_seen sites.now) (known_seen known.old)) }
    ensures same { result ≡ Ok false → known_seen known.new ≡ known_seen known.old }
{
    let mut changed = false;
    for site in sites {
        if settle_site(alloc, home, site, known)? {
            changed = true;
        }
    }
    Ok(changed)
}

// The parameters take their values, each as soon as all that it needs have theirs. Where they go
// in the order of what they need the first round is the last that changes something.
pub(crate) fn settle_in(
    alloc: Global,
    home: Home,
    sites: &[Site],
    known: &mut Known,
) -> Result<(), NoMemory>
    ensures { OnOk result (known_seen known.new
        ≡ Constants.settled_in (home_seen home.entry) (all_seen sites.now)
        (known_seen known.old)) }
{
    for _round in sites {
        if !settle_round(alloc, home, sites, known)? {
            return Ok(());
        }
    }
    Ok(())
}
