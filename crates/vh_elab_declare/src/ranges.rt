ghost use Rattle.std.specs.Prelude.{◌≡◌, ◌≤◌, ◌-◌, ◌^◌, IfOk, IfSome};
ghost use Rattle.std.specs.Option.{option_map};
ghost use Rattle.vh_logic.specs.declared.vector.TheConstants.{MAX_WIDTH};
ghost use Rattle.vh_ast.specs.Views.{expr_tree, range_tree, type_tree};
ghost use Rattle.vh_bind.specs.Steps.{Gives};
ghost use Rattle.vh_bind.specs.Views.{scope_seen};
ghost use Rattle.vh_bind_least.specs.Least.{both};
ghost use Rattle.vh_elab_declare.specs.Views.{BothBy};
ghost use Rattle.vh_elab_declare.specs.Constants;

use crate::objects::LONE_DIGIT;
use sqlite_items::Boxed;
use std::alloc::Global;
use vh_ast::{DataType, Expr};
use vh_base::{DesignFault, Place};
use vh_bind::{ElabFault, Scope, constant, number_in};
use vh_bind_least::lesser;
use vh_design_nodes::Range;
use vh_logic::MAX_WIDTH;

// The greatest bound.
const MOST_BOUND: u64 = 0x7fff_ffff;

// How many words a memory may have.
pub(crate) const MOST_WORDS: u32 = 65_536;

// How many elements a range has.
pub(crate) fn span(range: Range) -> u64
    ensures { result ≡ Constants.span range }
{
    u64::from(range.left.abs_diff(range.right)) + 1
}

// One bound of a range.
fn bound(alloc: Global, scope: &Scope, place: Place, e: &Expr) -> Result<Option<u64>, ElabFault>
    ensures value { Gives (Constants.bound (scope_seen scope.now) place (expr_tree e.now)) result }
    ensures most { IfOk result (λ o. IfSome o (λ n. n ≤ 2 ^ 31 - 1)) }
{
    let value = constant(alloc, scope, e, 0)?;
    number_in(place, 0, MOST_BOUND, value)
}

// Both of two, or the lesser of their faults.
fn both<T: Copy, U: Copy>(
    left: Result<T, ElabFault>,
    right: Result<U, ElabFault>,
) -> Result<(T, U), ElabFault>
    ensures { BothBy left right result }
{
    match left {
        Ok(left) => match right {
            Ok(right) => Ok((left, right)),
            Err(fault) => Err(fault),
        },
        Err(ElabFault::NoMemory) => Err(ElabFault::NoMemory),
        Err(ElabFault::Refused(f, p)) => match right {
            Ok(_) => Err(ElabFault::Refused(f, p)),
            Err(ElabFault::NoMemory) => Err(ElabFault::NoMemory),
            Err(ElabFault::Refused(g, q)) => {
                let (fault, place) = lesser((f, p), (g, q));
                Err(ElabFault::Refused(fault, place))
            }
        },
    }
}

// Both bounds, or the lesser of their faults.
#[tactic(auto, using(crate::proofs::BothLemmas::gives_both, crate::proofs::BothLemmas::both_left, crate::proofs::BothLemmas::both_right))]
fn bounds(
    alloc: Global,
    scope: &Scope,
    range: &vh_ast::Range,
) -> Result<(Option<u64>, Option<u64>), ElabFault>
    ensures value { Gives (Constants.bounds (scope_seen scope.now) (range_tree range.now)) result }
    ensures left { IfOk result (λ b. IfSome b.0 (λ n. n ≤ 2 ^ 31 - 1)) }
    ensures right { IfOk result (λ b. IfSome b.1 (λ n. n ≤ 2 ^ 31 - 1)) }
{
    let left = bound(alloc, scope, range.place, &range.left);
    let right = bound(alloc, scope, range.place, &range.right);
    both(left, right)
}

// A range of so many elements at most.
fn within(place: Place, most: u32, left: u64, right: u64) -> Result<Option<Range>, ElabFault>
    requires left { left ≤ 2 ^ 31 - 1 }
    requires right { right ≤ 2 ^ 31 - 1 }
    ensures value { Gives (Constants.within place most left right) result }
    ensures most { IfOk result (λ o. IfSome o (λ r. Constants.span r ≤ most)) }
{
    let range = Range {
        left: left as u32,
        right: right as u32,
    };
    if span(range) > u64::from(most) {
        return Err(ElabFault::Refused(DesignFault::N3, place));
    }
    Ok(Some(range))
}

// A range; none where it needs a parameter that has no value (IEEE 1364-2005, 4.3.1).
pub(crate) fn range_of(
    alloc: Global,
    scope: &Scope,
    most: u32,
    range: &vh_ast::Range,
) -> Result<Option<Range>, ElabFault>
    ensures value { Gives (Constants.range_of (scope_seen scope.now) most
        (range_tree range.now)) result }
    ensures most { IfOk result (λ o. IfSome o (λ r. Constants.span r ≤ most)) }
{
    let (left, right) = bounds(alloc, scope, range)?;
    let Some(left) = left else {
        return Ok(None);
    };
    let Some(right) = right else {
        return Ok(None);
    };
    within(range.place, most, left, right)
}

// The range of a type: one digit where none is written.
pub(crate) fn type_range(
    alloc: Global,
    scope: &Scope,
    data_type: &DataType,
) -> Result<Option<Range>, ElabFault>
    ensures value { Gives (Constants.type_range (scope_seen scope.now)
        (type_tree data_type.now).range) result }
    ensures most { IfOk result (λ o. IfSome o (λ r. Constants.span r ≤ MAX_WIDTH)) }
{
    match &data_type.range {
        None => Ok(Some(LONE_DIGIT)),
        Some(range) => range_of(alloc, scope, MAX_WIDTH, range.get()),
    }
}

// What is known of an object once its ranges are: the bounds of its digits, its width and its
// sign,
// and how many words a memory has, from which address on.
#[derive(Clone, Copy)]
pub(crate) struct Measure {
    pub(crate) range: Range,
    pub(crate) width: u32,
    pub(crate) signed: bool,
    pub(crate) words: u32,
    pub(crate) lowest: Option<u32>,
}

// That of a vector.
pub(crate) fn vector_measure(signed: bool, range: Range) -> Measure
    requires { Constants.span range ≤ MAX_WIDTH }
    ensures { result ≡ Constants.vector_measure signed range }
{
    Measure {
        range,
        width: span(range) as u32,
        signed,
        words: 0,
        lowest: None,
    }
}

// That of a memory with these addresses.
fn words_measure(signed: bool, addresses: Range, range: Range) -> Measure
    requires digits { Constants.span range ≤ MAX_WIDTH }
    requires words { Constants.span addresses ≤ 65536 }
    ensures { result ≡ Constants.words_measure signed addresses range }
{
    Measure {
        range,
        width: span(range) as u32,
        signed,
        words: span(addresses) as u32,
        lowest: Some(addresses.left.min(addresses.right)),
    }
}

// That of a type.
pub(crate) fn typed_measure(
    alloc: Global,
    scope: &Scope,
    data_type: &DataType,
) -> Result<Option<Measure>, ElabFault>
    ensures { Gives (Constants.typed_measure (scope_seen scope.now)
        (type_tree data_type.now)) result }
{
    match type_range(alloc, scope, data_type)? {
        None => Ok(None),
        Some(range) => Ok(Some(vector_measure(data_type.signed, range))),
    }
}

// The ranges of a type, and of a port of the same name: both are looked at.
#[tactic(auto, using(crate::proofs::BothLemmas::gives_both, crate::proofs::BothLemmas::both_left, crate::proofs::BothLemmas::both_right))]
fn both_ranges(
    alloc: Global,
    scope: &Scope,
    data_type: &DataType,
    port: &DataType,
) -> Result<(Option<Range>, Option<Range>), ElabFault>
    ensures value { Gives (both (Constants.type_range (scope_seen scope.now)
        (type_tree data_type.now).range) (Constants.type_range (scope_seen scope.now)
        (type_tree port.now).range)) result }
    ensures own { IfOk result (λ b. IfSome b.0 (λ r. Constants.span r ≤ MAX_WIDTH)) }
    ensures other { IfOk result (λ b. IfSome b.1 (λ r. Constants.span r ≤ MAX_WIDTH)) }
{
    let own = type_range(alloc, scope, data_type);
    let other = type_range(alloc, scope, port);
    both(own, other)
}

fn own_or(
    range: &Option<Boxed<vh_ast::Range>>,
    own: Option<Range>,
    other: Option<Range>,
) -> Option<Range>
    requires own { IfSome own (λ r. Constants.span r ≤ MAX_WIDTH) }
    requires other { IfSome other (λ r. Constants.span r ≤ MAX_WIDTH) }
    ensures value { result ≡ Constants.own_or (option_map range_tree range.now) (own, other) }
    ensures most { IfSome result (λ r. Constants.span r ≤ MAX_WIDTH) }
{
    match range {
        None => other,
        Some(_) => own,
    }
}

// That of a type, and of a port of the same name.
pub(crate) fn joined_measure(
    alloc: Global,
    scope: &Scope,
    data_type: &DataType,
    port: &DataType,
) -> Result<Option<Measure>, ElabFault>
    ensures { Gives (Constants.joined_measure (scope_seen scope.now) (type_tree data_type.now)
        (type_tree port.now)) result }
{
    let (own, other) = both_ranges(alloc, scope, data_type, port)?;
    let signed = data_type.signed || port.signed;
    match own_or(&data_type.range, own, other) {
        None => Ok(None),
        Some(range) => Ok(Some(vector_measure(signed, range))),
    }
}

// That of a memory.
#[tactic(auto, unfolding(crate::specs::Constants::memory_measure))]
pub(crate) fn memory_measure(
    alloc: Global,
    scope: &Scope,
    data_type: &DataType,
    addresses: &vh_ast::Range,
) -> Result<Option<Measure>, ElabFault>
    ensures { Gives (Constants.memory_measure (scope_seen scope.now) (type_tree data_type.now)
        (range_tree addresses.now)) result }
{
    let digits = type_range(alloc, scope, data_type)?;
    let addresses = range_of(alloc, scope, MOST_WORDS, addresses)?;
    let Some(digits) = digits else {
        return Ok(None);
    };
    let Some(addresses) = addresses else {
        return Ok(None);
    };
    Ok(Some(words_measure(data_type.signed, addresses, digits)))
}
