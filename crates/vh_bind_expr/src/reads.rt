ghost use Rattle.std.specs.Prelude.{◌≡◌, ◌<◌, ◌≤◌, ◌++◌, ◌∷◌, [], true, length, map, IfOk, IfSome, OnOk};
ghost use Rattle.vh_logic.specs.declared.vector.TheConstants.{MAX_WIDTH};
ghost use Rattle.vh_design_nodes.specs.declared.expr.Access.TheVariants as access;
ghost use Rattle.vh_design_nodes.specs.Fits.{all_before, fits_select, fits_word, is_unit};
ghost use Rattle.vh_ast.specs.Expressions.{exprs};
ghost use Rattle.vh_ast.specs.Views.{expr_tree};
ghost use Rattle.vh_bind.specs.declared.scope.Mode.TheVariants as mode;
ghost use Rattle.vh_bind.specs.Steps.{Steps};
ghost use Rattle.vh_bind.specs.Nodes.{IsSound};
ghost use Rattle.vh_bind.specs.Objects.{word_of, bit_select, indexed_select};
ghost use Rattle.vh_bind.specs.Constants.{begun, call_pushed, other_system, selected_pushed, whole_of, with_numbers};
ghost use Rattle.vh_bind.specs.Views.{scope_seen};
ghost use Rattle.vh_bind_expr.specs.Kinds.{IsFunction};

use sqlite_items::Items;
use std::alloc::Global;
use vh_ast::{Expr, Id};
use vh_base::{Boxed, DesignFault, ExprId, NoMemory, ObjId, Place, Sequence};
use vh_bind::{ElabFault, Function, Mode, Scope, push};
use vh_design_nodes::{Chosen, ExprIds, ExprKind, ExprNode, Range, Select, Selected};

/// A whole object.
pub fn whole_of(object: ObjId) -> Option<Chosen>
    ensures { result ≡ whole_of object }
{
    Some(Chosen { object, word: None })
}

/// The word of a memory, by the expression of its address.
pub fn word_of(object: ObjId, index: Option<ExprId>) -> Option<Chosen>
    ensures { result ≡ word_of object index }
{
    index.map(|e| Chosen {
        object,
        word: Some(e),
    })
}

/// One digit, by an index.
pub fn bit_select(range: Range, index: Option<ExprId>) -> Option<Select>
    ensures { result ≡ bit_select range index }
{
    index.map(|index| Select::Bit { range, index })
}

/// So many digits from an index on, upwards or downwards by index.
pub fn indexed_select(
    up: bool,
    range: Range,
    base: Option<ExprId>,
    width: Option<u64>,
) -> Option<Select>
    requires { IfSome width (λ n. n ≤ MAX_WIDTH) }
    ensures { result ≡ indexed_select up range base width }
{
    let base = base?;
    let width = width? as u32;
    Some(Select::Indexed {
        up,
        range,
        base,
        width,
    })
}

/// Digits of an object or of a word, where no part is passed over.
pub fn push_selected(
    scope: &Scope,
    nodes: &mut Vec<ExprNode>,
    place: Place,
    of: Option<Chosen>,
    select: Option<Select>,
) -> Result<Option<ExprId>, ElabFault>
    requires sound { IsSound mode.Value (scope_seen scope.now) nodes.old.items }
    requires chosen { let os = (scope_seen scope.now).objects in IfSome of
        (λ c. fits_word os (length nodes.old.items) access.Read c.object c.word ≡ true) }
    requires parts { IfSome select (λ x. fits_select (length nodes.old.items) x ≡ true) }
    ensures step { Steps
        (selected_pushed (scope_seen scope.now) place of select nodes.old.items)
        result nodes.new.items }
    ensures sound { OnOk result (IsSound mode.Value (scope_seen scope.now) nodes.new.items) }
    ensures below { IfOk result (λ o. IfSome o (λ n. n < length nodes.new.items)) }
    ensures grows { OnOk result (length nodes.old.items ≤ length nodes.new.items) }
{
    let Some(of) = of else {
        return Ok(None);
    };
    let Some(select) = select else {
        return Ok(None);
    };
    let selected = Selected { of, select };
    push(
        scope,
        Mode::Value,
        nodes,
        place,
        ExprKind::Selected(selected),
    )
}

// The call of a function, where no argument is passed over.
pub(crate) fn push_call(
    alloc: Global,
    scope: &Scope,
    nodes: &mut Vec<ExprNode>,
    place: Place,
    function: &Function,
    arguments: Option<ExprIds>,
) -> Result<Option<ExprId>, ElabFault>
    requires sound { IsSound mode.Value (scope_seen scope.now) nodes.old.items }
    requires function { IsFunction (scope_seen scope.now).objects function.now }
    requires arguments { IfSome arguments (λ ns. all_before (length nodes.old.items) ns ≡ true) }
    ensures step { Steps
        (call_pushed (scope_seen scope.now) place function.now arguments nodes.old.items)
        result nodes.new.items }
    ensures sound { OnOk result (IsSound mode.Value (scope_seen scope.now) nodes.new.items) }
    ensures below { IfOk result (λ o. IfSome o (λ n. n < length nodes.new.items)) }
    ensures grows { OnOk result (length nodes.old.items ≤ length nodes.new.items) }
{
    let Some(arguments) = arguments else {
        return Ok(None);
    };
    let arguments = Boxed::new(alloc, arguments)?;
    let kind = ExprKind::Call {
        function: function.id,
        result: function.result,
        arguments,
    };
    push(scope, Mode::Value, nodes, place, kind)
}

// A system call that isn't `$signed` or `$unsigned`: `$time` alone is known, and has no argument.
pub(crate) fn push_system(
    scope: &Scope,
    nodes: &mut Vec<ExprNode>,
    id: &Id,
    arguments: &Items<Expr>,
) -> Result<Option<ExprId>, ElabFault>
    requires sound { IsSound mode.Value (scope_seen scope.now) nodes.old.items }
    requires unit { is_unit (scope_seen scope.now).precision (scope_seen scope.now).unit ≡ true }
    ensures step { Steps
        (other_system mode.Value (scope_seen scope.now) id.now
        (exprs (map expr_tree arguments.now)) nodes.old.items) result nodes.new.items }
    ensures sound { OnOk result (IsSound mode.Value (scope_seen scope.now) nodes.new.items) }
    ensures below { IfOk result (λ o. IfSome o (λ n. n < length nodes.new.items)) }
    ensures grows { OnOk result (length nodes.old.items ≤ length nodes.new.items) }
{
    if id.name.as_slice() != b"$time".as_slice() {
        return Err(ElabFault::Refused(DesignFault::N10, id.place));
    }
    let arguments = arguments.as_slice();
    let count = arguments.len();
    if count != 0 {
        return Err(ElabFault::Refused(DesignFault::N10, id.place));
    }
    let unit = scope.unit;
    push(scope, Mode::Value, nodes, id.place, ExprKind::Time { unit })
}

// Some numbers once more.
fn copied(alloc: Global, numbers: &Option<ExprIds>) -> Result<Option<ExprIds>, NoMemory>
    ensures { IfOk result (λ o. o ≡ numbers.now) }
{
    match numbers {
        None => Ok(None),
        Some(numbers) => Ok(Some(Sequence::from_slice(alloc, numbers.as_slice())?)),
    }
}

// The begin of a call, which has what is given to it; answers that.
pub(crate) fn push_begin(
    alloc: Global,
    scope: &Scope,
    nodes: &mut Vec<ExprNode>,
    place: Place,
    function: &Function,
    given: Option<ExprIds>,
) -> Result<Option<ExprIds>, ElabFault>
    requires sound { IsSound mode.Value (scope_seen scope.now) nodes.old.items }
    requires function { IsFunction (scope_seen scope.now).objects function.now }
    requires given { IfSome given (λ ns. all_before (length nodes.old.items) ns ≡ true) }
    ensures step { Steps
        (begun (scope_seen scope.now) place function.now given nodes.old.items) result
        nodes.new.items }
    ensures sound { OnOk result (IsSound mode.Value (scope_seen scope.now) nodes.new.items) }
    ensures below { IfOk result
        (λ o. IfSome o (λ ns. all_before (length nodes.new.items) ns ≡ true)) }
    ensures grows { OnOk result (length nodes.old.items ≤ length nodes.new.items) }
{
    let arguments = copied(alloc, &given)?;
    push_call(alloc, scope, nodes, place, function, arguments)?;
    Ok(given)
}

// Numbers behind others, where none is passed over.
pub(crate) fn with_numbers(
    given: Option<ExprIds>,
    taken: Option<ExprIds>,
) -> Result<Option<ExprIds>, NoMemory>
    ensures { IfOk result (λ o. o ≡ with_numbers given taken) }
{
    let Some(given) = given else {
        return Ok(None);
    };
    let Some(taken) = taken else {
        return Ok(None);
    };
    let mut numbers = given.into_vec();
    let mut more = taken.into_vec();
    numbers.append(&mut more)?;
    Ok(Some(Sequence::new(numbers)))
}

// One number more.
pub(crate) fn add_number(numbers: &mut Vec<ExprId>, number: ExprId) -> Result<(), NoMemory>
    ensures { OnOk result (numbers.new.items ≡ numbers.old.items ++ number ∷ []) }
{
    numbers.push(number)?;
    Ok(())
}
