ghost use Rattle.std.specs.Prelude.{◌≡◌, [], ◌∷◌, ◌++◌, true, map, OnOk};
ghost use Rattle.vh_design_nodes.specs.Fits.{is_unit};
ghost use Rattle.vh_design_code.specs.Targets.{targets_width};
ghost use Rattle.vh_ast.specs.Views.{expr_tree, name_tree, sel_tree, lv_tree, lv_part_tree};
ghost use Rattle.vh_bind.specs.declared.scope.Mode.TheVariants as mode;
ghost use Rattle.vh_bind.specs.Steps.{Steps, StepsOn, Gives};
ghost use Rattle.vh_bind.specs.Nodes.{IsSound};
ghost use Rattle.vh_bind.specs.Views.{scope_seen};
ghost use Rattle.vh_bind_stmt.specs.Targets.{selected_by, with_target, vector_selected, memory_selected, name_piece, piece_bound, pieces_bound, in_width, targets_bound, output_pieces, outputs_pieces, output_bound};
ghost use Rattle.vh_ast.specs.Expressions.{exprs};
ghost use Rattle.vh_bind_stmt.specs.Views.{AddsTo};

use crate::calls::add_one;
use sqlite_items::Boxed;
use std::alloc::Global;
use vh_ast::{Expr, ExprForm, Lv, LvPart, Name, Primary, Sel};
use vh_base::{DesignFault, ExprId, NoMemory, ObjId, Place, Sequence};
use vh_bind::{ElabFault, Nodes, Readable, Scope};
use vh_bind_expr::{bind_expr, bind_part, bit_select, name_read, whole_of, word_of};
use vh_design_code::Targets;
use vh_design_nodes::{
    Chosen, ObjectInfo, Range, Select, Selected, is_variable_at, is_width, selected_width,
    side_by_side,
};

// What may stand behind a name.
type Brackets = Option<Boxed<Sel<Expr>>>;

// Where a name stands, and the object that it stands for, with its range.
type Found = (Place, ObjId, Range);

// What is selected; none where something that it needs is passed over; or the first fault.
type Choosing = Result<Option<Selected>, ElabFault>;

// What is selected, where no part of it is passed over.
fn selected_by(of: Option<Chosen>, select: Option<Select>) -> Option<Selected>
    ensures { result ≡ selected_by of select }
{
    let of = of?;
    let select = select?;
    Some(Selected { of, select })
}

// One target more, where it isn't passed over; whether that is so.
fn with_target(targets: &mut Vec<Selected>, target: Option<Selected>) -> Result<bool, NoMemory>
    ensures { AddsTo (with_target targets.old.items target) result targets.new.items }
{
    let Some(target) = target else {
        return Ok(false);
    };
    add_one(targets, target.of, target.select)?;
    Ok(true)
}

// A variable, or digits of one.
fn in_vector(alloc: Global, scope: &Scope, nodes: &mut Nodes, of: Found, sel: &Brackets) -> Choosing
    requires sound { IsSound mode.Value (scope_seen scope.now) nodes.old.items }
    requires unit { is_unit (scope_seen scope.now).precision (scope_seen scope.now).unit ≡ true }
    ensures step { Steps
        (vector_selected (scope_seen scope.now) of.0 of.1 of.2 (sel_tree sel.now) nodes.old.items)
        result nodes.new.items }
    ensures sound { OnOk result (IsSound mode.Value (scope_seen scope.now) nodes.new.items) }
{
    let (place, object, range) = of;
    let of = whole_of(object);
    let Some(sel) = sel else {
        return Ok(selected_by(of, Some(Select::Whole)));
    };
    match sel.get() {
        Sel::Index(_, index) => {
            let index: Option<ExprId> = bind_expr(alloc, nodes, scope, index.get())?;
            Ok(selected_by(of, bit_select(range, index)))
        }
        Sel::Both { .. } => Err(ElabFault::Refused(DesignFault::N1, place)),
        Sel::Part(last) => {
            let select = bind_part(alloc, scope, nodes, range, last)?;
            Ok(selected_by(of, select))
        }
    }
}

// A word of a memory, or digits of one.
fn in_memory(alloc: Global, scope: &Scope, nodes: &mut Nodes, of: Found, sel: &Brackets) -> Choosing
    requires sound { IsSound mode.Value (scope_seen scope.now) nodes.old.items }
    requires unit { is_unit (scope_seen scope.now).precision (scope_seen scope.now).unit ≡ true }
    ensures step { Steps
        (memory_selected (scope_seen scope.now) of.0 of.1 of.2 (sel_tree sel.now) nodes.old.items)
        result nodes.new.items }
    ensures sound { OnOk result (IsSound mode.Value (scope_seen scope.now) nodes.new.items) }
{
    let (place, object, range) = of;
    let Some(sel) = sel else {
        return Err(ElabFault::Refused(DesignFault::N1, place));
    };
    match sel.get() {
        Sel::Part(_) => Err(ElabFault::Refused(DesignFault::N1, place)),
        Sel::Index(_, index) => {
            let index = bind_expr(alloc, nodes, scope, index.get())?;
            Ok(selected_by(word_of(object, index), Some(Select::Whole)))
        }
        Sel::Both { index, last, .. } => {
            let index = bind_expr(alloc, nodes, scope, index.get())?;
            let select = bind_part(alloc, scope, nodes, range, last)?;
            Ok(selected_by(word_of(object, index), select))
        }
    }
}

// What a name with its select assigns to, behind other targets; whether it isn't passed over.
fn bind_name(
    alloc: Global,
    scope: &Scope,
    nodes: &mut Nodes,
    targets: &mut Vec<Selected>,
    name: &Name<Expr>,
    sel: &Brackets,
) -> Result<bool, ElabFault>
    requires sound { IsSound mode.Value (scope_seen scope.now) nodes.old.items }
    requires unit { is_unit (scope_seen scope.now).precision (scope_seen scope.now).unit ≡ true }
    ensures step { StepsOn
        (name_piece (scope_seen scope.now) targets.old.items (name_tree name.now) (sel_tree sel.now)
        nodes.old.items)
        result targets.new.items nodes.new.items }
    ensures sound { OnOk result (IsSound mode.Value (scope_seen scope.now) nodes.new.items) }
{
    let place = name.first.id.place;
    match name_read(alloc, scope, nodes, name)? {
        Readable::Wrong | Readable::Genvar(_) => Err(ElabFault::Refused(DesignFault::N1, place)),
        Readable::Unknown => Ok(false),
        Readable::Parameter(_, _, _) => Err(ElabFault::Refused(DesignFault::N5, place)),
        Readable::Vector(object, range) => {
            if !is_variable_at(scope.objects, object) {
                return Err(ElabFault::Refused(DesignFault::N5, place));
            }
            let target = in_vector(alloc, scope, nodes, (place, object, range), sel)?;
            Ok(with_target(targets, target)?)
        }
        Readable::Memory(object, range) => {
            let target = in_memory(alloc, scope, nodes, (place, object, range), sel)?;
            Ok(with_target(targets, target)?)
        }
    }
}

// A part of a row of targets; whether it isn't passed over.
fn bind_piece(
    alloc: Global,
    scope: &Scope,
    nodes: &mut Nodes,
    targets: &mut Vec<Selected>,
    piece: &LvPart,
) -> Result<bool, ElabFault>
    requires sound { IsSound mode.Value (scope_seen scope.now) nodes.old.items }
    requires unit { is_unit (scope_seen scope.now).precision (scope_seen scope.now).unit ≡ true }
    ensures step { StepsOn
        (piece_bound (scope_seen scope.now) targets.old.items (lv_part_tree piece.now)
        nodes.old.items)
        result targets.new.items nodes.new.items }
    ensures sound { OnOk result (IsSound mode.Value (scope_seen scope.now) nodes.new.items) }
{
    match piece {
        LvPart::Open | LvPart::Close => Ok(true),
        LvPart::Name(name, sel) => bind_name(alloc, scope, nodes, targets, name.get(), sel),
    }
}

// The targets of a row, from the left.
fn bind_pieces(
    alloc: Global,
    scope: &Scope,
    nodes: &mut Nodes,
    pieces: &[LvPart],
) -> Result<Option<Targets>, ElabFault>
    requires sound { IsSound mode.Value (scope_seen scope.now) nodes.old.items }
    requires unit { is_unit (scope_seen scope.now).precision (scope_seen scope.now).unit ≡ true }
    ensures step { Steps
        (pieces_bound (scope_seen scope.now) [] (map lv_part_tree pieces.now) nodes.old.items)
        result nodes.new.items }
    ensures sound { OnOk result (IsSound mode.Value (scope_seen scope.now) nodes.new.items) }
{
    let mut targets = Vec::new(alloc);
    for piece in pieces {
        if !bind_piece(alloc, scope, nodes, &mut targets, piece)? {
            return Ok(None);
        }
    }
    Ok(Some(Sequence::new(targets)))
}

/// How many digits some targets have, one above the greatest width where it is more.
pub fn targets_width(objects: &[ObjectInfo], targets: &[Selected]) -> u32
    ensures { result ≡ targets_width objects.now targets.now }
{
    targets.iter().fold(
        0,
        |sum, target| side_by_side(sum, selected_width(objects, target)),
    )
}

// Together they have a width that a vector may have.
fn in_width(
    scope: &Scope,
    place: Place,
    targets: Option<Targets>,
) -> Result<Option<Targets>, ElabFault>
    ensures { Gives (in_width (scope_seen scope.now) place targets) result }
{
    let Some(targets) = targets else {
        return Ok(None);
    };
    if !is_width(targets_width(scope.objects, targets.as_slice())) {
        return Err(ElabFault::Refused(DesignFault::N3, place));
    }
    Ok(Some(targets))
}

/// The left side of an assignment, the highest part first (IEEE 1364-2005, 9.2): variables and words
/// of memories, or digits of these. None where it needs a parameter that has no value. An error is
/// the first fault, or want of memory.
pub fn bind_targets(
    alloc: Global,
    scope: &Scope,
    nodes: &mut Nodes,
    lv: &Lv,
) -> Result<Option<Targets>, ElabFault>
    requires sound { IsSound mode.Value (scope_seen scope.now) nodes.old.items }
    requires unit { is_unit (scope_seen scope.now).precision (scope_seen scope.now).unit ≡ true }
    ensures step { Steps
        (targets_bound (scope_seen scope.now) (lv_tree lv.now) nodes.old.items)
        result nodes.new.items }
    ensures sound { OnOk result (IsSound mode.Value (scope_seen scope.now) nodes.new.items) }
{
    let targets = bind_pieces(alloc, scope, nodes, lv.parts.as_slice())?;
    in_width(scope, lv.place, targets)
}

// An output of a task: a target, or a concatenation of them, behind other targets; whether it isn't
// passed over.
#[cycle(output)]
fn output_pieces(
    alloc: Global,
    scope: &Scope,
    nodes: &mut Nodes,
    targets: &mut Vec<Selected>,
    e: &Expr,
) -> Result<bool, ElabFault>
    requires sound { IsSound mode.Value (scope_seen scope.now) nodes.old.items }
    requires unit { is_unit (scope_seen scope.now).precision (scope_seen scope.now).unit ≡ true }
    ensures step { StepsOn
        (output_pieces (scope_seen scope.now) targets.old.items (expr_tree e.now) nodes.old.items)
        result targets.new.items nodes.new.items }
    ensures sound { OnOk result (IsSound mode.Value (scope_seen scope.now) nodes.new.items) }
{
    match &e.form {
        ExprForm::Primary(primary) => match primary {
            Primary::Name(name, sel) => bind_name(alloc, scope, nodes, targets, name.get(), sel),
            Primary::Concat(parts) => {
                outputs_pieces(alloc, scope, nodes, targets, parts.as_slice())
            }
            Primary::Number(_)
            | Primary::Text(_)
            | Primary::Call(_, _)
            | Primary::System(_, _)
            | Primary::Paren(_)
            | Primary::Repeat(_, _) => Err(ElabFault::Refused(DesignFault::N5, e.place)),
        },
        ExprForm::Unary(_, _) | ExprForm::Chain(_, _) | ExprForm::Choice { .. } => {
            Err(ElabFault::Refused(DesignFault::N5, e.place))
        }
    }
}

// The parts of a concatenation that is an output.
#[cycle(output)]
fn outputs_pieces(
    alloc: Global,
    scope: &Scope,
    nodes: &mut Nodes,
    targets: &mut Vec<Selected>,
    parts: &[Expr],
) -> Result<bool, ElabFault>
    requires sound { IsSound mode.Value (scope_seen scope.now) nodes.old.items }
    requires unit { is_unit (scope_seen scope.now).precision (scope_seen scope.now).unit ≡ true }
    ensures step { StepsOn
        (outputs_pieces (scope_seen scope.now) targets.old.items (exprs (map expr_tree parts.now))
        nodes.old.items)
        result targets.new.items nodes.new.items }
    ensures sound { OnOk result (IsSound mode.Value (scope_seen scope.now) nodes.new.items) }
{
    for part in parts {
        if !output_pieces(alloc, scope, nodes, targets, part)? {
            return Ok(false);
        }
    }
    Ok(true)
}

/// What an output of a task assigns to, the highest part first (IEEE 1364-2005, 10.2.2).
pub fn bind_output(
    alloc: Global,
    scope: &Scope,
    nodes: &mut Nodes,
    e: &Expr,
) -> Result<Option<Targets>, ElabFault>
    requires sound { IsSound mode.Value (scope_seen scope.now) nodes.old.items }
    requires unit { is_unit (scope_seen scope.now).precision (scope_seen scope.now).unit ≡ true }
    ensures step { Steps
        (output_bound (scope_seen scope.now) (expr_tree e.now) nodes.old.items)
        result nodes.new.items }
    ensures sound { OnOk result (IsSound mode.Value (scope_seen scope.now) nodes.new.items) }
{
    let mut targets = Vec::new(alloc);
    if !output_pieces(alloc, scope, nodes, &mut targets, e)? {
        return Ok(None);
    }
    in_width(scope, e.place, Some(Sequence::new(targets)))
}
