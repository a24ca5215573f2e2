ghost use Rattle.std.specs.Prelude.{◌≡◌, ◌≤◌, ◌++◌, ◌+◌, length, true, OnOk, IfOk};
ghost use Rattle.std.specs.List.{list_all};
ghost use Rattle.vh_logic.specs.declared.vector.TheConstants.{MAX_WIDTH};
ghost use Rattle.vh_logic.specs.Vector.{width_of as digits_in};
ghost use Rattle.vh_design_nodes.specs.Widths.{selected_width, object_width};
ghost use Rattle.vh_design_code.specs.Targets.{fits_target, fits_targets, fits_input, fits_output};
ghost use Rattle.vh_proc_assign.specs.Pieces as pieces;
ghost use Rattle.vh_proc_assign.specs.Pieces.{digits_of, listed, whole, input_value, output_value};
ghost use Rattle.vh_logic.specs.Parts.{part_of};

use crate::piece::{Piece, piece_of};
use crate::values::right_side;
use vh_base::{NoMemory, ObjId, Object};
use vh_design::{Chosen, Design, Input, Output, Select, Selected};
use vh_logic::{Vec4, resize, select};
use vh_store::Store;

// The width of a target.
fn width_of(d: &Design, target: &Selected) -> u32
    requires { fits_target (d.now).objects (length (d.now).exprs) target.now ≡ true }
    ensures value { result ≡ selected_width (d.now).objects target.now }
    ensures least { 1 ≤ result }
    ensures most { result ≤ MAX_WIDTH }
{
    match target.select {
        Select::Whole => d.object(target.of.object).width,
        Select::Bit { .. } => 1,
        Select::Slice { width, .. } => width,
        Select::Indexed { width, .. } => width,
    }
}

/// How many digits the targets of a statement have.
#[tactic(auto, unfolding(crate::specs::Pieces::digits_of))]
pub fn digits_of(d: &Design, targets: &[Selected]) -> u32
    requires { fits_targets (d.now).objects (length (d.now).exprs) targets.now ≡ true }
    ensures value { result ≡ digits_of (d.now).objects targets.now }
    ensures least { 1 ≤ result }
    ensures most { result ≤ MAX_WIDTH }
{
    let mut sum = 0;
    for target in targets {
        sum += width_of(d, target);
    }
    sum
}

// Notes a piece, where there is one.
fn push_piece(out: &mut Vec<Piece>, piece: Option<Piece>) -> Result<(), NoMemory>
    ensures { OnOk result (out.new.items ≡ out.old.items ++ listed piece) }
{
    if let Some(piece) = piece {
        out.push(piece)?;
    }
    Ok(())
}

// What the next target takes, of so many digits that are left; answers how many are left behind it.
fn push_target(
    d: &Design,
    s: &Store,
    target: &Selected,
    v: &Vec4,
    left: u32,
    out: &mut Vec<Piece>,
) -> Result<u32, NoMemory>
    requires there { fits_target (d.now).objects (length (d.now).exprs) target.now ≡ true }
    requires wide { selected_width (d.now).objects target.now ≤ left }
    requires inside { left ≤ digits_in v.now }
    ensures left { IfOk result (λ rest. selected_width (d.now).objects target.now + rest ≡ left) }
    ensures taken { IfOk result
        (λ rest. let part = part_of v.now rest (selected_width (d.now).objects target.now) in
        out.new.items ≡ out.old.items ++ listed (pieces.piece_of d.now s.now target.now part)) }
{
    let width = width_of(d, target);
    let rest = left - width;
    let piece = piece_of(d, s, target, &select(v, rest, width));
    push_piece(out, piece)?;
    Ok(rest)
}

/// What targets take of a value, the first one its highest digits. Behind what was there; nothing
/// is changed yet.
#[tactic(auto, unfolding(crate::specs::Pieces::pieces_of, crate::specs::Pieces::digits_of))]
pub fn pieces_of(
    d: &Design,
    s: &Store,
    targets: &[Selected],
    v: &Vec4,
    out: &mut Vec<Piece>,
) -> Result<(), NoMemory>
    requires there { fits_targets (d.now).objects (length (d.now).exprs) targets.now ≡ true }
    requires wide { digits_of (d.now).objects targets.now ≤ digits_in v.now }
    ensures { OnOk result (out.new.items
        ≡ out.old.items ++ pieces.pieces_of d.now s.now targets.now v.now) }
{
    let mut left = digits_of(d, targets);
    for target in targets {
        left = push_target(d, s, target, v, left, out)?;
    }
    Ok(())
}

// A whole object.
fn whole(o: ObjId) -> Selected
    ensures { result ≡ whole o }
{
    Selected {
        of: Chosen {
            object: o,
            word: None,
        },
        select: Select::Whole,
    }
}

// What a variable takes at the begin of a call.
fn piece_in(d: &Design, s: &Store, input: Input) -> Option<Piece>
    requires { fits_input (d.now).objects (length (d.now).exprs) input ≡ true }
    ensures { result ≡ pieces.piece_of d.now s.now (whole input.variable)
        (input_value d.now s.now input) }
{
    let width = d.object(input.variable).width;
    let value = right_side(d, s, input.value, width);
    piece_of(d, s, &whole(input.variable), &value)
}

/// What the variables of a task or function take at the begin of a call, in order (IEEE 1364-2005,
/// 10.2.2).
#[tactic(auto, unfolding(crate::specs::Pieces::pieces_in))]
pub fn pieces_in(
    d: &Design,
    s: &Store,
    inputs: &[Input],
    out: &mut Vec<Piece>,
) -> Result<(), NoMemory>
    requires { list_all (fits_input (d.now).objects (length (d.now).exprs)) inputs.now ≡ true }
    ensures { OnOk result (out.new.items
        ≡ out.old.items ++ pieces.pieces_in d.now s.now inputs.now) }
{
    for input in inputs {
        push_piece(out, piece_in(d, s, *input))?;
    }
    Ok(())
}

// What the targets of an output take.
fn value_out(d: &Design, s: &Store, output: &Output) -> Vec4
    requires { fits_output (d.now).objects (length (d.now).exprs) output.now ≡ true }
    ensures value { result ≡ output_value d.now s.now output.now }
    ensures width { digits_in result ≡ digits_of (d.now).objects (output.now).targets }
{
    let v = s.shown(Object {
        id: output.variable,
        word: None,
    });
    resize(&v, digits_of(d, output.targets.as_slice()), v.is_signed())
}

// What the targets of an output take.
fn output_pieces(
    d: &Design,
    s: &Store,
    output: &Output,
    out: &mut Vec<Piece>,
) -> Result<(), NoMemory>
    requires { fits_output (d.now).objects (length (d.now).exprs) output.now ≡ true }
    ensures { let taken = pieces.pieces_of d.now s.now (output.now).targets
        (output_value d.now s.now output.now) in
        OnOk result (out.new.items ≡ out.old.items ++ taken) }
{
    pieces_of(
        d,
        s,
        output.targets.as_slice(),
        &value_out(d, s, output),
        out,
    )
}

/// What the targets of the outputs of a task or function take at the end of a call, in order (IEEE
/// 1364-2005, 10.2.2).
#[tactic(auto, unfolding(crate::specs::Pieces::pieces_out))]
pub fn pieces_out(
    d: &Design,
    s: &Store,
    outputs: &[Output],
    out: &mut Vec<Piece>,
) -> Result<(), NoMemory>
    requires { list_all (fits_output (d.now).objects (length (d.now).exprs)) outputs.now ≡ true }
    ensures { OnOk result (out.new.items
        ≡ out.old.items ++ pieces.pieces_out d.now s.now outputs.now) }
{
    for output in outputs {
        output_pieces(d, s, output, out)?;
    }
    Ok(())
}
