ghost use Rattle.std.specs.Prelude.{◌≡◌, ◌+◌, map, min, Some, IfOk};
ghost use Rattle.vh_logic.specs.declared.vector.TheConstants.{MAX_WIDTH};
ghost use Rattle.vh_ast.specs.Expressions;
ghost use Rattle.vh_ast.specs.Views.{expr_tree, lv_part_tree, lv_tree, name_tree, sel_tree};
ghost use Rattle.vh_bind.specs.Scopes.{here};
ghost use Rattle.vh_bind.specs.Steps.{Gives};
ghost use Rattle.vh_bind.specs.Views.{scope_seen};
ghost use Rattle.vh_elab_drives.specs.Nets;
ghost use Rattle.vh_elab_drives.specs.Views.{Drives, row_seen};

use crate::nets::name_driver;
use sqlite_items::Boxed;
use std::alloc::Global;
use vh_ast::{Expr, ExprForm, Lv, LvPart, Name, Primary, Sel};
use vh_base::{DesignFault, NoMemory, Place, Sequence};
use vh_bind::{ElabFault, Scope};
use vh_design_nodes::{DriverInfo, ExprNode, is_width};
use vh_logic::MAX_WIDTH;

/// Drivers in a row, the highest first.
pub type Drivers = Sequence<DriverInfo>;

/// The drivers of what is assigned to; none where it needs what has no value.
pub type Driving = Result<Option<Drivers>, ElabFault>;

// A driver more; answers whether there is one.
fn add_driver(drivers: &mut Vec<DriverInfo>, driver: Option<DriverInfo>) -> Result<bool, NoMemory>
    ensures { IfOk result (λ b. Nets.one_more drivers.old.items driver
        ≡ row_seen b drivers.new.items) }
{
    let Some(driver) = driver else {
        return Ok(false);
    };
    drivers.push(driver)?;
    Ok(true)
}

// A name with its select; answers whether nothing was passed over.
fn add_name(
    alloc: Global,
    scope: &Scope,
    nodes: &[ExprNode],
    name: &Name<Expr>,
    sel: &Option<Boxed<Sel<Expr>>>,
    drivers: &mut Vec<DriverInfo>,
) -> Result<bool, ElabFault>
    ensures { Drives (Nets.with_driver drivers.old.items (Nets.name_driver
        (here (scope_seen scope.now) nodes.now) (name_tree name.now) (sel_tree sel.now)))
        result drivers.new.items }
{
    let driver = name_driver(alloc, scope, nodes, name, sel)?;
    Ok(add_driver(drivers, driver)?)
}

// A part of a target; answers whether nothing was passed over.
fn add_piece(
    alloc: Global,
    scope: &Scope,
    nodes: &[ExprNode],
    piece: &LvPart,
    drivers: &mut Vec<DriverInfo>,
) -> Result<bool, ElabFault>
    ensures { Drives (Nets.piece_drivers (here (scope_seen scope.now) nodes.now) drivers.old.items
        (lv_part_tree piece.now)) result drivers.new.items }
{
    match piece {
        LvPart::Open | LvPart::Close => Ok(true),
        LvPart::Name(name, sel) => add_name(alloc, scope, nodes, name.get(), sel, drivers),
    }
}

fn wider(sum: u32, width: u32) -> u32
    ensures { result ≡ min (sum + width) (MAX_WIDTH + 1) }
{
    sum.saturating_add(width).min(MAX_WIDTH + 1)
}

/// How many digits some drivers have together; one above the greatest width where it is more than
/// that.
pub fn drivers_sum(drivers: &[DriverInfo]) -> u32
    ensures { result ≡ Nets.drivers_sum drivers.now }
{
    let mut sum = 0;
    for driver in drivers {
        sum = wider(sum, driver.width);
    }
    sum
}

// Together they have a width that a vector may have.
fn in_width(place: Place, drivers: Vec<DriverInfo>) -> Driving
    ensures { Gives (Nets.in_width place (Some drivers.items)) result }
{
    if !is_width(drivers_sum(&drivers)) {
        return Err(ElabFault::Refused(DesignFault::N3, place));
    }
    Ok(Some(Sequence::new(drivers)))
}

// The parts of a target.
fn add_pieces(
    alloc: Global,
    scope: &Scope,
    nodes: &[ExprNode],
    pieces: &[LvPart],
    drivers: &mut Vec<DriverInfo>,
) -> Result<bool, ElabFault>
    ensures { Drives (Nets.pieces_drivers (here (scope_seen scope.now) nodes.now)
        drivers.old.items (map lv_part_tree pieces.now)) result drivers.new.items }
{
    for piece in pieces {
        if !add_piece(alloc, scope, nodes, piece, drivers)? {
            return Ok(false);
        }
    }
    Ok(true)
}

// An expression as a target: nothing but a name or a concatenation is one.
#[cycle(exprs)]
fn add_expr(
    alloc: Global,
    scope: &Scope,
    nodes: &[ExprNode],
    e: &Expr,
    drivers: &mut Vec<DriverInfo>,
) -> Result<bool, ElabFault>
    ensures { Drives (Nets.expr_drivers (here (scope_seen scope.now) nodes.now) drivers.old.items
        (expr_tree e.now)) result drivers.new.items }
{
    match &e.form {
        ExprForm::Primary(primary) => match primary {
            Primary::Name(name, sel) => add_name(alloc, scope, nodes, name.get(), sel, drivers),
            Primary::Concat(parts) => add_exprs(alloc, scope, nodes, parts.as_slice(), drivers),
            Primary::Number(_)
            | Primary::Text(_)
            | Primary::Call(_, _)
            | Primary::System(_, _)
            | Primary::Paren(_)
            | Primary::Repeat(_, _) => Err(ElabFault::Refused(DesignFault::N5, e.place)),
        },
        ExprForm::Unary(_, _) | ExprForm::Chain(_, _) | ExprForm::Choice { .. } => {
            Err(ElabFault::Refused(DesignFault::N5, e.place))
        }
    }
}

// The parts of a concatenation.
#[cycle(exprs)]
fn add_exprs(
    alloc: Global,
    scope: &Scope,
    nodes: &[ExprNode],
    es: &[Expr],
    drivers: &mut Vec<DriverInfo>,
) -> Result<bool, ElabFault>
    ensures { Drives (Nets.exprs_drivers (here (scope_seen scope.now) nodes.now)
        drivers.old.items (Expressions.exprs (map expr_tree es.now))) result drivers.new.items }
{
    for e in es {
        if !add_expr(alloc, scope, nodes, e, drivers)? {
            return Ok(false);
        }
    }
    Ok(true)
}

/// The drivers of a target; none where it needs what has no value.
pub fn target_drivers(alloc: Global, scope: &Scope, nodes: &[ExprNode], lv: &Lv) -> Driving
    ensures { Gives (Nets.target_drivers (here (scope_seen scope.now) nodes.now)
        (lv_tree lv.now)) result }
{
    let mut drivers = Vec::new(alloc);
    if !add_pieces(alloc, scope, nodes, lv.parts.as_slice(), &mut drivers)? {
        return Ok(None);
    }
    in_width(lv.place, drivers)
}

/// The drivers of an expression that is an output.
pub fn output_drivers(alloc: Global, scope: &Scope, nodes: &[ExprNode], e: &Expr) -> Driving
    ensures { Gives (Nets.output_drivers (here (scope_seen scope.now) nodes.now)
        (expr_tree e.now)) result }
{
    let mut drivers = Vec::new(alloc);
    if !add_expr(alloc, scope, nodes, e, &mut drivers)? {
        return Ok(None);
    }
    in_width(e.place, drivers)
}
