ghost use Rattle.std.specs.Prelude.{◌≡◌, ◌↔◌, length, IsTrue};
ghost use Rattle.vh_design_nodes.specs.Fits.{fits_object, fits_node, fits_driver};
ghost use Rattle.vh_design_code.specs.Codes.{fits_code, fits_wait, fits_show, fits_statement};
ghost use Rattle.vh_design.specs.Handed.{shape_of};
ghost use Rattle.vh_design.specs.Validity.{AllFit, CodesFit, CallsFit, NodesFit, NamesFit, IsValid, limits_of};

use crate::parts::Parts;
use vh_design_code::{
    Code, Limits, ShowCall, StmtInfo, WaitInfo, fits_code, fits_show, fits_statement, fits_wait,
};
use vh_design_nodes::{
    DriverInfo, ExprNode, MOST_UNIT, ObjectInfo, fits_driver, fits_node, fits_object,
};

// Whether each object fits.
fn objects_fit(exprs: usize, bodies: usize, objects: &[ObjectInfo]) -> bool
    ensures { IsTrue result ↔ AllFit (fits_object exprs bodies objects.now) objects.now }
{
    for (o, object) in objects.iter().enumerate() {
        if !fits_object(exprs, bodies, objects, o, object) {
            return false;
        }
    }
    true
}

// Whether each expression fits.
fn exprs_fit(exprs: &[ExprNode], objects: &[ObjectInfo], precision: u8) -> bool
    ensures { IsTrue result ↔ AllFit (fits_node exprs.now objects.now precision) exprs.now }
{
    for (e, node) in exprs.iter().enumerate() {
        if !fits_node(exprs, objects, precision, e, node) {
            return false;
        }
    }
    true
}

// Whether each driver fits.
fn drivers_fit(objects: &[ObjectInfo], drivers: &[DriverInfo]) -> bool
    ensures { IsTrue result ↔ AllFit (λ x. fits_driver objects.now) drivers.now }
{
    for driver in drivers {
        if !fits_driver(objects, driver) {
            return false;
        }
    }
    true
}

// Whether each code fits.
fn codes_fit(
    objects: &[ObjectInfo],
    exprs: &[ExprNode],
    drivers: &[DriverInfo],
    limits: Limits,
    codes: &[Code],
) -> bool
    ensures { IsTrue result ↔
        AllFit (λ k. fits_code objects.now exprs.now drivers.now limits) codes.now }
{
    for code in codes {
        if !fits_code(objects, exprs, drivers, limits, code) {
            return false;
        }
    }
    true
}

// Whether each wait fits.
fn waits_fit(objects: &[ObjectInfo], waits: &[WaitInfo]) -> bool
    ensures { IsTrue result ↔ AllFit (λ w. fits_wait objects.now) waits.now }
{
    for wait in waits {
        if !fits_wait(objects, wait) {
            return false;
        }
    }
    true
}

// Whether each display call fits.
fn shows_fit(objects: &[ObjectInfo], exprs: &[ExprNode], precision: u8, shows: &[ShowCall]) -> bool
    ensures { IsTrue result ↔
        AllFit (λ s. fits_show objects.now (length exprs.now) precision) shows.now }
{
    for show in shows {
        if !fits_show(objects, exprs.len(), precision, show) {
            return false;
        }
    }
    true
}

// Whether each statement fits.
fn stmts_fit(objects: &[ObjectInfo], stmts: &[StmtInfo]) -> bool
    ensures { IsTrue result ↔ AllFit (λ n. fits_statement objects.now) stmts.now }
{
    for statement in stmts {
        if !fits_statement(objects, statement) {
            return false;
        }
    }
    true
}

// How many of each a code may name.
fn limits_of(parts: &Parts) -> Limits
    ensures { result ≡ limits_of (shape_of parts.now) }
{
    Limits {
        waits: parts.waits.len(),
        shows: parts.shows.len(),
        stmts: parts.stmts.len(),
        precision: parts.precision,
    }
}

// Whether all codes of the parts fit.
fn all_codes_fit(parts: &Parts, codes: &[Code]) -> bool
    ensures { IsTrue result ↔ CodesFit (shape_of parts.now) codes.now }
{
    codes_fit(
        &parts.objects,
        &parts.exprs,
        &parts.drivers,
        limits_of(parts),
        codes,
    )
}

// Whether each object, each expression, each driver and the precision fits.
fn nodes_fit(parts: &Parts) -> bool
    ensures { IsTrue result ↔ NodesFit (shape_of parts.now) }
{
    parts.precision <= MOST_UNIT
        && objects_fit(parts.exprs.len(), parts.bodies.len(), &parts.objects)
        && exprs_fit(&parts.exprs, &parts.objects, parts.precision)
        && drivers_fit(&parts.objects, &parts.drivers)
}

// Whether each display call of the parts fits.
fn all_shows_fit(parts: &Parts) -> bool
    ensures { IsTrue result ↔ CallsFit (shape_of parts.now) }
{
    shows_fit(&parts.objects, &parts.exprs, parts.precision, &parts.shows)
}

// Whether each wait, each display call and each statement fits.
fn names_fit(parts: &Parts) -> bool
    ensures { IsTrue result ↔ NamesFit (shape_of parts.now) }
{
    all_shows_fit(parts)
        && waits_fit(&parts.objects, &parts.waits)
        && stmts_fit(&parts.objects, &parts.stmts)
}

// Whether the parts make a design. It goes once over the elements, and a few times over the parts
// of each.
pub(crate) fn is_valid(parts: &Parts) -> bool
    ensures { IsTrue result ↔ IsValid (shape_of parts.now) }
{
    nodes_fit(parts)
        && names_fit(parts)
        && all_codes_fit(parts, &parts.codes)
        && all_codes_fit(parts, &parts.bodies)
}
