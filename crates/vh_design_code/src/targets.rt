ghost use Rattle.std.specs.Prelude.{◌≡◌, nat_lt, length};
ghost use Rattle.std.specs.List.{list_all};
ghost use Rattle.vh_design_code.specs.Targets.{targets_width, drivers_width, fits_target, fits_targets, fits_drivers, fits_delay, fits_input, fits_output};

use crate::target::{Delay, Input, Output};
use vh_base::DriverId;
use vh_design_nodes::{
    Access, DriverInfo, ObjectInfo, Selected, driver_width, fits_selected, is_before, is_unit,
    is_variable_at, is_width, selected_width, side_by_side,
};

// How many some targets have, one above the greatest width where it is more.
fn targets_width(objects: &[ObjectInfo], targets: &[Selected]) -> u32
    ensures { result ≡ targets_width objects.now targets.now }
{
    targets.iter().fold(
        0,
        |sum, target| side_by_side(sum, selected_width(objects, target)),
    )
}

// The same of some drivers.
fn drivers_width(drivers: &[DriverInfo], chosen: &[DriverId]) -> u32
    ensures { result ≡ drivers_width drivers.now chosen.now }
{
    chosen
        .iter()
        .fold(0, |sum, x| side_by_side(sum, driver_width(drivers, *x)))
}

// Whether a target may stand beside so many expressions.
fn fits_target(objects: &[ObjectInfo], exprs: usize, target: &Selected) -> bool
    ensures { result ≡ fits_target objects.now exprs target.now }
{
    fits_selected(objects, exprs, Access::Assigned, target)
        && is_width(selected_width(objects, target))
}

// Whether all these targets may.
fn all_targets_fit(objects: &[ObjectInfo], exprs: usize, targets: &[Selected]) -> bool
    ensures { result ≡ list_all (fits_target objects.now exprs) targets.now }
{
    targets
        .iter()
        .all(|target| fits_target(objects, exprs, target))
}

// Whether these may be the left side of an assignment.
pub(crate) fn fits_targets(objects: &[ObjectInfo], exprs: usize, targets: &[Selected]) -> bool
    ensures { result ≡ fits_targets objects.now exprs targets.now }
{
    all_targets_fit(objects, exprs, targets) && is_width(targets_width(objects, targets))
}

// Whether all these drivers are there.
fn all_drivers_there(drivers: &[DriverInfo], chosen: &[DriverId]) -> bool
    ensures { result ≡ list_all (λ x. nat_lt x (length drivers.now)) chosen.now }
{
    chosen.iter().all(|x| (x.number() as usize) < drivers.len())
}

// Whether these drivers may be the left side of a continuous assignment.
pub(crate) fn fits_drivers(drivers: &[DriverInfo], chosen: &[DriverId]) -> bool
    ensures { result ≡ fits_drivers drivers.now chosen.now }
{
    all_drivers_there(drivers, chosen) && is_width(drivers_width(drivers, chosen))
}

// Whether a delay may stand in a design of this precision.
pub(crate) fn fits_delay(exprs: usize, precision: u8, delay: Delay) -> bool
    ensures { result ≡ fits_delay exprs precision delay }
{
    is_before(exprs, delay.amount) && is_unit(precision, delay.unit)
}

// Whether a call may write this at its begin.
fn fits_input(objects: &[ObjectInfo], exprs: usize, input: Input) -> bool
    ensures { result ≡ fits_input objects.now exprs input }
{
    is_variable_at(objects, input.variable) && is_before(exprs, input.value)
}

// Whether a call may write all these at its begin.
pub(crate) fn all_inputs_fit(objects: &[ObjectInfo], exprs: usize, inputs: &[Input]) -> bool
    ensures { result ≡ list_all (fits_input objects.now exprs) inputs.now }
{
    inputs
        .iter()
        .all(|input| fits_input(objects, exprs, *input))
}

// Whether a call may write this at its end.
fn fits_output(objects: &[ObjectInfo], exprs: usize, output: &Output) -> bool
    ensures { result ≡ fits_output objects.now exprs output.now }
{
    is_variable_at(objects, output.variable)
        && fits_targets(objects, exprs, output.targets.as_slice())
}

// Whether a call may write all these at its end.
pub(crate) fn all_outputs_fit(objects: &[ObjectInfo], exprs: usize, outputs: &[Output]) -> bool
    ensures { result ≡ list_all (fits_output objects.now exprs) outputs.now }
{
    outputs
        .iter()
        .all(|output| fits_output(objects, exprs, output))
}
