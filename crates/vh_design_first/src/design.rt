ghost use Rattle.std.specs.Prelude.{◌≡◌, ◌<◌, ◌^◌, ◌++◌, length, IfOk, IsTrue, ◌↔◌};
ghost use Rattle.std.specs.List.{flat_map};
ghost use Rattle.vh_base.specs.First.{are_declared};
ghost use Rattle.vh_design.specs.Handed.{shape_of};
ghost use Rattle.vh_design.specs.Validity.{IsCounted};
ghost use Rattle.vh_design_first.specs.Designs.{digit_nodes, delays_in, calls_in, first_design};

use crate::codes::codes_of;
use crate::nodes::{digit_nodes, objects, push_calls, push_delays};
use std::alloc::Global;
use vh_base::{First, FirstCode, NoMemory, Sequence};
use vh_design::{Design, ExprNode, Parts, ShowCall};

// The expressions.
fn exprs_of(alloc: Global, blocks: &[Sequence<FirstCode>]) -> Result<Vec<ExprNode>, NoMemory>
    ensures { IfOk result (λ v. v.items
        ≡ digit_nodes ++ flat_map delays_in (flat_map (λ b. b) blocks.now)) }
{
    let mut exprs = digit_nodes(alloc)?;
    for block in blocks {
        push_delays(&mut exprs, block.as_slice())?;
    }
    Ok(exprs)
}

// The display calls.
fn shows_of(alloc: Global, blocks: &[Sequence<FirstCode>]) -> Result<Vec<ShowCall>, NoMemory>
    ensures { IfOk result (λ v. v.items ≡ flat_map calls_in (flat_map (λ b. b) blocks.now)) }
{
    let mut shows = Vec::new(alloc);
    for block in blocks {
        push_calls(alloc, &mut shows, block.as_slice())?;
    }
    Ok(shows)
}

// May so many elements have numbers?
fn have_numbers(count: usize) -> bool
    ensures { IsTrue result ↔ (count < 2 ^ 32) }
{
    u32::try_from(count).is_ok()
}

// All parts of the design.
fn parts_of(alloc: Global, first: &First) -> Result<Parts, NoMemory>
    ensures { IfOk result (λ p. shape_of p ≡ first_design first.now) }
{
    let blocks = first.blocks.as_slice();
    Ok(Parts {
        objects: objects(alloc, first.name.as_slice(), first.regs.as_slice())?,
        exprs: exprs_of(alloc, blocks)?,
        drivers: Vec::new(alloc),
        codes: codes_of(alloc, blocks)?,
        bodies: Vec::new(alloc),
        waits: Vec::new(alloc),
        shows: shows_of(alloc, blocks)?,
        stmts: Vec::new(alloc),
        precision: 0,
    })
}

/// The design of registers and initial constructs.
pub fn design_of(alloc: Global, first: &First) -> Result<Design, NoMemory>
    requires { IsTrue (are_declared first.now) }
    ensures { IfOk result (λ d. d ≡ first_design first.now) }
{
    let parts = parts_of(alloc, first)?;
    let objects = have_numbers(parts.objects.len());
    let exprs = have_numbers(parts.exprs.len());
    let codes = have_numbers(parts.codes.len());
    let shows = have_numbers(parts.shows.len());
    if !(objects && exprs && codes && shows) {
        return Err(NoMemory);
    }
    let Some(design) = Design::build(parts) else {
        unreachable!();
    };
    Ok(design)
}
