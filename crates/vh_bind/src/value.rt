ghost use Rattle.std.specs.Prelude.{◌≡◌, ◌<◌, ◌≤◌, [], length, IfOk};
ghost use Rattle.vh_logic.specs.declared.vector.TheConstants.{MAX_WIDTH};
ghost use Rattle.vh_bind.specs.Nodes.{AreSound};
ghost use Rattle.vh_bind.specs.Constants.{bare, value_at};

use std::alloc::Global;
use vh_base::{ExprId, NoMemory};
use vh_design::{Design, ExprNode, Parts};
use vh_eval::eval;
use vh_logic::Vec4;
use vh_store::Store;

// The design of some nodes alone.
fn bare(alloc: Global, nodes: Vec<ExprNode>) -> Design
    requires { AreSound [] 0 nodes.items }
    ensures { result ≡ bare nodes.items }
{
    let parts = Parts {
        objects: Vec::new(alloc),
        exprs: nodes,
        drivers: Vec::new(alloc),
        codes: Vec::new(alloc),
        bodies: Vec::new(alloc),
        waits: Vec::new(alloc),
        shows: Vec::new(alloc),
        stmts: Vec::new(alloc),
        precision: 0,
    };
    match Design::build(parts) {
        Some(design) => design,
        None => unreachable!(),
    }
}

// The value of an expression of some nodes, in its own width or a greater one.
pub(crate) fn value_at(
    alloc: Global,
    nodes: Vec<ExprNode>,
    e: ExprId,
    least: u32,
) -> Result<Vec4, NoMemory>
    requires sound { AreSound [] 0 nodes.items }
    requires known { e < length nodes.items }
    requires small { least ≤ MAX_WIDTH }
    ensures { IfOk result (λ v. v ≡ value_at least nodes.items e) }
{
    let design = bare(alloc, nodes);
    let store = Store::new(alloc, &design)?;
    let width = design.width(e).max(least);
    Ok(eval(&design, &store, e, width, design.is_signed(e)))
}
