ghost use Rattle.std.specs.Prelude.{◌≡◌, IfOk};
ghost use Rattle.vh_lower_flow.specs.Trees.{sized};
ghost use Rattle.vh_lower_flow.specs.Views.{flow_tree, form_tree};

use crate::sizes::instructions_in;
use sqlite_items::{Boxed, Items};
use vh_base::{ExprId, NoMemory, ObjId};
use vh_design_code::{CaseKind, Operation};
use vh_design_nodes::ExprIds;

/// The statement that an instruction belongs to, by its number, and whether it is the first instruction of an
/// execution of it.
#[derive(Clone, Copy)]
pub struct Origin {
    pub stmt: Option<u32>,
    pub first: bool,
}

/// An instruction that goes on behind it.
#[derive(Drop)]
pub struct Step {
    pub operation: Operation,
    pub origin: Origin,
}

/// An instruction that goes on in one of two ways.
#[derive(Clone, Copy)]
pub enum Gate {
    /// The test of an `if`, a `for` or a `while`.
    Test(ExprId),
    /// The first turn of a `repeat`, which reads the count.
    Repeat(ExprId),
    /// Each further one.
    Again,
    /// A turn of a `forever`: it goes on in one way.
    Turn,
}

/// What a `case` compares, and how (IEEE 1364-2005, 9.5).
#[derive(Clone, Copy)]
pub struct CaseHead {
    pub kind: CaseKind,
    pub subject: ExprId,
    /// The greatest width of the subject and all values.
    pub width: u32,
    /// Whether the subject and all values are signed.
    pub signed: bool,
}

/// A statement of a `case` with its values, over trees `F`.
#[derive(Drop)]
pub struct CaseItem<F> {
    pub matched: ExprIds,
    pub body: F,
}

/// What a bound statement is, over trees `F`.
#[derive(Drop)]
pub enum FlowForm<F> {
    /// One instruction.
    Step(Step),
    /// One after another.
    Row(Items<F>),
    /// An instruction, and behind it one of two.
    Choice {
        gate: Gate,
        origin: Origin,
        holds: Boxed<F>,
        fails: Boxed<F>,
    },
    /// A body with an instruction behind it, which goes on at the body again, or behind both.
    Turns {
        body: Boxed<F>,
        gate: Gate,
        origin: Origin,
    },
    /// A `case`: items in source order, and what is done where no value fits.
    Case {
        head: CaseHead,
        origin: Origin,
        items: Items<CaseItem<F>>,
        default: Boxed<F>,
    },
    /// A named `begin` or `fork`.
    Block {
        object: ObjId,
        body: Boxed<F>,
    },
    /// A `fork`, with its branches in order.
    Fork {
        origin: Origin,
        branches: Items<F>,
    },
}

/// A bound statement. It is as deep as the statement.
#[derive(Drop)]
pub struct Flow {
    // How many instructions its code has.
    pub(crate) size: u32,
    pub(crate) form: FlowForm<Flow>,
}

impl Flow {
    /// A statement of this form. Want of memory is answered too where its instructions can't be numbered.
    pub fn new(form: FlowForm<Flow>) -> Result<Flow, NoMemory>
        ensures { IfOk result (λ f. flow_tree f ≡ sized (form_tree form)) }
    {
        let size = instructions_in(&form)?;
        Ok(Flow { size, form })
    }
}
