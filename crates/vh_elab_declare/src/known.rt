ghost use Rattle.std.specs.Prelude.{◌≡◌};
ghost use Rattle.vh_elab_declare.specs.Constants.{nothing_known};
ghost use Rattle.vh_elab_declare.specs.Views.{known_seen};

use crate::genvars::Genvars;
use crate::given::Given;
use std::alloc::Global;
use vh_bind_scope::Names;
use vh_design_nodes::{ExprNode, ObjectInfo};

/// What holds for all that stands in an instance: the number of its object, the name of the top,
/// its time unit and its
/// precision, and what its parameters are given.
#[derive(Clone, Copy)]
pub struct Home<'a, 'b> {
    pub number: u32,
    pub top_name: &'a [u8],
    pub unit: u8,
    pub precision: u8,
    pub given: &'b Given<'a>,
}

/// The names and objects so far, the number of bodies, and the values of parameters, which are
/// expressions.
#[derive(Drop)]
pub struct Known {
    pub names: Names,
    pub objects: Vec<ObjectInfo>,
    pub bodies: u32,
    pub exprs: Vec<ExprNode>,
    pub genvars: Genvars,
}

impl Known {
    /// Nothing.
    pub fn new(alloc: Global) -> Known
        ensures { known_seen result ≡ nothing_known }
    {
        Known {
            names: Names::new(alloc),
            objects: Vec::new(alloc),
            bodies: 0,
            exprs: Vec::new(alloc),
            genvars: Genvars::new(alloc),
        }
    }
}
