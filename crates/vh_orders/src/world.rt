ghost use Rattle.std.specs.Prelude.{◌≡◌, Ok, Err};
ghost use Rattle.vh_design_nodes.specs.Kinds.{is_scope};
ghost use Rattle.vh_orders.specs.Names.{name_of, is_kind, may_watch};
ghost use Rattle.vh_orders.specs.Views.{world_of};

use crate::look_up::Names;
use crate::names::may_watch;
use crate::phase::Phase;
use crate::who::Body;
use vh_app::{Script, Vars};
use vh_base::{Code, ObjId, Reason};
use vh_callbacks::Registry;
use vh_dispatch::Dispatch;
use vh_handles::Handles;
use vh_proc_simulation::Simulation;

/// What the orders of applications read and change, which contracts see by `world_of`.
#[derive(Drop)]
pub struct World {
    /// The design as it is simulated: its values, the event queue and the present time.
    pub simulation: Simulation,
    /// The design's objects, by number.
    pub names: Names,
    pub scripts: Vec<Script>,
    /// The variables of each script.
    pub vars: Vec<Vars>,
    pub handles: Handles,
    pub registry: Registry<Body>,
    /// The frames that stand, over the registry's sets.
    pub dispatch: Dispatch,
    /// The error of the last order.
    pub last_error: Option<Code>,
    pub phase: Phase,
}

impl World {
    /// The full name of an object; no bytes where the design has no such object.
    pub fn object_name(&self, id: ObjId) -> &[u8]
        ensures { result.now ≡ name_of id (world_of self.now).names }
    {
        match self.names.get(id) {
            Some(named) => named.name.as_slice(),
            None => &[],
        }
    }

    // Is an object a scope?
    pub(crate) fn is_scope(&self, id: ObjId) -> bool
        ensures { result ≡ is_kind is_scope id (world_of self.now).names }
    {
        match self.names.get(id) {
            Some(named) => named.kind.is_scope(),
            None => false,
        }
    }

    // May a reason watch an object?
    pub(crate) fn may_watch(&self, reason: Reason, id: ObjId) -> bool
        ensures { result ≡ is_kind (may_watch reason) id (world_of self.now).names }
    {
        match self.names.get(id) {
            Some(named) => may_watch(reason, named.kind),
            None => false,
        }
    }
}
