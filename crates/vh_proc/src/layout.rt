ghost use Rattle.std.specs.Prelude.{◌≡◌, ◌<◌, Some, IfSome, IfOk, OnOk, true, length, slice_get};
ghost use Rattle.vh_design_code.specs.declared.code.Code.{Code};
ghost use Rattle.vh_design.specs.Validity.{body_at};
ghost use Rattle.vh_design_nodes.specs.Fits.{has_body};
ghost use Rattle.vh_proc.specs.declared.layout.Owner.TheVariants.{Process, Routine};
ghost use Rattle.vh_proc.specs.Homes.{IsOwner, is_same, Says, SaysAll, Grow, AreHomes};

use std::alloc::Global;
use std::collections::BTreeMap;
use std::marker::Model;
use vh_base::{NoMemory, ObjId, ProcId};
use vh_design::{Block, Design, Detail};

// Whose code it is: a process's, or the body of a task or function.
#[derive(Clone, Copy)]
pub(crate) enum Owner {
    Process(u64),
    Routine(u32),
}

impl Owner {
    // Are they the same?
    fn is_same(&self, other: &Owner) -> bool
        ensures { result ≡ is_same self.now other.now }
    {
        match (self, other) {
            (Owner::Process(n), Owner::Process(k)) => n == k,
            (Owner::Routine(s), Owner::Routine(r)) => s == r,
            _ => false,
        }
    }
}

// Where the blocks of an object are: in one code alone, or in several.
#[derive(Clone, Copy)]
pub(crate) enum Home {
    Only(Owner),
    Several,
}

// Those of each object that has some.
type Homes = BTreeMap<u32, Home, Global>;

/// A design that knows for each named block whose code it is in. Contracts see the design.
#[derive(Drop)]
pub struct Layout {
    design: Design,
    homes: Homes,
}

impl Model for Layout {
    ghost use Rattle.vh_design.specs.Shape.{Shape};
    ghost use Rattle.vh_proc.specs.Homes.{AreHomes};

    ghost Value = { Shape };

    ghost view = { λ l. l.design };

    ghost invariant = { λ l. AreHomes l.design l.homes.entries };
}

// Notes a block of an object in a code.
fn note(homes: &mut Homes, object: ObjId, owner: &Owner) -> Result<(), NoMemory>
    ensures noted { OnOk result (Says homes.new.entries owner.now object) }
    ensures kept { OnOk result (Grow homes.old.entries homes.new.entries) }
{
    let is_only = match homes.get(&object.number()) {
        None => true,
        Some(Home::Only(it)) => it.is_same(owner),
        Some(Home::Several) => false,
    };
    let home = if is_only {
        Home::Only(*owner)
    } else {
        Home::Several
    };
    homes.insert(object.number(), home)?;
    Ok(())
}

// Notes the blocks of a code.
fn note_blocks(homes: &mut Homes, blocks: &[Block], owner: &Owner) -> Result<(), NoMemory>
    ensures noted { OnOk result (SaysAll homes.new.entries owner.now blocks.now) }
    ensures kept { OnOk result (Grow homes.old.entries homes.new.entries) }
{
    for block in blocks {
        note(homes, block.object, owner)?;
    }
    Ok(())
}

// Notes those of all processes.
fn note_processes(homes: &mut Homes, d: &Design) -> Result<(), NoMemory>
    ensures noted { OnOk result ((n : _) (c : Code) → slice_get d.now.codes n ≡ Some c
        → SaysAll homes.new.entries (Process n) c.blocks) }
    ensures kept { OnOk result (Grow homes.old.entries homes.new.entries) }
{
    for k in 0..d.counts().processes {
        let process = u64::from(k);
        let code = d.code(ProcId::new(process));
        note_blocks(homes, code.blocks.as_slice(), &Owner::Process(process))?;
    }
    Ok(())
}

// Notes a task or function, and the blocks of its body.
fn note_routine(homes: &mut Homes, d: &Design, routine: ObjId) -> Result<(), NoMemory>
    requires { routine < length d.now.objects }
    ensures own { OnOk result (has_body d.now.objects routine ≡ true
        → Says homes.new.entries (Routine routine) routine) }
    ensures noted { OnOk result ((c : Code) → body_at d.now routine ≡ Some c
        → SaysAll homes.new.entries (Routine routine) c.blocks) }
    ensures kept { OnOk result (Grow homes.old.entries homes.new.entries) }
{
    let Detail::Routine(_) = d.object(routine).detail else {
        return Ok(());
    };
    let owner = Owner::Routine(routine.number());
    note(homes, routine, &owner)?;
    note_blocks(homes, d.body(routine).blocks.as_slice(), &owner)
}

// Notes those of all tasks and functions.
fn note_routines(homes: &mut Homes, d: &Design) -> Result<(), NoMemory>
    ensures own { OnOk result ((r : _) → has_body d.now.objects r ≡ true
        → Says homes.new.entries (Routine r) r) }
    ensures noted { OnOk result ((r : _) (c : Code) → body_at d.now r ≡ Some c
        → SaysAll homes.new.entries (Routine r) c.blocks) }
    ensures kept { OnOk result (Grow homes.old.entries homes.new.entries) }
{
    for o in 0..d.counts().objects {
        note_routine(homes, d, ObjId::new(o))?;
    }
    Ok(())
}

impl Layout {
    /// The layout of a design. It goes once over the blocks of all codes.
    pub fn new(alloc: Global, design: Design) -> Result<Layout, NoMemory>
        ensures { IfOk result (λ l. l ≡ design) }
    {
        let mut homes = BTreeMap::new(alloc);
        note_processes(&mut homes, &design)?;
        note_routines(&mut homes, &design)?;
        Ok(Layout { design, homes })
    }

    /// The design.
    pub fn design(&self) -> &Design
        ensures { result.now ≡ self.now }
    {
        &self.design
    }

    // In whose code alone the blocks of an object are.
    pub(crate) fn owner(&self, target: ObjId) -> Option<Owner>
        ensures { IfSome result (IsOwner self.now target) }
    {
        match self.homes.get(&target.number()) {
            Some(Home::Only(owner)) => Some(*owner),
            _ => None,
        }
    }
}
