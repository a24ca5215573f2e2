ghost use Rattle.std.specs.Prelude.{◌≡◌, ◌<◌, length, slice_get, IfOk, IfSome, OnOk, Some};
ghost use Rattle.vh_objects.specs.Relations.{children};
ghost use Rattle.vh_objects.specs.Views.{AreChildren, AreEmpty, Adds, position_of};

use std::alloc::Global;
use std::marker::Model;
use vh_base::{NoMemory, ObjId};
use vh_design::Design;

/// The objects directly inside each object of a design, at its number. It is made once for a design, and so
/// a list of what stands in one scope takes no walk over the others.
#[derive(Drop)]
pub struct Children {
    lists: Vec<Vec<ObjId>>,
}

impl Model for Children {
    ghost use Rattle.std.specs.Prelude.{ℕ, List, map};

    ghost Value = { List (List ℕ) };

    ghost view = { λ c. map (λ v. v.items) c.lists.items };
}

// Puts a number behind a list.
fn add(lists: &mut Vec<Vec<ObjId>>, position: usize, o: ObjId) -> Result<(), NoMemory>
    requires { position < length lists.old.items }
    ensures { OnOk result (Adds position o lists.old.items lists.new.items) }
{
    lists[position].push(o)?;
    Ok(())
}

// So many empty lists.
fn empty_lists(alloc: Global, n: usize) -> Result<Vec<Vec<ObjId>>, NoMemory>
    ensures { IfOk result (λ lists. AreEmpty n lists.items) }
{
    let mut lists = Vec::new(alloc);
    for _ in 0..n {
        lists.push(Vec::new(alloc))?;
    }
    Ok(lists)
}

// The position of a scope's list: what stands in no scope comes first.
fn position_of(scope: Option<ObjId>) -> usize
    ensures { result ≡ position_of scope }
{
    match scope {
        None => 0,
        Some(s) => s.number() as usize + 1,
    }
}

impl Children {
    /// Of a design: a step an object.
    pub fn new(alloc: Global, d: &Design) -> Result<Children, NoMemory>
        ensures { IfOk result (λ c. AreChildren (length d.now.objects) d.now.objects c) }
    {
        let n = d.counts().objects;
        let mut lists = empty_lists(alloc, n as usize + 1)?;
        for k in 0..n {
            let o = ObjId::new(k);
            add(&mut lists, position_of(d.object(o).parent), o)?;
        }
        Ok(Children { lists })
    }

    /// The objects directly inside a scope, or in none.
    pub(crate) fn inside(&self, d: &Design, scope: Option<ObjId>) -> &[ObjId]
        requires made { AreChildren (length d.now.objects) d.now.objects self.now }
        requires there { IfSome scope (λ s. s < length d.now.objects) }
        ensures { result.now ≡ children d.now.objects scope }
    {
        &self.lists[position_of(scope)]
    }
}
