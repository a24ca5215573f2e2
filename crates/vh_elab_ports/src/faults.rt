ghost use Rattle.std.specs.Prelude.{◌≡◌, map};
ghost use Rattle.vh_bind_least.specs.Least.{least_of};
ghost use Rattle.vh_elab_ports.specs.Ports as spec;
ghost use Rattle.vh_elab_ports.specs.Views.{directed_seen, ids_seen};

use crate::directed::Directed;
use vh_ast::Id;
use vh_base::DesignFault;
use vh_bind_least::{Fault, fault_if, least};
use vh_elab_index::Index;

// Whether the first of a name stands at this place.
fn is_first(index: &Index, number: usize, name: &[u8]) -> bool
    ensures { result ≡ spec.is_first index.now number name.now }
{
    match index.position(name) {
        None => false,
        Some(place) => place as usize == number,
    }
}

// Names that come again, at the second one.
pub(crate) fn again_ids(index: &Index, ids: &[&Id], so_far: Option<Fault>) -> Option<Fault>
    ensures { result ≡ spec.again_from index.now 0 (ids_seen ids.now) so_far }
{
    let mut fault = so_far;
    for (number, id) in ids.iter().enumerate() {
        let again = !is_first(index, number, id.name.as_slice());
        fault = least(fault, fault_if(again, DesignFault::N2, id.place));
    }
    fault
}

// Second directions.
pub(crate) fn again_directed(
    index: &Index,
    all: &[Directed],
    so_far: Option<Fault>,
) -> Option<Fault>
    ensures { result ≡ spec.again_from index.now 0 (map (λ d. d.id) (map directed_seen all.now))
        so_far }
{
    let mut fault = so_far;
    for (number, directed) in all.iter().enumerate() {
        let id = directed.id;
        let again = !is_first(index, number, id.name.as_slice());
        fault = least(fault, fault_if(again, DesignFault::N2, id.place));
    }
    fault
}

fn is_no_port(header: &Index, id: &Id) -> Option<Fault>
    ensures { result ≡ spec.is_not_among header.now id.now }
{
    let is_none = header.position(id.name.as_slice()).is_none();
    fault_if(is_none, DesignFault::N1, id.place)
}

// Directions of what isn't in the header.
pub(crate) fn no_ports_in(header: &Index, all: &[Directed], so_far: Option<Fault>) -> Option<Fault>
    ensures { result ≡ least_of (λ d. spec.is_not_among header.now d.id)
        (map directed_seen all.now) so_far }
{
    let mut fault = so_far;
    for directed in all {
        fault = least(fault, is_no_port(header, directed.id));
    }
    fault
}
