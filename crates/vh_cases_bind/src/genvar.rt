//! The genvar of these cases.

use std::alloc::Global;
use vh_base::{NoMemory, ObjId, Sequence};
use vh_bind::Genvar;
use vh_logic::Vec4;

// The genvar `i` of the top module, which is 2.
pub(crate) fn two(alloc: Global) -> Result<Genvar, NoMemory> {
    Ok(Genvar {
        scope: ObjId::new(0),
        name: Sequence::from_slice(alloc, b"i")?,
        value: Vec4::from_planes(32, 2, 0, true),
    })
}
