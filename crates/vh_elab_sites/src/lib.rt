//! What the items of a module declare, and what is to be made of them, in the order of the source
//! (IEEE 1364-2005, 12.7).
//!
//! The contract that the layers above use: [`add_plain`], [`add_pars`] and [`add_ports`] list the
//! sites that `specs/Sites.antt` gives an item, the parameters and the ports of a header:
//! parameters, ports, nets, variables, memories, events, continuous assignments, gates, instances,
//! `initial` and `always` constructs, named blocks, tasks, functions, their results and arguments,
//! each with the number of its object and its scope. `specs/Blocks.antt` says what generate blocks
//! are called.
//!
//! It stands on `vh_ast` for the trees, from which sites borrow, on `vh_elab_ports` for the ports of a
//! module, and on `vh_elab_mentions` for the names that make wires.
#![tactic(auto)]

mod decls;
mod entries;
mod items;
mod routines;
mod site;
mod stmts;

pub use entries::{
    BlockName, BlockText, Choice, block_bytes, block_items, block_place, is_lone, is_lone_if,
    name_place,
};
pub use items::{Around, add_item, add_pars, add_plain, add_ports};
pub use site::{
    CodeWord, Declared, Driven, GenvarAt, Listing, Site, Thing, VarType, add_site, is_object,
};
