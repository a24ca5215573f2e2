use crate::item::Item;
use crate::port::{Par, Ports};
use crate::token::Id;
use sqlite_items::Items;
use vh_base::Place;
use vh_lex::Setting;

/// `module = "module" ID [ "#" "(" par { "," par } ")" ] [ "(" [ ports ] ")" ] ";" { item }
/// "endmodule"` (IEEE 1364-2005, 12.1), with the unit, the precision and the default net type that
/// the directives before it set.
#[derive(Drop)]
pub struct Module {
    pub place: Place,
    pub setting: Setting,
    pub id: Id,
    pub pars: Items<Par>,
    /// None for `()` too.
    pub ports: Option<Ports>,
    pub items: Items<Item>,
}

/// `source = { module }`
#[derive(Drop)]
pub struct Source {
    pub modules: Items<Module>,
}
