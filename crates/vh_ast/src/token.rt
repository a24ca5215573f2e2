use sqlite_items::Items;
use vh_base::Place;
use vh_base_shared::SharedBytes;

/// `ID` or `SYS`: a name or a system name (IEEE 1364-2005, 3.7).
#[derive(Drop)]
pub struct Id {
    pub place: Place,
    pub name: SharedBytes,
}

/// `ids = ID { "," ID }`
pub type Ids = Items<Id>;
