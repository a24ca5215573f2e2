use vh_base::Object;
use vh_logic::Vec4;

/// In which layer an object was written: as an assignment or a driver does, or by a `force` or a
/// `release` (IEEE 1364-2005, 9.3).
#[derive(Clone, Copy, Debug, PartialEq, Eq)]
pub enum Layer {
    Plain,
    Force,
    Release,
}

/// A change of the value that an object shows.
#[derive(Clone, Copy)]
pub struct Change {
    pub object: Object,
    pub old: Vec4,
    pub new: Vec4,
}

/// What was done to an object; no change where it shows what it showed before.
#[derive(Clone, Copy)]
pub struct Made {
    pub object: Object,
    pub change: Option<Change>,
    pub layer: Layer,
}
