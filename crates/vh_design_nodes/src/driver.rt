use vh_base::ObjId;

/// A driver of a net, of `width` digits. The first `below` of them, from its lowest on, lie below
/// the net's lowest digit and drive nothing; the next drives the net's digit at `low`, of which 0
/// is the lowest, and so on. Digits past the net's highest drive nothing either.
#[derive(Clone, Copy, Debug, PartialEq, Eq)]
pub struct DriverInfo {
    pub object: ObjId,
    pub low: u32,
    pub below: u32,
    pub width: u32,
}
