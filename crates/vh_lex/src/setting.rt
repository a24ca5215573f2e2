/// The type of the nets that a name declares by standing where a net is wanted, as
/// `` `default_nettype `` sets it (IEEE 1364-2005, 19.2).
#[derive(Clone, Copy, Debug, PartialEq, Eq)]
pub enum DefaultNet {
    /// Such a name is a wire.
    Wire,
    /// `none`: such a name is an error.
    Nothing,
}

/// What the directives before a module set for it: the time unit and the precision, from 0 for
/// 1 fs to 17 for 100 s, and the default net type (IEEE 1364-2005, 19.2 and 19.8).
#[derive(Clone, Copy, Debug, PartialEq, Eq)]
pub struct Setting {
    pub unit: u8,
    pub precision: u8,
    pub default_net: DefaultNet,
}
