use vh_base::{Sequence, ShowId};
use vh_logic::Vec4;

/// Values of expressions, which contracts see as a list.
pub type Values = Sequence<Vec4>;

/// The monitor (IEEE 1364-2005, 17.1.3).
#[derive(Drop)]
pub struct Monitor {
    /// The `$monitor` whose list it shows, where one is on.
    pub call: Option<ShowId>,
    /// Whether the list hasn't been picked yet.
    pub is_new: bool,
    /// Whether an entry of it stands in the queue.
    pub stands: bool,
    /// The values of its arguments without `$time` at its last pick.
    pub values: Values,
}
