use vh_app::Point;
use vh_base::CbNumber;

/// Who gives an order.
#[derive(Clone, Copy, Debug, PartialEq, Eq)]
pub enum Who {
    /// A callback, by its number.
    Callback(CbNumber),
    /// The startup of a script, by its number from 1.
    Startup(u32),
}

/// What a callback calls: a procedure of a script. It is found once, where the callback is
/// registered.
#[derive(Clone, Copy)]
pub struct Body {
    /// The script's number, from 0.
    pub script: usize,
    /// Where the procedure begins.
    pub start: Point,
}
