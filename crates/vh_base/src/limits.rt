/// How many handles are live at most.
pub const MOST_HANDLES: usize = 65_536;

/// How many callbacks are live at most.
pub const MOST_CALLBACKS: usize = 65_536;

/// How many entries stand in the event queue at most.
pub const MOST_ENTRIES: usize = 1_048_576;

/// How many frames of callbacks stand at most.
pub const MOST_FRAMES: usize = 64;

/// How many numbers of one kind are given at most: 2^63.
pub const MOST_NUMBERS: u64 = 9_223_372_036_854_775_808;

/// The greatest time, in units of the simulation's precision: 2^63-1.
pub const MOST_TIME: u64 = 9_223_372_036_854_775_807;
