//! What every layer of `vhost` shares: the outside as two traits, and plain types.
//!
//! The one contract used above: [`Files`] and [`Sink`] say what a read and a write
//! do to what the source holds, to what the sink was told, and to their counts of
//! faults. [`MemoryFiles`] and [`MemorySink`] are the two kept in memory, exact, with
//! failing calls by number; the adapters over the real file system and standard
//! output stand with the program. Stands on std and thiserror.
#![tactic(auto)]

mod boxed;
mod byte_class;
mod faults;
mod first;
mod format;
mod limits;
mod memory_files;
mod memory_sink;
mod native;
mod numbers;
mod orders;
mod outside;
mod place;
mod sequence;
mod short;
mod steps;
mod words;

pub use boxed::Boxed;
pub use byte_class::{is_digit, is_name_start, is_space};
pub use faults::{AppFault, Cause, DesignFault, Fault, NoMemory};
pub use first::{First, FirstBit, FirstBlocks, FirstCode, FirstNames};
pub use format::Format;
pub use limits::{
    MOST_CALLBACKS, MOST_ENTRIES, MOST_FRAMES, MOST_HANDLES, MOST_NUMBERS, MOST_TIME,
};
pub use memory_files::MemoryFiles;
pub use memory_sink::MemorySink;
pub use native::Native;
pub use numbers::{
    CbNumber, DriverId, ExprId, HandleNo, Id, ObjId, ProcId, Serial, ShowId, WaitId,
};
pub use orders::{Answer, BodyName, Object, Order, ProcName, Seen, SystfEntry};
pub use outside::{FetchFault, Files, Sink, SinkFault};
pub use place::Place;
pub use sequence::{Bytes, Sequence};
pub use short::Short;
pub use steps::Steps;
pub use words::{Code, Mode, Promise, Property, Reason, Relation, SystfKind};
