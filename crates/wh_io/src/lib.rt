//! The outside, as the program sees it: a shelf of named files to read from, and a sink to write
//! to. Both may fail, and both count their faults, so that a contract can say why a call failed.
#![tactic(auto)]

mod file_shelf;
mod memory_shelf;
mod memory_sink;
mod next;
mod pieces;
mod read;
mod shelf;
mod sink;
mod std_sink;
mod write;

pub use file_shelf::FileShelf;
pub use memory_shelf::MemoryShelf;
pub use memory_sink::MemorySink;
pub use next::{Ended, Next};
pub use pieces::Pieces;
pub use read::{ReadFault, read_whole};
pub use shelf::{Failed, Shelf};
pub use sink::Sink;
pub use std_sink::StdSink;
pub use write::write_all_of;
