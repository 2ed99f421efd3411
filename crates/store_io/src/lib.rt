//! The outside: shelves of named files, and sinks that take bytes. Each counts its faults.
#![tactic(auto)]

mod failures;
mod mem_shelf;
mod mem_sink;
mod real_shelf;
mod real_sink;
mod shelf;
mod sink;

pub use mem_shelf::MemShelf;
pub use mem_sink::MemSink;
pub use real_shelf::RealShelf;
pub use real_sink::RealSink;
pub use shelf::{Shelf, ShelfError, Taken};
pub use sink::{Sink, SinkFailed};
