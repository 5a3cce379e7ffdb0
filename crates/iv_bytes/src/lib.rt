//! Sinks that take bytes and sources that give them, buffers between, and both over memory and over std's writers and readers.
#![tactic(auto)]

mod byte_queue;
mod memory;
mod sink;
mod source;
mod standard;

pub use byte_queue::ByteQueue;
pub use memory::{MemSink, MemSource};
pub use sink::{Buffered, Flush, Sink, WriteFault, put_all, put_pieces};
pub use source::{ReadFault, Source};
pub use standard::{StdSink, StdSource};
