//! Where a script comes from and where the output goes: a `Source` and a `Sink`, in memory and over
//! std's `Read` and `Write`, and a source that gives one line again and again.
//! Bytes, a reader or a writer come in; calls that move some bytes at a time go out, each of which
//! may fail. A call fails only where its count of faults rose. Counts never fall, and stand at 2^64
//! - 1. Where the bytes left or held are told, a failed call leaves them as they were.
#![tactic(auto)]

mod memory;
mod piece;
mod plain;
mod repeat;
mod stream;
mod traits;

pub use memory::{Calls, MemorySink, MemorySource, memory_sink, memory_source};
pub use plain::{PlainSink, PlainSource, plain_sink, plain_source};
pub use repeat::{RepeatSource, repeat_source};
pub use stream::{StdSink, StdSource};
pub use traits::{Failed, Sink, Source};
