//! The engine: commands come in one by one, and out goes the answer to each.
//!
//! What is answered is defined by the history of the accepted commands alone: the sources, the
//! clock, the live subscriptions, when each fires, and what its answer over the whole sources
//! gained and lost since its latest firing. The engine stands for that history (`specs/Stands`):
//! its store has the sources, its files are those of the subexpressions of the live queries, one
//! each, with the rows that these had at each change, and each subscription has the file of its
//! plan. A firing tells what the rows of that file since its mark add up to, and a report what the
//! live queries share. The rows that a command makes are at most its work (`specs/Works`). Where a
//! command is refused, or given up for want of memory, the engine stands for that history still.
#![tactic(auto)]

mod compaction;
mod engine;
mod expiry;
mod firing;
mod handed;
mod latest;
mod laws;
mod span;
mod telling;
mod who;

pub use engine::{Applied, ApplyError, Engine};
pub use laws::{batches_are_deltas, closures_are_the_parts, marks_follow, subscribers_are_apart};
pub use span::{Span, Spans};
