//! The top call: words say what to do; a script comes in from a source, and the answer to each of
//! its commands, or what one subscriber is told, goes out to a sink; or the tally of a load does.
//! `run` carries the promise of the whole program as its contract: the bytes written are the
//! defined output of the script, in the language of the engine's handlers.
//! Between two turns the engine stands for the history of the commands that were answered.
#![tactic(auto)]

mod answer;
mod laws;
mod load;
mod session;
mod twice;

pub use laws::{a_sure_sink_is_enough, clocks_never_fall, nothing_but_memory_ends_it};
pub use session::{Status, exit_code, run};
