//! A script, from bytes to what each command says.
//! Bytes come in piece by piece; out go the commands in their order, each as soon as its last line
//! is whole: what it says, or the first refusal of reading it. A refusal goes out as its line.
//! However the bytes are cut into pieces, the commands are those of the whole script, and none is
//! lost where memory runs out. Nothing is kept but the lines of a command that is not yet given,
//! and the front of a line that is not whole.
#![tactic(auto)]

mod batch;
mod command;
mod command_lines;
mod command_reader;
mod form;
mod laws;
mod line;
mod refusal;
mod script_reader;
#[cfg(test)]
mod tests;
mod word;

pub use command::Command;
pub use laws::batches_are_exact;
pub use refusal::{Refusal, write_refused};
pub use script_reader::{Next, ScriptReader};
