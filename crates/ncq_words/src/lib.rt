//! What the words of the command line ask for.
//! The words after the program's name come in. The form that they fit goes out: `run`,
//! `alone <name>` or `load <n>`. `Usage` comes exactly where they fit none; the one other answer
//! is that memory ran out, which a body could still give at any words.
#![tactic(auto)]

mod arguments;
mod form;
mod read;

pub use form::Form;
pub use read::{WordsError, read_words};
