//! What an operator is told, and a script to try.
//! A summary of an engine comes in, and its report goes out; the counts of a load come in, and its
//! tally goes out; a number of subscribers comes in, and the commands of a load go out one by one.
#![tactic(auto)]

mod laws;
mod load;
mod report;
mod tally;
mod texts;

pub use laws::{lines_are_one, loads_are_short};
pub use load::generate;
pub use report::{Summary, write_report};
pub use tally::{Tally, write_tally};
