//! The groups over one file: who reads it, as selections by slot and constant or interval, and as
//! joins.
//! The number of each reader comes in with how it reads; the file comes in, and of its rows of a
//! change go out parcels for the selections by constants that take them, and for each slot with
//! intervals those that some interval holds, each once. A constant is found by its hash, and no
//! group stands without a constant.
#![tactic(auto)]

mod equals;
mod laws;
mod ranges;
mod readers;

pub use laws::selections_get_what_they_take;
pub use ranges::HeldRows;
pub use readers::Readers;
