//! What is distinct in what is told: the counts of subscriptions that ask for each forest once.
//! The entries of a notice come in, with the install number of their subscription; what of them
//! leaves 0 or reaches it, as that subscription's counts stand, goes out. The changes of the counts
//! wait, with the room that they need, until the command that told them stands, or is given up.
//!
//! A subscription whose counts are not here has none yet: that is what one begins with.
#![tactic(auto)]

mod kept;
mod table;

pub use table::DistinctTable;
