//! The live subscriptions and the files of their plans.
//! Subscriptions come in one by one, each with the plan of its query, and go out by their install
//! numbers. Subscriptions of one plan share its file: each subscription has the file of its plan,
//! and each file is used by exactly its subscriptions. Which files are worn, so that a compaction
//! is worth its while, and no timer holds it back, is known without a look at the others. Files of
//! few rows wait until it is worth its while for all of them together.
#![tactic(auto)]

mod live_table;
mod waiting;
mod wear;

pub use live_table::LiveTable;
pub use wear::LOSSES;
