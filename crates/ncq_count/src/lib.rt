//! How many files of a shelf each group has: a scan or a join is one by itself, and the selections
//! of one file at one slot are one, equalities and ranges apart.
//! A file that has come to the shelf is counted in, and one that is to go is counted out. The lines
//! of the groups are made of the counts, without a look at the files of a group.
#![tactic(auto)]

mod groups;
mod key;
mod lines;

pub use groups::Groups;
