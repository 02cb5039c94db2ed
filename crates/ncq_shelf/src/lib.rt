//! The files that share their rows: each expression has one file at most, under a number.
//! Expressions come in with the numbers of their inputs' files; files are found by expression, by
//! source and by what they read, each without a look at the others, and a change goes on from a
//! file to those that read it. A file knows the files that it reads. Where joins compare the rows
//! of a file, each of its rows is noted by its atom there, so that a change finds the joins that
//! its rows may meet without a look at the others.
#![tactic(auto)]

mod admit;
mod count;
mod cut;
mod enroll;
mod file;
mod group;
mod inputs;
mod install;
mod keyed;
mod keys;
mod laws;
mod met;
mod ranged;
mod rows;
mod scans;
mod shared;
mod shelf;

pub use inputs::Inputs;
pub use laws::held_rows_are_the_takers;
pub use shelf::Shelf;
