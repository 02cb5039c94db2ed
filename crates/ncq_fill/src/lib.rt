//! The first rows of a file.
//! An expression comes in with the files of its inputs; its rows over the sources as they stand go
//! out. Those of a scan come from the elements, all others from the files of its inputs: a new
//! constant takes those rows alone that have it. A selection by an interval has no rows of its own:
//! the shelf gives it what it lacks.
#![tactic(auto)]

mod constant;
mod copies;
mod fill;
mod numbers;
mod scan;
mod sides;

pub use fill::first_rows;
