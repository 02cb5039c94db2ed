//! Constants of a group and the files of their selections.
//! A constant or an interval comes in with the number of its file; for a value the files of the
//! constants that it meets go out. No constant stands twice.
#![tactic(auto)]

mod equal;
mod hull;
mod range;
#[cfg(test)]
mod tests;
mod tree;

pub use equal::EqTable;
pub use range::{Files, RangeTable};
