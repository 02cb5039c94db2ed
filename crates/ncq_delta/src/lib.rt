//! The signed rows of a join.
//! Two files come in with the pairs of slots that the join compares; what a change adds to the join
//! goes out, or the whole join. Each row is joined with those rows of the other side that have its
//! atoms, which the file finds; the two sides are never gone through against each other.
#![tactic(auto)]

mod change;
mod laws;
mod probe;
mod whole;

pub use change::join_delta;
pub use laws::changes_lead;
pub use whole::join_whole;
