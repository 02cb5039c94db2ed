//! What a subscriber is told at a firing.
//! The signed rows of its file come in, with its mark, the number of changes at its latest firing;
//! the entries of a notice go out: what the answer of its query gained and lost since then. At a
//! first firing there is no mark, and that is the answer of the content now. No row of an earlier
//! firing is kept for that.
#![tactic(auto)]

mod firing;
mod laws;

pub use firing::news;
pub use laws::news_tell_the_difference;
