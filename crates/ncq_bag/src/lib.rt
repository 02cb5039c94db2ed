//! Bags of byte strings: what differs between two of them, and what of that is distinct.
//! Byte strings come in, each as one more or one less; those whose count is not 0 go out, rising by
//! bytes, with the size and the sign of the count. No count is further from 0 than the number of
//! adds, which stays at most 2^63.
//!
//! Differences come into `Counts`, which stay from one to the next; the byte strings whose count
//! leaves 0 or reaches it go out, once each. Each count is above 0 and below 2^64. To prepare a
//! change once more before it is made is right: that makes room and changes no count.
#![tactic(auto)]

mod bag;
mod counts;
mod laws;
mod rising;

pub use bag::{Difference, Differences, SignedBag};
pub use counts::{Counts, Pending};
pub use laws::{counts_tell_what_is_distinct, tallies_decide, texts_are_once};
