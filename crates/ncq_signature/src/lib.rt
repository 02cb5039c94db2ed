//! What expressions have in common: the signature of an expression leaves its outermost constant or
//! interval open.
//! Expressions come in, signatures and their texts go out. Signatures are keys of a hash table: two
//! expressions have one signature exactly where they differ at most in that constant or interval.
//! Hashing a signature walks each of its operators once, and copies nothing.
#![tactic(auto)]

mod copy;
mod group;
mod laws;
mod signature;
mod text;

pub use group::{GroupLine, GroupLines};
pub use laws::signatures_group;
pub use signature::{Signature, same_signature, signature_of};
pub use text::write_signature;
