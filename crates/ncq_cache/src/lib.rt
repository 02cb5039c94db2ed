//! What was told lately: the entries of notices, each by what it was made of.
//! Entries come in under a key and go out, once, by an equal one: the file, the checks that its
//! rows pass, the template, the mark and the number of changes. There are never more than 64 pairs;
//! the one that was used least lately goes first. The predicates that checks name are no part of a
//! key: those who share a cache have the same ones.
//!
//! A pair that finds no memory is let go. So a body that lets each pair go meets the contract of
//! `put`, and is right: whoever asks makes the entries anew, and nothing but time is lost.
#![tactic(auto)]

mod cache;
mod key;

pub use cache::NoticeCache;
pub use key::NoticeKey;
