//! Calls of the crates that stand on bytes and texts, each with ample memory: the ground, the
//! outside, documents, sources, statements, instants, reports and the words of the command line.
//! An answer is compared with a value that was worked by hand. The crate has tests alone, which are
//! proved beside all that stands on those crates.
#![tactic(auto)]

#[cfg(test)]
mod tests;
