//! Calls of the crates from queries to notices, each with ample memory: its answer is compared with
//! a value that was worked by hand. The crate has tests alone, which are proved beside those of
//! whole sessions. Calls of the crates on bytes and texts are in `ncq_tests_text`.
#![tactic(auto)]

#[cfg(test)]
mod tests;
