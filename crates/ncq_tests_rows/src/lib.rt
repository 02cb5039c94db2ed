//! Calls of the crates from the rows to the notices, with values worked by hand: rows and their
//! bytes, signatures, files, parcels, notices, their cache and the book. The crate has tests alone,
//! which are proved beside those of whole sessions.
#![tactic(auto)]

#[cfg(test)]
mod tests;
