//! How the rows of expressions change with the sources: definitions and laws, and no code.
//! A change has entries for each source; they give the signed rows of each scan, and so of each
//! expression. The laws say that these lead from the rows before to the rows after, for changes as
//! the entries say them and for a prepared change that a store commits.
#![tactic(auto)]

mod laws;

pub use laws::{changes_lead, commits_lead};
