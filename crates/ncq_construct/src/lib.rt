//! What a query answers for a row: whether the row passes the checks, and what the template makes
//! of it.
//! Rows come in; forests in normal form, or their canonical bytes, go out. The bytes are written
//! without making the forest. Where names and values are proper, so is the forest.
#![tactic(auto)]

mod building;
mod laws;
mod residual;
mod streaming;
mod writing;

pub use building::build;
pub use laws::{forests_are_proper, rows_are_proper};
pub use residual::passes;
pub use writing::answer_bytes;
