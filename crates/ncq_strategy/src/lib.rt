//! Which queries join first.
//! The bare plans of live queries come in and go out, each counted. A query with two or more arms
//! whose bare plan at least three live queries have is planned with its join below its selections,
//! so that all of them read one join; any other with its selections first.
#![tactic(auto)]

mod choice;
mod strategy;

pub use choice::{Choice, plan_by};
pub use strategy::Strategy;
