//! The book of live subscriptions: who they are, whom a change concerns, and who is due.
//! Subscriptions come in one by one, in the order of their creates, and go out by name or by
//! expiry. A name is found by its hash, and an install number, the watchers and the timers of a
//! file, the next firings and the expiries by their order: nobody is looked at whom a question does
//! not concern. How many have a bare plan is counted, so that the next that has it is planned by
//! it. One that asks as the last of its file has the number of its question too, so that a change
//! need not compare the two.
#![tactic(auto)]

mod book;
mod finders;
mod held;
mod listed;
mod names;
mod questions;
mod subscription;
mod watchers;

pub use book::Book;
pub use listed::Listed;
pub use questions::ask_alike;
pub use subscription::Subscription;
