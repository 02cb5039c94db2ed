//! Notices, and the handlers that write them.
//! Rows come in, each as one that comes or one that goes; how often each answer stands more or less
//! is counted, and that makes the entries of a notice. A handler appends the text of a notice: it
//! keeps beside its closure that a call appends the text of its kind. Predicates, which the checks
//! of a row may name, are handed in with the handlers.
//!
//! `print_notice` and `count_notice` may as well be called with another argument: their texts have
//! none.
#![tactic(auto)]

mod count;
mod gather;
mod handler;
mod handlers;
mod kept_text;
mod last;
mod laws;
mod mail;
mod notice;
mod print;
mod row_bag;
mod sharing;
mod texts;

pub use count::count_notice;
pub use gather::Gather;
pub use handler::{Call, Handler};
pub use handlers::{AddError, Handlers};
pub use laws::counts_tell_the_difference;
pub use mail::mail_notice;
pub use notice::{Entries, Kind, Notice};
pub use print::print_notice;
