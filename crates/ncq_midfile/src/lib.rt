//! What the rows of one expression were at each change, as one list of signed rows.
//! Rows come in with the number of a change and a sign; the content at a change goes out as the
//! places of the rows that are left. Numbers never fall, and what the file holds at its base are
//! rows that came in. Indexes that a file may keep change no answer. A file without rows is 72
//! bytes, and nothing on the heap.
#![tactic(auto)]

mod both;
mod bounds;
mod chain;
mod compact;
mod content;
mod counts;
mod few;
mod file;
mod finder;
mod fold;
mod index;
mod keep;
mod key;
mod laws;
mod lose;
mod matching;
mod order;
mod pairs;
mod place_set;
mod range;
mod signed;
mod spots;
mod strike;
mod taken;
mod view;
mod whole;
mod within;

pub use file::MidFile;
pub use laws::{contents_are_counted, folds_and_cuts_keep_contents, views_keep_their_contents};
pub use range::RangeFile;
pub use signed::{Places, SignedRow, SignedRows};
pub use view::View;
