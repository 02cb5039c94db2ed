//! The table of shared files: each subexpression of the installed expressions has one file, and no
//! others stand.
//! Expressions come in and are installed, once for each use, and released; prepared changes come
//! in, and each file gets the signed rows of its expression. Groups of expressions go out, with the
//! number of their constants. A new expression joins the standing files as they are: nothing is
//! planned again.
#![tactic(auto)]

mod collect;
mod filed;
mod laws;
mod mark;
mod place;
mod table;
mod undo;

pub use laws::files_are_the_live;
pub use mark::GroupMark;
pub use table::GroupTable;
