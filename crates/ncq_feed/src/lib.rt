//! A prepared change, passed on from file to file.
//! A change comes in with the store from which it was prepared; each file of the shelf gets the
//! signed rows that the change makes of its expression. Scans of the changed sources get theirs
//! from the elements, and what a file got goes on to the files that read it, by rising number: a
//! file that gets nothing is not looked at. The numbers of those that got rows come out.
#![tactic(auto)]

mod append;
mod falling;
mod feeding;
mod join;
mod pending;
mod scan;
mod turn;

pub use feeding::feed;
