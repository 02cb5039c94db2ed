//! What the files of tests share is in `making` and `histories`.

mod books;
mod caches;
mod counts;
mod distinct;
mod files;
mod firings;
mod forests;
mod gathered;
mod handlers;
mod histories;
mod intervals;
mod making;
mod notices;
mod parcels;
mod plans;
mod predicates;
mod ranges;
mod rows;
mod signatures;
mod views;
