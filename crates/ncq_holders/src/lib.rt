//! Which files have had a row with an atom where joins compare.
//! An atom comes in with the number of a file, and for an atom the numbers of its files go out. An
//! atom is found by its hash, and no atom is kept once the last of its files was forgotten.
#![tactic(auto)]

mod holders;

pub use holders::Holders;
