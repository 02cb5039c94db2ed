//! Declared sources: for each its elements by their keys, and the number of its last change.
//! Sections come in, each with the name of a source and items to put and to remove, and go out as a
//! prepared change: for each source an entry for each item, with what its key held and holds; or
//! the first item that cannot be applied.
//! A change is prepared, given room and committed. Preparing and giving room change no element; the
//! commit takes no memory and cannot be refused. So each source is the fold of the changes
//! committed to it, item by item, and a refused change leaves no trace.
//! Names are unique, and an element stands under the key that the rule of its source gave it.
#![tactic(auto)]

mod ahead;
mod batch;
mod change;
mod commit;
mod declared;
mod elements;
mod key;
mod laws;
mod names;
mod prepare;
mod sections;
mod store;

pub use batch::Sections;
pub use change::{Change, ChangeError, Entries, Entry, Portion, Section, SourceId};
pub use key::{Key, key_of};
pub use laws::{
    changes_are_the_fold, entries_are_the_fold, stores_show_their_sources, the_first_fault_decides,
};
pub use store::{DeclareError, Store};
