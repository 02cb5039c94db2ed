//! Paths over the names of elements, and the machines that read names along them.
//! A path comes in and its machine goes out; names come in one by one, and the state behind each
//! goes out, with it whether the names so far are in the path. The text of a path goes out too.
//! A machine keeps each name of its path with the set of the positions behind which it may be read
//! (the position automaton). A state is the set of the positions at which a reading of the names so
//! far may stand; neither a step nor the test takes memory.
#![tactic(auto)]

mod compiling;
mod count;
mod ends;
mod formed;
mod kind;
mod laws;
mod link;
mod machine;
mod path;
mod state;
mod text;

pub use compiling::compile;
pub use count::names_in;
pub use formed::is_well_formed;
pub use laws::{no_position_leads_nowhere, one_state, paths_are_decided};
pub use machine::Machine;
pub use path::{Path, Paths, same_path};
pub use state::{State, accepts, start, step};
pub use text::write_path;
