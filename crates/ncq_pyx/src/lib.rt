//! Blocks of PYX lines, both ways.
//! Lines come in and go out as the elements to put and the keys to remove that they spell; a forest
//! comes in and goes out as its canonical lines.
//! A block is read exactly where it spells items, or else the first fault is named by its line;
//! each element that goes out is normal, and the canonical lines of a proper element spell that
//! element again.
#![tactic(auto)]

mod error;
mod item;
mod laws;
mod reader;
mod tag;
mod turns;
mod writing;

pub use error::PyxError;
pub use item::{Item, Items};
pub use laws::{
    blocks_are_exact, blocks_are_joined, escapes_are_undone, proper_is_read, spelled_is_proper,
    spelled_once, written_is_read, written_once,
};
pub use reader::{MAX_NESTING, read_block, read_nested};
pub use writing::{write_attributes, write_element, write_forest, write_name, write_text};
