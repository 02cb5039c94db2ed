//! Elements as their canonical lines, and nothing else.
//! What comes in are the lines of a block; what goes out are the elements to put, each as its
//! lines, and the keys to remove; and of an element its name, its children that have a name, its
//! string value and its tree.
//! An element is proper, that is normal with PYX names, and its lines are its canonical ones, so
//! two elements are equal exactly where their lines are.
#![tactic(auto)]

mod checking;
mod child;
mod item;
mod laws;
mod reading;
mod said;
mod same;
mod skip;
mod written;

pub use child::first_inside;
pub use item::{Asked, Item, Items};
pub use laws::{
    checked_are_canonical, ends_are_found, insides_are_found, read_as_written, texts_are_found,
};
pub use reading::read_flat_block;
pub use said::{is_bare, lone_text, string_value};
pub use skip::behind;
pub use written::Written;
