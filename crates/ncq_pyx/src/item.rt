//! What a block asks for, as trees.

use ncq_base::{Bytes, Sequence};
use ncq_tree::Element;

/// To put an element, which is in normal form, or to remove the element of a key.
#[derive(Drop)]
pub enum Item {
    Put(Element),
    Remove(Bytes),
}

/// What a block asks for, in order.
pub type Items = Sequence<Item>;
