//! Nodes, elements and attributes.
use ncq_base::{Bytes, Sequence};

/// An attribute of an element: a name and a value, each any bytes. They are ordered by name, then
/// by value.
#[derive(Debug, PartialEq, Eq, PartialOrd, Ord, Hash)]
pub struct Attribute {
    pub name: Bytes,
    pub value: Bytes,
}

impl Drop for Attribute {
    fn drop(self) {
        let Attribute { name, value } = self;
        drop(name);
        drop(value);
    }
}

/// Attributes in order. A name may stand twice; in a normal forest none does.
pub type Attributes = Sequence<Attribute>;

/// A text, or an element. In a list of nodes texts are ordered before elements.
#[cycle(tree)]
#[derive(PartialEq, Eq, PartialOrd, Ord, Hash, Drop)]
pub enum Node {
    Text(Bytes),
    Element(Element),
}

/// An element with its tag, its attributes and its children. They are ordered by these three in
/// turn.
#[cycle(tree)]
#[derive(PartialEq, Eq, PartialOrd, Ord, Hash, Drop)]
pub struct Element {
    pub name: Bytes,
    pub attributes: Attributes,
    pub children: Forest,
}

/// Nodes in document order.
pub type Forest = Sequence<Node>;
