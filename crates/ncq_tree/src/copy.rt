//! Copies of forests.
ghost use Rattle.std.specs.Prelude.{◌≡◌, IfOk};

use crate::model::{Attribute, Element, Forest, Node};
use ncq_base::Copied;
use std::alloc::{AllocError, Global};

impl Copied for Attribute {
    fn copy(&self, alloc: Global) -> Result<Attribute, AllocError> {
        Ok(Attribute {
            name: self.name.copy(alloc)?,
            value: self.value.copy(alloc)?,
        })
    }
}

/// An equal forest. The only error is want of memory.
#[cycle(copies)]
pub fn copy_forest(alloc: Global, forest: &Forest) -> Result<Forest, AllocError>
    ensures { IfOk result (λ f. f ≡ forest.now) }
{
    let mut copy = Forest::with_capacity(alloc, forest.len())?;
    for node in forest.as_slice() {
        copy.push(copy_node(alloc, node)?)?;
    }
    Ok(copy)
}

/// An equal node.
#[cycle(copies)]
fn copy_node(alloc: Global, node: &Node) -> Result<Node, AllocError>
    ensures { IfOk result (λ n. n ≡ node.now) }
{
    match node {
        Node::Text(text) => Ok(Node::Text(text.copy(alloc)?)),
        Node::Element(element) => Ok(Node::Element(copy_element(alloc, element)?)),
    }
}

/// An equal element.
#[cycle(copies)]
fn copy_element(alloc: Global, element: &Element) -> Result<Element, AllocError>
    ensures { IfOk result (λ e. e ≡ element.now) }
{
    Ok(Element {
        name: element.name.copy(alloc)?,
        attributes: element.attributes.copy(alloc)?,
        children: copy_forest(alloc, &element.children)?,
    })
}

impl Copied for Node {
    fn copy(&self, alloc: Global) -> Result<Node, AllocError> {
        copy_node(alloc, self)
    }
}

impl Copied for Element {
    fn copy(&self, alloc: Global) -> Result<Element, AllocError> {
        copy_element(alloc, self)
    }
}
