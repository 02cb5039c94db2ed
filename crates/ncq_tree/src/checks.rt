//! Whether a forest is normal.
ghost use Rattle.std.specs.Prelude.{◌≡◌};
ghost use Rattle.std.specs.List.{list_all};
ghost use Rattle.ncq_tree.specs.declared.model.Node.TheVariants.{Element as element_node};
ghost use Rattle.ncq_tree.specs.Normal.{is_trim, are_apart, are_rising, is_normal, node_is_normal};

use crate::model::{Attribute, Element, Forest, Node};
use ncq_base::{Bytes, is_space};

/// Whether the forest is normal at every depth: attributes rise by name, no two texts are adjacent,
/// and each text is non-empty with no white space at its ends.
#[cycle(normal)]
pub fn is_normal(forest: &Forest) -> bool
    ensures { result ≡ is_normal forest.now }
{
    are_apart(forest.as_slice()) && are_normal(forest.as_slice())
}

/// Whether each of the nodes is normal.
#[cycle(normal)]
fn are_normal(nodes: &[Node]) -> bool
    ensures { result ≡ list_all node_is_normal nodes.now }
{
    for node in nodes {
        if !is_normal_node(node) {
            return false;
        }
    }
    true
}

/// Whether the text is trimmed, or the element normal at every depth.
#[cycle(normal)]
#[tactic(auto, using(crate::proofs::NormalLaws::normal_is))]
fn is_normal_node(node: &Node) -> bool
    ensures { result ≡ node_is_normal node.now }
{
    match node {
        Node::Text(text) => is_trim(text.as_slice()),
        Node::Element(element) => is_normal_element(element),
    }
}

/// Whether the element is normal at every depth.
#[cycle(normal)]
#[tactic(auto, using(crate::proofs::NormalLaws::normal_is))]
pub(crate) fn is_normal_element(element: &Element) -> bool
    ensures { result ≡ node_is_normal (element_node element.now) }
{
    are_rising(element.attributes.as_slice()) && is_normal(&element.children)
}

/// Whether the text is not empty and has no white space at its ends.
fn is_trim(text: &[u8]) -> bool
    ensures { result ≡ is_trim text.now }
{
    !text.is_empty() && !is_space(text[0]) && !is_space(text[text.len() - 1])
}

/// Whether no two texts are adjacent.
fn are_apart(nodes: &[Node]) -> bool
    ensures { result ≡ are_apart nodes.now }
{
    let mut behind = false;
    for node in nodes {
        let text = matches!(node, Node::Text(_));
        if behind && text {
            return false;
        }
        behind = text;
    }
    true
}

/// Whether each name stands before the next.
pub fn are_rising(attributes: &[Attribute]) -> bool
    ensures { result ≡ are_rising attributes.now }
{
    let mut last: Option<&Bytes> = None;
    for attribute in attributes {
        if last.is_some_and(|name| *name >= attribute.name) {
            return false;
        }
        last = Some(&attribute.name);
    }
    true
}
