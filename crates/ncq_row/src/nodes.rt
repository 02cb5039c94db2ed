//! The nodes of a value: a forest of their own, one text, or an element that is shared.
ghost use Rattle.std.specs.Prelude.{◌≡◌, [], ◌∷◌, IfOk, IsTrue, ◌↔◌};
ghost use Rattle.ncq_tree.specs.declared.model.Node.TheVariants.{Text as text_node};
ghost use Rattle.ncq_tree.specs.declared.model.Node.TheVariants.{Element as element_node};
ghost use Rattle.ncq_tree.specs.Texts.{string_value};
ghost use Rattle.ncq_row.specs.Shown.{shown_nodes};

use ncq_base::{Bytes, Copied, Shared};
use ncq_flat::Written;
use ncq_tree::{Element, Forest, Node, copy_forest, is_same, string_value};
use std::alloc::{AllocError, Global};
use std::marker::Model;

/// How nodes are kept. One text takes no block of memory, and a shared element no new one.
#[derive(Drop)]
enum Kept {
    Forest(Forest),
    Text(Bytes),
    Element(Shared<Written>),
}

/// Nodes in order. Contracts see the list of the nodes.
#[derive(Drop)]
pub struct Nodes {
    kept: Kept,
}

impl Model for Nodes {
    ghost use Rattle.std.specs.Prelude.{List};
    ghost use Rattle.std.specs.Coded.{coded_list};
    ghost use Rattle.ncq_tree.specs.declared.model.Node.{Node};
    ghost use Rattle.ncq_tree.specs.contracts.model.Node.{the_row};
    ghost use Rattle.ncq_row.specs.Kept.{kept_nodes};

    ghost Value = { List Node };

    ghost coded = { coded_list the_row.coded };

    ghost view = { λ n. kept_nodes n.kept };
}

/// Nodes as they are kept: a forest, one text alone, or one element alone as its lines.
#[derive(Clone, Copy)]
pub enum Shown<'a> {
    Forest(&'a Forest),
    Text(&'a Bytes),
    Element(&'a Written),
}

impl Nodes {
    pub fn new(forest: Forest) -> Nodes
        ensures { result ≡ forest }
    {
        Nodes {
            kept: Kept::Forest(forest),
        }
    }

    /// The element alone, which is shared and not copied.
    pub fn shared(element: &Shared<Written>) -> Result<Nodes, AllocError>
        ensures { IfOk result (λ n. n ≡ element_node element.now ∷ []) }
    {
        Ok(Nodes {
            kept: Kept::Element(element.share()?),
        })
    }

    /// One text alone.
    pub(crate) fn of_text(text: Bytes) -> Nodes
        ensures { result ≡ text_node text ∷ [] }
    {
        Nodes {
            kept: Kept::Text(text),
        }
    }

    /// A copy of the children of the element. One text, as most often, takes no block of memory for
    /// the list.
    pub fn of_children(alloc: Global, element: &Element) -> Result<Nodes, AllocError>
        ensures { IfOk result (λ n. n ≡ element.now.children) }
    {
        let children = element.children.as_slice();
        if children.len() == 1 {
            if let Node::Text(text) = &children[0] {
                return Ok(Nodes {
                    kept: Kept::Text(text.copy(alloc)?),
                });
            }
        }
        Ok(Nodes::new(copy_forest(alloc, &element.children)?))
    }

    /// The nodes, as they are kept.
    pub fn shown(&self) -> Shown<'_>
        ensures { shown_nodes result ≡ self.now }
    {
        match &self.kept {
            Kept::Forest(forest) => Shown::Forest(forest),
            Kept::Text(text) => Shown::Text(text),
            Kept::Element(element) => Shown::Element(element.get()),
        }
    }

    /// The same nodes as a forest of its own.
    pub fn forest(&self, alloc: Global) -> Result<Forest, AllocError>
        ensures { IfOk result (λ f. f ≡ self.now) }
    {
        match self.shown() {
            Shown::Forest(forest) => copy_forest(alloc, forest),
            Shown::Text(text) => alone(alloc, Node::Text(text.copy(alloc)?)),
            Shown::Element(written) => alone(alloc, Node::Element(written.element(alloc)?)),
        }
    }

    /// The string value of the nodes. That of an element alone is that of its children.
    #[tactic(auto, using(crate::proofs::NodesLaws::string_is))]
    pub fn string_value(&self, alloc: Global) -> Result<Bytes, AllocError>
        ensures { IfOk result (λ b. b ≡ string_value self.now) }
    {
        match self.shown() {
            Shown::Forest(forest) => string_value(alloc, forest),
            Shown::Text(text) => text.copy(alloc),
            Shown::Element(written) => written.string_value(alloc),
        }
    }

    /// Whether the two are the same nodes, however each of them is kept.
    pub fn is_same(&self, other: &Nodes) -> bool
        ensures { IsTrue result ↔ (self.now ≡ other.now) }
    {
        let others = other.shown();
        match self.shown() {
            Shown::Forest(forest) => shows_forest(others, forest),
            Shown::Text(text) => shows_text(others, text),
            Shown::Element(written) => shows_element(others, written),
        }
    }
}

impl Copied for Nodes {
    fn copy(&self, alloc: Global) -> Result<Nodes, AllocError> {
        match &self.kept {
            Kept::Forest(forest) => Ok(Nodes::new(copy_forest(alloc, forest)?)),
            Kept::Text(text) => Ok(Nodes {
                kept: Kept::Text(text.copy(alloc)?),
            }),
            Kept::Element(element) => Nodes::shared(element),
        }
    }
}

/// The node alone.
fn alone(alloc: Global, node: Node) -> Result<Forest, AllocError>
    ensures { IfOk result (λ f. f ≡ node ∷ []) }
{
    let mut forest = Forest::with_capacity(alloc, 1)?;
    forest.push(node)?;
    Ok(forest)
}

/// Whether these are the nodes of the forest.
fn shows_forest(shown: Shown<'_>, forest: &Forest) -> bool
    ensures { IsTrue result ↔ (forest.now ≡ shown_nodes shown.entry) }
{
    match shown {
        Shown::Forest(other) => is_same(forest, other),
        Shown::Text(text) => is_text_alone(forest.as_slice(), text),
        Shown::Element(written) => is_element_alone(forest.as_slice(), written),
    }
}

/// Whether these are the text alone.
fn shows_text(shown: Shown<'_>, text: &Bytes) -> bool
    ensures { IsTrue result ↔ (text_node text.now ∷ [] ≡ shown_nodes shown.entry) }
{
    match shown {
        Shown::Forest(forest) => is_text_alone(forest.as_slice(), text),
        Shown::Text(other) => text == other,
        Shown::Element(_) => false,
    }
}

/// Whether these are the element alone.
fn shows_element(shown: Shown<'_>, element: &Written) -> bool
    ensures { IsTrue result ↔ (element_node element.now ∷ [] ≡ shown_nodes shown.entry) }
{
    match shown {
        Shown::Forest(forest) => is_element_alone(forest.as_slice(), element),
        Shown::Text(_) => false,
        Shown::Element(other) => element.is_same(other),
    }
}

/// Whether the nodes are the text alone.
fn is_text_alone(nodes: &[Node], text: &Bytes) -> bool
    ensures { IsTrue result ↔ (nodes.now ≡ text_node text.now ∷ []) }
{
    if nodes.len() != 1 {
        return false;
    }
    match &nodes[0] {
        Node::Text(only) => only == text,
        Node::Element(_) => false,
    }
}

/// Whether the nodes are the element alone.
fn is_element_alone(nodes: &[Node], element: &Written) -> bool
    ensures { IsTrue result ↔ (nodes.now ≡ element_node element.now ∷ []) }
{
    if nodes.len() != 1 {
        return false;
    }
    match &nodes[0] {
        Node::Text(_) => false,
        Node::Element(only) => element.is_element(only),
    }
}
