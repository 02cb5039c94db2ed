//! The normal form of a forest.
ghost use Rattle.std.specs.Prelude.{◌≡◌, List, ◌∷◌, ◌++◌, ◌≤◌, length, true, IfOk, OnOk};
ghost use Rattle.ncq_tree.specs.declared.model.Node.{Node};
ghost use Rattle.ncq_base.specs.Names.{is_space};
ghost use Rattle.ncq_tree.specs.Normal.{is_normal, normal, normal_of, tidy_behind, trimmed};
ghost use Rattle.ncq_tree.specs.Normal.{text_nodes, sorted, whole_normal, node_is_distinct};
ghost use Rattle.ncq_tree.specs.declared.model.Node.TheVariants.{Element as element_node};
ghost use Rattle.std.specs.List.{list_all, prefix_len, suffix_len};

use crate::checks::is_normal_element;
use crate::model::{Attributes, Element, Forest, Node};
use ncq_base::{Bytes, bytes_of, is_space};
use std::alloc::{AllocError, Global};

/// The normal form: at every depth the attributes sorted by name, adjacent texts merged with
/// nothing between them, white space taken off the ends of each merged text, and empty texts
/// dropped. Values of attributes stay. What is normal already is moved. The only error is want of
/// memory.
#[cycle(normalize)]
pub fn normal(alloc: Global, forest: Forest) -> Result<Forest, AllocError>
    ensures { IfOk result (λ f. f ≡ normal forest) }
{
    let mut out = Forest::with_capacity(alloc, room_for(forest.as_slice()))?;
    let mut pending = Bytes::new(alloc);
    for node in forest.into_vec() {
        pending = take_node(alloc, node, pending, &mut out)?;
    }
    push_text(alloc, pending, &mut out)?;
    Ok(out)
}

/// How many nodes the normal form has, but for texts beside elements.
fn room_for(nodes: &[Node]) -> usize {
    let elements = nodes
        .iter()
        .filter(|node| matches!(node, Node::Element(_)))
        .count();
    if elements == 0 && !nodes.is_empty() {
        1
    } else {
        elements
    }
}

/// Keeps a text behind those that were kept, or appends them and an element. What is kept then is
/// the answer.
#[cycle(normalize)]
#[tactic(auto, using(crate::proofs::NormalLaws::normal_of_is))]
fn take_node(
    alloc: Global,
    node: Node,
    pending: Bytes,
    out: &mut Forest,
) -> Result<Bytes, AllocError>
    ensures { IfOk result (λ kept. (rest : List _) → out.new ++ tidy_behind kept rest
        ≡ out.old ++ tidy_behind pending (normal_of node ∷ rest)) }
{
    match node {
        Node::Text(text) => merged(pending, text),
        Node::Element(element) => {
            push_text(alloc, pending, out)?;
            out.push(Node::Element(made_normal(alloc, element)?))?;
            Ok(Bytes::new(alloc))
        }
    }
}

/// The two texts with nothing between them. A text alone is moved, and the front is not copied.
fn merged(front: Bytes, back: Bytes) -> Result<Bytes, AllocError>
    ensures { IfOk result (λ text. text ≡ front ++ back) }
{
    if front.as_slice().is_empty() {
        return Ok(back);
    }
    let mut both = front;
    both.append(back.as_slice())?;
    Ok(both)
}

/// The element with its attributes sorted by name and its children in normal form. One that is
/// normal already, as most often, is not made anew. The only error is want of memory.
pub fn normal_element(alloc: Global, element: Element) -> Result<Element, AllocError>
    ensures node { IfOk result (λ e. element_node e ≡ normal_of (element_node element)) }
    ensures whole { IfOk result (λ e. e ≡ whole_normal element) }
{
    if is_normal_element(&element) {
        return Ok(element);
    }
    made_normal(alloc, element)
}

/// The element in normal form, part by part.
#[cycle(normalize)]
#[tactic(auto, using(crate::proofs::NormalLaws::normal_of_is))]
fn made_normal(alloc: Global, element: Element) -> Result<Element, AllocError>
    ensures node { IfOk result (λ e. element_node e ≡ normal_of (element_node element)) }
    ensures whole { IfOk result (λ e. e ≡ whole_normal element) }
{
    let Element {
        name,
        attributes,
        children,
    } = element;
    Ok(Element {
        name,
        attributes: sort_attributes(attributes)?,
        children: normal(alloc, children)?,
    })
}

/// The attributes sorted by name; those of one name keep their order. The only error is want of
/// memory.
pub fn sort_attributes(attributes: Attributes) -> Result<Attributes, AllocError>
    ensures { IfOk result (λ s. s ≡ sorted attributes) }
{
    let mut list = attributes.into_vec();
    list.sort_by(|a, b| a.name.cmp(&b.name))?;
    Ok(Attributes::from_vec(list))
}

/// Appends the text without the white space at its ends, if anything is left. A text that is
/// trimmed already is moved.
fn push_text(alloc: Global, text: Bytes, out: &mut Forest) -> Result<(), AllocError>
    ensures { OnOk result (out.new ≡ out.old ++ text_nodes (trimmed text)) }
{
    let trimmed = trim(text.as_slice());
    if trimmed.is_empty() {
        return Ok(());
    }
    if trimmed.len() == text.as_slice().len() {
        return out.push(Node::Text(text));
    }
    let trimmed = bytes_of(alloc, trimmed)?;
    out.push(Node::Text(trimmed))
}

/// The text without the white space at its ends.
pub fn trim(text: &[u8]) -> &[u8]
    ensures { result.now ≡ trimmed text.now }
{
    let front = &text[spaces_in_front(text)..];
    &front[..front.len() - spaces_behind(front)]
}

/// How many bytes of white space the text begins with.
fn spaces_in_front(text: &[u8]) -> usize
    ensures value { result ≡ prefix_len is_space text.now }
    ensures bound { result ≤ length text.now }
{
    text.iter().take_while(|b| is_space(**b)).count()
}

/// How many bytes of white space the text ends with.
fn spaces_behind(text: &[u8]) -> usize
    ensures value { result ≡ suffix_len is_space text.now }
    ensures bound { result ≤ length text.now }
{
    text.iter().rev().take_while(|b| is_space(**b)).count()
}
