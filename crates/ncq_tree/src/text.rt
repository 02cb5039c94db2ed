//! The string value of a forest.
ghost use Rattle.std.specs.Prelude.{◌≡◌, ◌++◌, [], ◌∷◌, IfOk};
ghost use Rattle.ncq_tree.specs.Texts.{string_value, texts, texts_of, following, has_text};

use crate::model::{Forest, Node};
use ncq_base::{Bytes, Copied};
use std::alloc::{AllocError, Global};

/// The room that is taken at first: most string values are no longer.
const SHORT: usize = 32;

/// The texts of the forest in document order, joined by one space; an element without text adds
/// none. One text is its own string value. The only error is want of memory.
pub fn string_value(alloc: Global, forest: &Forest) -> Result<Bytes, AllocError>
    ensures { IfOk result (λ b. b ≡ string_value forest.now) }
{
    let nodes = forest.as_slice();
    if nodes.len() == 1 {
        if let Node::Text(text) = &nodes[0] {
            return text.copy(alloc);
        }
    }
    let mut out = Vec::with_capacity(alloc, SHORT)?;
    let _behind = append_forest(forest, false, &mut out)?;
    Ok(Bytes::from_vec(out))
}

/// Appends the texts of the forest, behind other texts or not, and tells whether any text stands
/// there now.
#[cycle(texts)]
fn append_forest(forest: &Forest, mut behind: bool, out: &mut Vec<u8>) -> Result<bool, AllocError>
    ensures bytes { IfOk result (λ r. out.new.items ≡ out.old.items
        ++ following behind (texts forest.now)) }
    ensures behind { IfOk result (λ r. r ≡ has_text behind (texts forest.now)) }
{
    for node in forest.as_slice() {
        behind = append_node(node, behind, out)?;
    }
    Ok(behind)
}

/// Appends the texts of the node, and tells whether any text stands there now.
#[cycle(texts)]
#[tactic(auto, using(crate::proofs::Texts::texts_are))]
fn append_node(node: &Node, behind: bool, out: &mut Vec<u8>) -> Result<bool, AllocError>
    ensures bytes { IfOk result (λ r. out.new.items ≡ out.old.items
        ++ following behind (texts_of node.now)) }
    ensures behind { IfOk result (λ r. r ≡ has_text behind (texts_of node.now)) }
{
    match node {
        Node::Text(text) => {
            append_text(text.as_slice(), behind, out)?;
            Ok(true)
        }
        Node::Element(element) => append_forest(&element.children, behind, out),
    }
}

/// Appends the text, with a space in front where it stands behind another.
fn append_text(text: &[u8], behind: bool, out: &mut Vec<u8>) -> Result<(), AllocError>
    ensures { IfOk result (λ _. out.new.items ≡ out.old.items ++ following behind (text.now ∷ [])) }
{
    if behind {
        out.push(b' ')?;
    }
    out.extend_from_slice(text)
}
