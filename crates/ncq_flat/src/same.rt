//! Whether a tree is the element of lines: a walk over the tree takes the lines of each node off
//! the front of the text.
ghost use Rattle.std.specs.Prelude.{◌≡◌, ◌∷◌, [], map, IsTrue, true, ◌↔◌};
ghost use Rattle.std.specs.List.{list_all};
ghost use Rattle.ncq_base.specs.Escapes.{escaped, escaped_byte};
ghost use Rattle.ncq_base.specs.Names.{is_pyx_name};
ghost use Rattle.ncq_tree.specs.declared.model.Node.TheVariants.{Element as element_node};
ghost use Rattle.ncq_tree.specs.Normal.{node_is_normal};
ghost use Rattle.ncq_pyx.specs.Canonical.{ended, attribute_line, bytes_of_lines, node_lines, pyx};
ghost use Rattle.ncq_pyx.specs.Canonical.{has_good_name, is_named};
ghost use Rattle.ncq_flat.specs.Rests.{IsRest, Leaves};

use crate::written::Written;
use ncq_base::is_pyx_name;
use ncq_tree::{Attribute, Element, Forest, Node, are_rising, is_normal};

impl Written {
    /// Whether the tree is this element. It takes no memory.
    pub fn is_element(&self, element: &Element) -> bool
        ensures { IsTrue result ↔ (element.now ≡ self.now) }
    {
        has_lines(element, self.lines()) && is_normal_element(element)
    }
}

/// Whether the text is the lines of the element, and all its names are PYX names.
fn has_lines(element: &Element, text: &[u8]) -> bool
    ensures { IsTrue result ↔ Leaves (is_named (element_node element.now))
        (bytes_of_lines (node_lines (element_node element.now))) text.now [] }
{
    match behind_lines(element, text) {
        Some(rest) => rest.is_empty(),
        None => false,
    }
}

/// Whether the element is normal at every depth, as each one that is kept as its lines.
#[tactic(auto, using(ncq_tree::proofs::NormalLaws::normal_is))]
fn is_normal_element(element: &Element) -> bool
    ensures { result ≡ node_is_normal (element_node element.now) }
{
    are_rising(element.attributes.as_slice()) && is_normal(&element.children)
}

/// What the text has behind the lines of the nodes, where all their names are PYX names.
#[cycle(same)]
fn behind_nodes<'a>(forest: &Forest, text: &'a [u8]) -> Option<&'a [u8]>
    ensures { IsRest result (list_all is_named forest.now) (pyx forest.now) text.now }
{
    let mut rest = text;
    for node in forest.as_slice() {
        rest = behind_node(node, rest)?;
    }
    Some(rest)
}

/// What the text has behind the lines of the node, where all its names are PYX names.
#[cycle(same)]
fn behind_node<'a>(node: &Node, text: &'a [u8]) -> Option<&'a [u8]>
    ensures { IsRest result (is_named node.now) (bytes_of_lines (node_lines node.now)) text.now }
{
    match node {
        Node::Text(said) => behind_text(said.as_slice(), text),
        Node::Element(element) => behind_lines(element, text),
    }
}

/// What the text has behind the lines of the element, where all its names are PYX names.
#[cycle(same)]
fn behind_lines<'a>(element: &Element, text: &'a [u8]) -> Option<&'a [u8]>
    ensures { IsRest result (is_named (element_node element.now))
        (bytes_of_lines (node_lines (element_node element.now))) text.now }
{
    let name = element.name.as_slice();
    let inside = behind_opening(name, text)?;
    let content = behind_attributes(element.attributes.as_slice(), inside)?;
    let end = behind_nodes(&element.children, content)?;
    behind_name(b')', name, end)
}

/// What the text has behind the opening line, where the name is a PYX name.
fn behind_opening<'a>(name: &[u8], text: &'a [u8]) -> Option<&'a [u8]>
    ensures { IsRest result (is_pyx_name name.now) (ended (40 ∷ name.now)) text.now }
{
    if !is_pyx_name(name) {
        return None;
    }
    behind_name(b'(', name, text)
}

/// What the text has behind an opening or a closing line.
fn behind_name<'a>(mark: u8, name: &[u8], text: &'a [u8]) -> Option<&'a [u8]>
    ensures { IsRest result true (ended (mark ∷ name.now)) text.now }
{
    let line = behind_byte(mark, text)?;
    let end = behind_word(name, line)?;
    behind_byte(b'\n', end)
}

/// What the text has behind the line of a text.
fn behind_text<'a>(said: &[u8], text: &'a [u8]) -> Option<&'a [u8]>
    ensures { IsRest result true (ended (45 ∷ escaped said.now)) text.now }
{
    let line = behind_byte(b'-', text)?;
    let end = behind_escaped(said, line)?;
    behind_byte(b'\n', end)
}

/// What the text has behind the lines of the attributes, where their names are PYX names.
fn behind_attributes<'a>(attributes: &[Attribute], text: &'a [u8]) -> Option<&'a [u8]>
    ensures { IsRest result (list_all has_good_name attributes.now)
        (bytes_of_lines (map attribute_line attributes.now)) text.now }
{
    let mut rest = text;
    for attribute in attributes {
        rest = behind_attribute(attribute, rest)?;
    }
    Some(rest)
}

/// What the text has behind the line of the attribute, where its name is a PYX name.
fn behind_attribute<'a>(attribute: &Attribute, text: &'a [u8]) -> Option<&'a [u8]>
    ensures { IsRest result (has_good_name attribute.now) (ended (attribute_line attribute.now))
        text.now }
{
    let name = attribute.name.as_slice();
    if !is_pyx_name(name) {
        return None;
    }
    let line = behind_byte(b'A', text)?;
    let space = behind_word(name, line)?;
    let value = behind_byte(b' ', space)?;
    let end = behind_escaped(attribute.value.as_slice(), value)?;
    behind_byte(b'\n', end)
}

/// What the text has behind the word with its escapes.
fn behind_escaped<'a>(word: &[u8], text: &'a [u8]) -> Option<&'a [u8]>
    ensures { IsRest result true (escaped word.now) text.now }
{
    let mut rest = text;
    for byte in word {
        rest = behind_escaped_byte(*byte, rest)?;
    }
    Some(rest)
}

/// What the text has behind the byte, or behind its escape if it has one.
fn behind_escaped_byte(byte: u8, text: &[u8]) -> Option<&[u8]>
    ensures { IsRest result true (escaped_byte byte) text.now }
{
    match byte {
        b'\n' => behind_word(b"\\n", text),
        b'\t' => behind_word(b"\\t", text),
        b'\r' => behind_word(b"\\r", text),
        b'\\' => behind_word(b"\\\\", text),
        _ => behind_byte(byte, text),
    }
}

/// What the text has behind the word.
fn behind_word<'a>(word: &[u8], text: &'a [u8]) -> Option<&'a [u8]>
    ensures { IsRest result true word.now text.now }
{
    text.strip_prefix(word)
}

/// What the text has behind the byte.
fn behind_byte(byte: u8, text: &[u8]) -> Option<&[u8]>
    ensures { IsRest result true (byte ∷ []) text.now }
{
    match text {
        [first, rest @ ..] if *first == byte => Some(rest),
        _ => None,
    }
}
