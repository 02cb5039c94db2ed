//! Whether a shape may have a row, before any row is made.
ghost use Rattle.std.specs.Prelude.{◌≡◌, [], ◌∷◌, map, true};
ghost use Rattle.ncq_row.specs.Embeddings.{one_of_each};
ghost use Rattle.ncq_row.specs.Embeddings.{content_rows, rows_at, rows_among, rows_from};
ghost use Rattle.ncq_row.specs.Found.{has_rows};

use crate::attributes::has_attributes;
use crate::shape::{Shape, ShapeContent};
use ncq_base::Bytes;
use ncq_path::Path;
use ncq_tree::{Element, Node};

/// Whether each of the parts may have a row at the element: `false` only where one has none.
#[cycle(looking)]
pub(crate) fn are_found(parts: &[Shape], element: &Element) -> bool
    ensures { has_rows (one_of_each (map (λ part. rows_from part element.now) parts.now)) ≡ true
        → result ≡ true }
{
    for part in parts {
        if !is_found_from(part, element) {
            return false;
        }
    }
    true
}

/// Whether the part may have a row at the element. Only a part whose path is one name is looked
/// for.
#[cycle(looking)]
fn is_found_from(part: &Shape, element: &Element) -> bool
    ensures { has_rows (rows_from part.now element.now) ≡ true → result ≡ true }
{
    match &part.tag {
        Path::Tag(name) => is_found(part, name, element.children.as_slice()),
        _ => true,
    }
}

/// Whether the shape may have a row at a node of this name.
#[cycle(looking)]
fn is_found(shape: &Shape, name: &Bytes, nodes: &[Node]) -> bool
    ensures { shape.now.tag ≡ Path.Tag name.now → has_rows (rows_among shape.now nodes.now) ≡ true
        → result ≡ true }
{
    for node in nodes {
        if is_found_at(shape, name, node) {
            return true;
        }
    }
    false
}

/// Whether the shape may have a row at the node, where this is its name.
#[cycle(looking)]
fn is_found_at(shape: &Shape, name: &Bytes, node: &Node) -> bool
    ensures { shape.now.tag ≡ Path.Tag name.now
        → has_rows (rows_among shape.now (node.now ∷ [])) ≡ true → result ≡ true }
{
    match node {
        Node::Text(_) => false,
        Node::Element(element) => element.name == *name && is_embedded(shape, element),
    }
}

/// Whether the shape may have a row at this element, wherever its path leads.
#[cycle(looking)]
fn is_embedded(shape: &Shape, element: &Element) -> bool
    ensures { has_rows (rows_at shape.now element.now) ≡ true → result ≡ true }
{
    has_attributes(shape.attributes.as_slice(), element.attributes.as_slice())
        && has_content(&shape.content, element)
}

/// Whether the content may have a row at this element.
#[cycle(looking)]
fn has_content(content: &ShapeContent, element: &Element) -> bool
    ensures { has_rows (content_rows content.now element.now) ≡ true → result ≡ true }
{
    match content {
        ShapeContent::Parts(parts) => are_found(parts.as_slice(), element),
        ShapeContent::Value => true,
    }
}
