//! Writing the canonical lines of a forest.
ghost use Rattle.std.specs.Prelude.{◌≡◌, ◌++◌, ◌∷◌, [], OnOk, OnErr, length, take, map};
ghost use Rattle.std.specs.Io.{StartsWith};
ghost use Rattle.ncq_base.specs.Escapes.{escaped};
ghost use Rattle.ncq_tree.specs.declared.model.Node.TheVariants.{Element as element_node};
ghost use Rattle.ncq_pyx.specs.Canonical.{ended, attribute_line, bytes_of_lines, node_lines, pyx};

use ncq_base::write_escaped;
use ncq_tree::{Attribute, Element, Forest, Node};
use std::alloc::AllocError;

/// Appends the canonical lines of the forest, each ended by LF: for a text `-` and the escaped
/// text; for an element
/// `(name`, then `Aname value` for each attribute, the lines of the children and `)name`.
/// The only error is want of memory, and then `out` is as before.
pub fn write_forest(forest: &Forest, out: &mut Vec<u8>) -> Result<(), AllocError>
    ensures ok { OnOk result (out.new.items ≡ out.old.items ++ pyx forest.now) }
    ensures err { OnErr result (out.new.items ≡ out.old.items) }
{
    let before = out.len();
    let written = write_nodes(forest, out);
    if written.is_err() {
        out.truncate(before);
    }
    written
}

/// Appends the canonical lines of the element, each ended by LF.
/// The only error is want of memory, and then `out` is as before.
pub fn write_element(element: &Element, out: &mut Vec<u8>) -> Result<(), AllocError>
    ensures ok { OnOk result
        (out.new.items ≡ out.old.items ++ bytes_of_lines (node_lines (element_node element.now))) }
    ensures err { OnErr result (out.new.items ≡ out.old.items) }
{
    let before = out.len();
    let written = write_lines(element, out);
    if written.is_err() {
        out.truncate(before);
    }
    written
}

/// Appends the lines of the nodes; what was there stays in front.
#[cycle(writing)]
#[tactic(auto, using(crate::proofs::LineLaws::lines_are))]
fn write_nodes(forest: &Forest, out: &mut Vec<u8>) -> Result<(), AllocError>
    ensures ok { OnOk result (out.new.items ≡ out.old.items ++ pyx forest.now) }
    ensures front { StartsWith out.new.items out.old.items }
{
    for node in forest.as_slice() {
        write_node(node, out)?;
    }
    Ok(())
}

/// Appends the lines of the node; what was there stays in front.
#[cycle(writing)]
#[tactic(auto, using(crate::proofs::LineLaws::lines_are))]
fn write_node(node: &Node, out: &mut Vec<u8>) -> Result<(), AllocError>
    ensures ok { OnOk result (out.new.items ≡ out.old.items
        ++ bytes_of_lines (node_lines node.now)) }
    ensures front { StartsWith out.new.items out.old.items }
{
    match node {
        Node::Text(text) => write_text(text.as_slice(), out),
        Node::Element(element) => write_lines(element, out),
    }
}

/// Appends the lines of the element; what was there stays in front.
#[cycle(writing)]
#[tactic(auto, using(crate::proofs::LineLaws::lines_are))]
fn write_lines(element: &Element, out: &mut Vec<u8>) -> Result<(), AllocError>
    ensures ok { OnOk result
        (out.new.items ≡ out.old.items ++ bytes_of_lines (node_lines (element_node element.now))) }
    ensures front { StartsWith out.new.items out.old.items }
{
    write_name(b'(', element.name.as_slice(), out)?;
    write_attributes(element.attributes.as_slice(), out)?;
    write_nodes(&element.children, out)?;
    write_name(b')', element.name.as_slice(), out)
}

/// Appends the line of a text; what was there stays in front.
pub fn write_text(text: &[u8], out: &mut Vec<u8>) -> Result<(), AllocError>
    ensures ok { OnOk result (out.new.items ≡ out.old.items ++ ended (45 ∷ escaped text.now)) }
    ensures front { StartsWith out.new.items out.old.items }
{
    out.push(b'-')?;
    write_escaped(text, out)?;
    out.push(b'\n')?;
    Ok(())
}

/// Appends an opening or a closing line; what was there stays in front.
pub fn write_name(mark: u8, name: &[u8], out: &mut Vec<u8>) -> Result<(), AllocError>
    ensures ok { OnOk result (out.new.items ≡ out.old.items ++ ended (mark ∷ name.now)) }
    ensures front { StartsWith out.new.items out.old.items }
{
    out.push(mark)?;
    out.extend_from_slice(name)?;
    out.push(b'\n')?;
    Ok(())
}

/// Appends a line for each attribute; what was there stays in front.
#[tactic(auto, using(crate::proofs::LineLaws::lines_are))]
pub fn write_attributes(attributes: &[Attribute], out: &mut Vec<u8>) -> Result<(), AllocError>
    ensures ok { OnOk result (out.new.items ≡ out.old.items
        ++ bytes_of_lines (map attribute_line attributes.now)) }
    ensures front { StartsWith out.new.items out.old.items }
{
    for attribute in attributes {
        write_attribute(attribute, out)?;
    }
    Ok(())
}

/// Appends the line of an attribute; what was there stays in front.
fn write_attribute(attribute: &Attribute, out: &mut Vec<u8>) -> Result<(), AllocError>
    ensures ok { OnOk result (out.new.items ≡ out.old.items
        ++ ended (attribute_line attribute.now)) }
    ensures front { StartsWith out.new.items out.old.items }
{
    out.push(b'A')?;
    out.extend_from_slice(attribute.name.as_slice())?;
    out.push(b' ')?;
    write_escaped(attribute.value.as_slice(), out)?;
    out.push(b'\n')?;
    Ok(())
}
