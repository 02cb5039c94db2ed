//! Rows worked out by hand, for elements and shapes that are written in letters.
//!
//! An upper-case letter begins an element or a shape of that name, and `.` puts it into the one
//! before it. In an element a lower-case letter is a text, and `@` the attribute `i` of the value
//! `7`. In a shape `=` asks for the value, a lower-case letter for the attribute of that name, `!`
//! for the element and `~` for its children. `QT=.` is the shape of a `Q` with a `T` in it.
//!
//! A row shows an attribute's value in quotation marks and nodes in square brackets; a text is
//! itself, an element its name and its children in round brackets.
ghost use Rattle.std.specs.Prelude.{◌≡◌, ◌<◌, length, IfOk};
ghost use Rattle.std.specs.List.{sum_by};
ghost use Rattle.ncq_row.specs.Widths.{width};

use super::making::{element_with, rows_of, shape_with, shared, tag_path, text_node, value_shape};
use ncq_base::{Atom, Copied, Steps, atom_of, bytes_of, same};
use ncq_row::{
    Names, Nodes, Row, Rows, Shape, ShapeContent, ShapeSuffix, Shapes, Shown, Value, width,
};
use ncq_tree::{Attribute, Element, Forest, Node};
use std::alloc::{AllocError, Global};
use std::marker::Brand;
use std::process::Abort;
use std::sync::ledger::{Blank, Ledger};
use std::test::Fail;

fn new_element(alloc: Global, name: u8) -> Result<Element, AllocError> {
    element_with(alloc, &[name], Forest::new(alloc))
}

/// `i="7"`
fn attribute(alloc: Global) -> Result<Attribute, AllocError> {
    Ok(Attribute {
        name: bytes_of(alloc, b"i")?,
        value: bytes_of(alloc, b"7")?,
    })
}

/// One letter more of an element.
fn grow(alloc: Global, top: &mut Element, letter: u8) -> Result<(), AllocError> {
    if letter == b'@' {
        return top.attributes.push(attribute(alloc)?);
    }
    top.children.push(text_node(alloc, &[letter])?)
}

/// One element more that is open, the innermost.
fn open_element(open: &mut Vec<Element>, top: Element) -> Result<(), AllocError> {
    open.push(top)?;
    Ok(())
}

/// The innermost of the elements that are open into the one before it, where there is one.
fn close(open: &mut Vec<Element>) -> Result<(), AllocError> {
    let Some(top) = open.pop() else {
        return Ok(());
    };
    match open.last_mut() {
        Some(outer) => outer.children.push(Node::Element(top)),
        None => open_element(open, top),
    }
}

/// One letter more of the elements that are open, the innermost last.
fn add_letter(alloc: Global, open: &mut Vec<Element>, letter: u8) -> Result<(), AllocError> {
    if letter.is_ascii_uppercase() {
        return open_element(open, new_element(alloc, letter)?);
    }
    if letter == b'.' {
        return close(open);
    }
    match open.last_mut() {
        Some(top) => grow(alloc, top, letter),
        None => Ok(()),
    }
}

fn element(alloc: Global, letters: &str) -> Result<Element, AllocError> {
    let mut open = Vec::new(alloc);
    for letter in letters.as_bytes() {
        add_letter(alloc, &mut open, *letter)?;
    }
    match open.pop() {
        Some(top) => Ok(top),
        None => new_element(alloc, b'-'),
    }
}

fn new_shape(alloc: Global, tag: u8) -> Result<Shape, AllocError> {
    let (attributes, parts) = (Names::new(alloc), Shapes::new(alloc));
    shape_with(alloc, &[tag], attributes, parts, ShapeSuffix::Plain)
}

/// One letter more of a shape.
fn ask(alloc: Global, top: &mut Shape, letter: u8) -> Result<(), AllocError> {
    match letter {
        b'=' => top.content = ShapeContent::Value,
        b'!' => top.suffix = ShapeSuffix::Element,
        b'~' => top.suffix = ShapeSuffix::Content,
        _ => return top.attributes.push(bytes_of(alloc, &[letter])?),
    }
    Ok(())
}

/// The part into the shape, behind its parts.
fn put_part(outer: &mut Shape, part: Shape) -> Result<(), AllocError> {
    match &mut outer.content {
        ShapeContent::Parts(parts) => parts.push(part),
        ShapeContent::Value => Ok(()),
    }
}

/// One shape more that is open, the innermost.
fn open_shape(open: &mut Vec<Shape>, top: Shape) -> Result<(), AllocError> {
    open.push(top)?;
    Ok(())
}

/// The innermost of the shapes that are open into the one before it, where there is one.
fn close_part(open: &mut Vec<Shape>) -> Result<(), AllocError> {
    let Some(top) = open.pop() else {
        return Ok(());
    };
    match open.last_mut() {
        Some(outer) => put_part(outer, top),
        None => open_shape(open, top),
    }
}

/// One letter more of the shapes that are open, the innermost last.
fn add_ask(alloc: Global, open: &mut Vec<Shape>, letter: u8) -> Result<(), AllocError> {
    if letter.is_ascii_uppercase() {
        return open_shape(open, new_shape(alloc, letter)?);
    }
    if letter == b'.' {
        return close_part(open);
    }
    match open.last_mut() {
        Some(top) => ask(alloc, top, letter),
        None => Ok(()),
    }
}

fn shape(alloc: Global, letters: &str) -> Result<Shape, AllocError> {
    let mut open = Vec::new(alloc);
    for letter in letters.as_bytes() {
        add_ask(alloc, &mut open, *letter)?;
    }
    match open.pop() {
        Some(top) => Ok(top),
        None => new_shape(alloc, b'-'),
    }
}

#[cycle(showing)]
fn show_nodes(nodes: &[Node], out: &mut Vec<u8>) -> Result<(), AllocError> {
    for node in nodes {
        match node {
            Node::Text(text) => out.extend_from_slice(text.as_slice())?,
            Node::Element(element) => show_element(element, out)?,
        }
    }
    Ok(())
}

/// The name and the children of the element.
#[cycle(showing)]
fn show_element(element: &Element, out: &mut Vec<u8>) -> Result<(), AllocError> {
    out.extend_from_slice(element.name.as_slice())?;
    out.push(b'(')?;
    show_nodes(element.children.as_slice(), out)?;
    out.push(b')')?;
    Ok(())
}

fn show_value(alloc: Global, value: &Value, out: &mut Vec<u8>) -> Result<(), AllocError> {
    match value {
        Value::Text(text) => {
            out.push(b'"')?;
            out.extend_from_slice(text.as_slice())?;
            out.push(b'"')?;
        }
        Value::Nodes(nodes) => {
            out.push(b'[')?;
            show_kept(alloc, nodes.shown(), out)?;
            out.push(b']')?;
        }
    }
    Ok(())
}

/// The nodes, as they are kept.
fn show_kept(alloc: Global, shown: Shown<'_>, out: &mut Vec<u8>) -> Result<(), AllocError> {
    match shown {
        Shown::Forest(forest) => show_nodes(forest.as_slice(), out),
        Shown::Text(text) => out.extend_from_slice(text.as_slice()),
        Shown::Element(written) => show_element(&written.element(alloc)?, out),
    }
}

/// The values of the row, and a semicolon.
fn show_row(alloc: Global, row: &Row, out: &mut Vec<u8>) -> Result<(), AllocError> {
    for slot in 0..row.len() {
        show_value(alloc, row.value(slot), out)?;
    }
    out.push(b';')?;
    Ok(())
}

/// The rows, as they are shown.
fn show_rows(alloc: Global, rows: &Rows) -> Result<Vec<u8>, AllocError> {
    let mut out = Vec::new(alloc);
    for row in rows.as_slice() {
        show_row(alloc, row, &mut out)?;
    }
    Ok(out)
}

/// The rows of the shape in the element of the letters, and in the same element shared.
fn rows_in(rt: &HostRuntime, asked: &Shape, given: &str) -> Result<(Rows, Rows), AllocError> {
    let given = element(rt.alloc(), given)?;
    rows_of(rt, asked, &given)
}

/// The rows of the shape and the element of the letters, and in the same element shared.
fn rows_asked(rt: &HostRuntime, asked: &str, given: &str) -> Result<(Rows, Rows), AllocError> {
    let asked = shape(rt.alloc(), asked)?;
    rows_in(rt, &asked, given)
}

/// Both lists of rows, as they are shown.
fn show_both(alloc: Global, rows: &Rows, sharing: &Rows) -> Result<(Vec<u8>, Vec<u8>), AllocError> {
    Ok((show_rows(alloc, rows)?, show_rows(alloc, sharing)?))
}

/// The rows of the shape in the element, as they are shown, and in the same element shared.
fn shown(rt: &HostRuntime, asked: &str, given: &str) -> Result<(Vec<u8>, Vec<u8>), AllocError> {
    let (rows, sharing) = rows_asked(rt, asked, given)?;
    show_both(rt.alloc(), &rows, &sharing)
}

/// The element kept as nodes that are shared.
fn shared_nodes(alloc: Global, inner: &Element) -> Result<Nodes, AllocError> {
    let shared = shared(alloc, inner)?;
    Nodes::shared(&shared)
}

/// The nodes of an element kept as few blocks as serve.
fn few_blocks(alloc: Global, outer: &Element) -> Result<Nodes, AllocError> {
    match outer.children.as_slice() {
        [Node::Element(inner)] => shared_nodes(alloc, inner),
        _ => Nodes::of_children(alloc, outer),
    }
}

/// The nodes kept as a forest, and as few blocks as serve: one text, or one element that is shared.
fn kept(alloc: Global, given: &str, shared: bool) -> Result<Nodes, AllocError> {
    let outer = element(alloc, given)?;
    if shared {
        return few_blocks(alloc, &outer);
    }
    Ok(Nodes::new(outer.children))
}

/// Whether the nodes are those of the letters.
fn is_kept(alloc: Global, left: &Nodes, given: &str, shared: bool) -> Result<bool, AllocError> {
    let right = kept(alloc, given, shared)?;
    Ok(left.is_same(&right))
}

/// Whether the nodes of the letters are the same.
fn are_same(
    alloc: Global,
    one: &str,
    other: &str,
    shared: (bool, bool),
) -> Result<bool, AllocError> {
    let left = kept(alloc, one, shared.0)?;
    is_kept(alloc, &left, other, shared.1)
}

/// The nodes of the letters are the same however they are kept, if and only if it is wanted.
fn expect_same(
    rt: &impl Abort,
    alloc: Global,
    one: &str,
    other: &str,
    want: bool,
) -> Result<(), AllocError> {
    for shared in &[(false, false), (false, true), (true, false), (true, true)] {
        let same = are_same(alloc, one, other, *shared)?;
        assert_eq!(rt; same, want, "{one} {other}");
    }
    Ok(())
}

const GIVEN: [&str; 10] = [
    "Q", "Qa", "Qb", "Qaa", "QS.", "QT.", "QSa.", "QSa.b", "QSa.S.", "QS@a.",
];

#[test]
fn nodes_are_the_same_however_they_are_kept(rt: HostRuntime) -> Result<(), Fail> {
    for (i, one) in GIVEN.iter().enumerate() {
        for (j, other) in GIVEN.iter().enumerate() {
            expect_same(&rt, rt.alloc(), one, other, i == j)?;
        }
    }
    Ok(())
}

/// A copy of the nodes of the letters.
fn copied(alloc: Global, given: &str, shared: bool) -> Result<Nodes, AllocError> {
    let nodes = kept(alloc, given, shared)?;
    nodes.copy(alloc)
}

/// The forest of the nodes.
fn show_forest(alloc: Global, nodes: &Nodes, out: &mut Vec<u8>) -> Result<(), AllocError> {
    let forest = nodes.forest(alloc)?;
    show_nodes(forest.as_slice(), out)
}

/// The string value of the nodes.
fn show_text(alloc: Global, nodes: &Nodes, out: &mut Vec<u8>) -> Result<(), AllocError> {
    let text = nodes.string_value(alloc)?;
    out.extend_from_slice(text.as_slice())
}

/// The forest of the nodes in brackets, and their string value.
fn show_out(alloc: Global, nodes: &Nodes, out: &mut Vec<u8>) -> Result<(), AllocError> {
    out.push(b'[')?;
    show_forest(alloc, nodes, out)?;
    out.push(b']')?;
    show_text(alloc, nodes, out)
}

/// Whether a copy of the nodes of the letters is shown so.
fn is_copied_out(alloc: Global, given: &str, shared: bool, want: &str) -> Result<bool, AllocError> {
    let nodes = copied(alloc, given, shared)?;
    let mut out = Vec::new(alloc);
    show_out(alloc, &nodes, &mut out)?;
    Ok(out.as_slice() == want.as_bytes())
}

/// Letters, and how a copy of their nodes is shown.
const COPIED: [(&str, &str); 5] = [
    ("Q", "[]"),
    ("Qa", "[a]a"),
    ("QSa.", "[S(a)]a"),
    ("QSaTb.c.", "[S(aT(b)c)]a b c"),
    ("QSa.b", "[S(a)b]a b"),
];

#[test]
fn nodes_are_copied_out(rt: HostRuntime) -> Result<(), Fail> {
    for (given, want) in &COPIED {
        for shared in &[false, true] {
            let right = is_copied_out(rt.alloc(), given, *shared, want)?;
            assert!(rt; right, "{given} {shared}");
        }
    }
    Ok(())
}

const QUOTE: &str = "Q@Sa.Tx.Ty.NP1.P2..E.";

/// Shapes, and the rows that they have in the quote.
const SHAPES: [(&str, &str); 28] = [
    // a row for each child of the name, in order
    ("QS=.", "[a];"),
    ("QT=.", "[x];[y];"),
    ("QZ=.", ""),
    ("RS=.", ""),
    // two parts may choose one child, and the first varies slowest
    ("QT=.T=.", "[x][x];[x][y];[y][x];[y][y];"),
    ("QS=.T=.", "[a][x];[a][y];"),
    ("QT=.S=.", "[x][a];[y][a];"),
    ("QT=.Z=.", ""),
    ("QZ=.T=.", ""),
    // parts in parts
    ("QNP=..T=.", "[1][x];[1][y];[2][x];[2][y];"),
    ("QNP=.P=..", "[1][1];[1][2];[2][1];[2][2];"),
    ("QNP=.Z=..T=.", ""),
    // empty parts: a choice without a value
    ("Q", ";"),
    ("QT.", ";;"),
    ("QT.S=.", "[a];[a];"),
    // the value of an element: its children
    ("QE=.", "[];"),
    ("QN=.", "[P(1)P(2)];"),
    ("Q=", "[S(a)T(x)T(y)N(P(1)P(2))E()];"),
    // attributes first, the suffix last
    ("Qi", "\"7\";"),
    ("Qii", "\"7\"\"7\";"),
    ("Qij", ""),
    ("QTi=.", ""),
    ("QiT=.", "\"7\"[x];\"7\"[y];"),
    ("QS=!.", "[a][S(a)];"),
    ("QS=~.", "[a][a];"),
    ("QE~.T=.", "[][x];[][y];"),
    ("QiN~.S=!.", "\"7\"[P(1)P(2)][a][S(a)];"),
    ("QiS=.!", "\"7\"[a][Q(S(a)T(x)T(y)N(P(1)P(2))E())];"),
];

/// Whether the rows of the shape in the quote are shown so, and those in the same quote shared.
fn are_shown(rt: &HostRuntime, asked: &str, want: &str) -> Result<(bool, bool), AllocError> {
    let (rows, sharing) = shown(rt, asked, QUOTE)?;
    Ok((
        rows.as_slice() == want.as_bytes(),
        sharing.as_slice() == want.as_bytes(),
    ))
}

#[test]
fn each_shape_has_these_rows_in_the_quote(rt: HostRuntime) -> Result<(), Fail> {
    for (asked, want) in &SHAPES {
        let (plain, sharing) = are_shown(&rt, asked, want)?;
        assert!(rt; plain, "{asked}");
        assert!(rt; sharing, "{asked}");
    }
    Ok(())
}

/// A letter for each value of the first row: how it is kept.
fn kinds(alloc: Global, rows: &Rows) -> Result<Vec<u8>, AllocError> {
    let mut out = Vec::new(alloc);
    let Some(row) = rows.get(0) else {
        return Ok(out);
    };
    for slot in 0..row.len() {
        out.push(match row.value(slot) {
            Value::Text(_) => b'"',
            Value::Nodes(nodes) => match nodes.shown() {
                Shown::Forest(_) => b'f',
                Shown::Text(_) => b't',
                Shown::Element(_) => b'e',
            },
        })?;
    }
    Ok(out)
}

/// The values of the first row are kept so.
fn expect_kinds(
    rt: &impl Abort,
    alloc: Global,
    rows: &Rows,
    want: &[u8],
) -> Result<(), AllocError> {
    assert!(rt; kinds(alloc, rows)?.as_slice() == want);
    Ok(())
}

#[test]
fn the_whole_element_alone_is_shared(rt: HostRuntime) -> Result<(), Fail> {
    let (rows, sharing) = rows_asked(&rt, "QiS=!.N=.!", QUOTE)?;
    expect_kinds(&rt, rt.alloc(), &rows, b"\"tfff")?;
    expect_kinds(&rt, rt.alloc(), &sharing, b"\"tffe")?;
    Ok(())
}

#[test]
fn a_part_is_found_32_elements_deep(rt: HostRuntime) -> Result<(), Fail> {
    let given = "AAAAAAAAAAAAAAAAAAAAAAAAAAAAAAAAx...............................";
    let asked = "AAAAAAAAAAAAAAAAAAAAAAAAAAAAAAAA=...............................";
    let other = "AAAAAAAAAAAAAAAAAAAAAAAAAAAAAAAB=...............................";
    assert!(rt; shown(&rt, asked, given)?.0.as_slice() == b"[x];".as_slice());
    assert!(rt; shown(&rt, other, given)?.0.is_empty());
    Ok(())
}

fn mark(holds: bool) -> u8 {
    if holds { b'+' } else { b'-' }
}

/// The second row joined behind the first.
fn show_joined<L: Ledger>(
    alloc: Global,
    one: &Row,
    two: &Row,
    out: &mut Vec<u8>,
    steps: &mut Steps<L>,
) -> Result<(), AllocError> {
    let row = one.join(alloc, two, steps)?;
    show_row(alloc, &row, out)
}

/// Whether the first value of the row has the atom.
fn has_atom(row: &Row, atom: &Atom) -> Result<bool, AllocError>
    requires { length row.now ≡ 1 }
{
    let key = row.slot_atom(0)?;
    Ok(same(key.get(), atom))
}

/// Whether the row has the atom `x`, where it has one value.
fn show_atom(alloc: Global, row: &Row, out: &mut Vec<u8>) -> Result<(), AllocError> {
    if row.len() == 1 {
        let atom = atom_of(alloc, b"x")?;
        out.push(mark(has_atom(row, &atom)?))?;
    }
    Ok(())
}

/// The second row joined behind a copy of the first, and whether the copy is the first, and not the
/// second, and has its atom.
fn show_copy<L: Ledger>(
    alloc: Global,
    one: &Row,
    two: &Row,
    out: &mut Vec<u8>,
    steps: &mut Steps<L>,
) -> Result<(), AllocError> {
    let copy = one.copy(alloc, steps)?;
    show_joined(alloc, &copy, two, out, steps)?;
    out.push(mark(copy == *one && !copy.equal(two)))?;
    show_atom(alloc, &copy, out)
}

/// What is shown of a copy of the first row and of the second.
fn joined<L: Ledger>(rt: &HostRuntime, rows: &Rows, blank: Blank) -> Result<Vec<u8>, AllocError>
    requires name { blank.name ≡ L.name }
    requires parts { blank.parts ≡ L.parts }
    requires some { 0 < L.parts }
{
    let mut steps = Steps::<L>::new(rt, blank);
    let mut out = Vec::new(rt.alloc());
    if let (Some(one), Some(two)) = (rows.get(0), rows.get(1)) {
        show_copy(rt.alloc(), one, two, &mut out, &mut steps)?;
    }
    Ok(out)
}

#[test]
fn rows_are_copied_and_joined(rt: HostRuntime) -> Result<(), Fail> {
    let (rows, _) = rows_asked(&rt, "QT=.", QUOTE)?;
    let out = joined::<Brand>(&rt, &rows, Blank::new(1))?;
    assert!(rt; out.as_slice() == b"[x][y];++".as_slice());
    Ok(())
}

/// `P=~`
#[tactic(auto, using(crate::proofs::ShapeLaws::shape_is))]
fn content_part(alloc: Global) -> Result<Shape, AllocError>
    ensures { IfOk result (λ s. width s ≡ 2) }
{
    let tag = tag_path(alloc, b"P")?;
    Ok(Shape {
        tag,
        attributes: Names::new(alloc),
        content: ShapeContent::Value,
        suffix: ShapeSuffix::Content,
    })
}

/// `NP=.P=~.`
fn inner_shape(alloc: Global) -> Result<Shape, AllocError>
    ensures { IfOk result (λ s. width s ≡ 3) }
{
    let mut parts = Shapes::new(alloc);
    parts.push(value_shape(alloc, b"P")?)?;
    parts.push(content_part(alloc)?)?;
    shape_with(alloc, b"N", Names::new(alloc), parts, ShapeSuffix::Plain)
}

/// `NP=.P=~.`, and `T`.
fn outer_parts(alloc: Global) -> Result<Shapes, AllocError>
    ensures { IfOk result (λ parts. sum_by width parts ≡ 3) }
{
    let mut parts = Shapes::new(alloc);
    parts.push(inner_shape(alloc)?)?;
    let (attributes, none) = (Names::new(alloc), Shapes::new(alloc));
    parts.push(shape_with(alloc, b"T", attributes, none, ShapeSuffix::Plain)?)?;
    Ok(parts)
}

/// `QiNP=.P=~..T.!`: the attribute, two values of `P`, the children of one, and the element.
fn outer_shape(alloc: Global) -> Result<Shape, AllocError>
    ensures { IfOk result (λ s. width s ≡ 5) }
{
    let mut attributes = Names::new(alloc);
    attributes.push(bytes_of(alloc, b"i")?)?;
    let parts = outer_parts(alloc)?;
    shape_with(alloc, b"Q", attributes, parts, ShapeSuffix::Element)
}

/// Whether a copy of the shape is the shape.
fn is_copied(alloc: Global, one: &Shape) -> Result<bool, AllocError> {
    let copy = one.copy(alloc)?;
    Ok(*one == copy)
}

/// Whether the shape of the letters is another.
fn differs(alloc: Global, one: &Shape, letters: &str) -> Result<bool, AllocError> {
    let other = shape(alloc, letters)?;
    Ok(*one != other)
}

/// Whether the shape is that of `outer_shape`, with its width.
fn is_counted(alloc: Global, one: &Shape) -> Result<bool, AllocError> {
    let counted = outer_shape(alloc)?;
    Ok(*one == counted && width(&counted) == 5)
}

fn expect_shape(rt: &impl Abort, alloc: Global, one: &Shape) -> Result<(), AllocError> {
    assert!(rt; is_copied(alloc, one)?);
    assert!(rt; differs(alloc, one, "QiNP=.P=!..T.!")?);
    assert!(rt; is_counted(alloc, one)?);
    Ok(())
}

#[test]
fn shapes_are_copied_and_have_a_width(rt: HostRuntime) -> Result<(), Fail> {
    let one = shape(rt.alloc(), "QiNP=.P=~..T.!")?;
    expect_shape(&rt, rt.alloc(), &one)?;
    Ok(())
}
