//! Shapes and elements that several of the files make, and the rows of one in the other.
ghost use Rattle.std.specs.Prelude.{◌≡◌, ◌<◌, ◌+◌, true, length, IfOk};
ghost use Rattle.std.specs.List.{list_all, sum_by};
ghost use Rattle.ncq_path.specs.Formed.{is_formed};
ghost use Rattle.ncq_row.specs.Formed.{shape_is_formed, content_is_formed};
ghost use Rattle.ncq_row.specs.Widths.{width, suffix_width};

use ncq_base::{Copied, Lines, Shared, Steps, bytes_of, is_line};
use ncq_flat::{Asked, Item, Written, read_flat_block};
use ncq_path::{Path, is_well_formed};
use ncq_plan::SlotTemplate;
use ncq_pyx::write_element;
use ncq_row::{
    Names, Row, Rows, Shape, ShapeContent, ShapeSuffix, Shapes, match_shape, match_written,
};
use ncq_tree::{Attributes, Element, Forest, Node};
use std::alloc::{AllocError, Global};
use std::hash::RandomState;
use std::io;
use std::marker::Brand;
use std::random::RandomSource;
use std::sync::ledger::{Blank, Ledger};

/// A source of random bytes that are always the same.
struct OneSeed;

impl RandomSource for OneSeed {
    fn fill_bytes(&self, _bytes: &mut [u8]) -> io::Result<()> {
        Ok(())
    }
}

/// The seed by which files and tables are placed here.
pub fn seed() -> Result<RandomState, AllocError> {
    RandomState::new(&OneSeed).map_err(|_| AllocError)
}

/// The path of one name.
#[tactic(auto, using(crate::proofs::ShapeLaws::shape_is))]
pub fn tag_path(alloc: Global, name: &[u8]) -> Result<Path, AllocError>
    ensures { IfOk result (λ p. is_formed p ≡ true) }
{
    let name = bytes_of(alloc, name)?;
    Ok(Path::Tag(name))
}

/// The shape of the values of elements with this tag.
#[tactic(auto, using(crate::proofs::ShapeLaws::shape_is))]
pub fn value_shape(alloc: Global, tag: &[u8]) -> Result<Shape, AllocError>
    ensures width { IfOk result (λ s. width s ≡ 1) }
    ensures formed { IfOk result (λ s. shape_is_formed s ≡ true) }
{
    let tag = tag_path(alloc, tag)?;
    Ok(Shape {
        tag,
        attributes: Names::new(alloc),
        content: ShapeContent::Value,
        suffix: ShapeSuffix::Plain,
    })
}

/// The shapes of the values of elements with these tags.
pub fn value_shapes(alloc: Global, tags: &[&str]) -> Result<Shapes, AllocError> {
    let mut parts = Shapes::new(alloc);
    for tag in tags {
        parts.push(value_shape(alloc, tag.as_bytes())?)?;
    }
    Ok(parts)
}

/// A shape of these parts.
#[tactic(auto, using(crate::proofs::ShapeLaws::shape_is))]
pub fn shape_with(
    alloc: Global,
    tag: &[u8],
    attributes: Names,
    parts: Shapes,
    suffix: ShapeSuffix,
) -> Result<Shape, AllocError>
    ensures width { IfOk result (λ s.
        width s ≡ length attributes + sum_by width parts + suffix_width suffix) }
    ensures formed { IfOk result (λ s. shape_is_formed s ≡ list_all shape_is_formed parts) }
{
    let tag = tag_path(alloc, tag)?;
    Ok(Shape {
        tag,
        attributes,
        content: ShapeContent::Parts(parts),
        suffix,
    })
}

pub fn text_node(alloc: Global, text: &[u8]) -> Result<Node, AllocError> {
    let text = bytes_of(alloc, text)?;
    Ok(Node::Text(text))
}

/// An element without attributes.
pub fn element_with(alloc: Global, name: &[u8], children: Forest) -> Result<Element, AllocError> {
    let name = bytes_of(alloc, name)?;
    Ok(Element {
        name,
        attributes: Attributes::new(alloc),
        children,
    })
}

/// An element with one text.
pub fn text_element(alloc: Global, name: &[u8], text: &[u8]) -> Result<Element, AllocError> {
    let mut children = Forest::new(alloc);
    children.push(text_node(alloc, text)?)?;
    element_with(alloc, name, children)
}

/// Whether the path is well formed.
fn is_formed(path: &Path) -> bool
    ensures { result ≡ is_formed path.now }
{
    is_well_formed(path)
}

/// Whether each path of the shape is well formed.
#[cycle(forming)]
#[tactic(auto, using(crate::proofs::ShapeLaws::shape_is))]
fn shape_is_formed(shape: &Shape) -> bool
    ensures { result ≡ shape_is_formed shape.now }
{
    is_formed(&shape.tag) && content_is_formed(&shape.content)
}

/// Whether each path of the content is well formed.
#[cycle(forming)]
#[tactic(auto, using(crate::proofs::ShapeLaws::shape_is))]
fn content_is_formed(content: &ShapeContent) -> bool
    ensures { result ≡ content_is_formed content.now }
{
    match content {
        ShapeContent::Parts(parts) => shapes_are_formed(parts.as_slice()),
        ShapeContent::Value => true,
    }
}

/// Whether each path of the shapes is well formed.
#[cycle(forming)]
fn shapes_are_formed(shapes: &[Shape]) -> bool
    ensures { result ≡ list_all shape_is_formed shapes.now }
{
    for shape in shapes {
        if !shape_is_formed(shape) {
            return false;
        }
    }
    true
}

/// The rows of the shape in the element.
fn plain_rows<L: Ledger>(
    alloc: Global,
    shape: &Shape,
    element: &Element,
    steps: &mut Steps<L>,
) -> Result<Rows, AllocError>
    requires { shape_is_formed shape.now ≡ true }
{
    let mut rows = Rows::new(alloc);
    match_shape(alloc, shape, element, &mut rows, steps)?;
    Ok(rows)
}

/// The row of the value of the element.
fn rows_of_value<L: Ledger>(
    alloc: Global,
    element: &Element,
    steps: &mut Steps<L>,
) -> Result<Rows, AllocError> {
    let shape = value_shape(alloc, b"E")?;
    plain_rows(alloc, &shape, element, steps)
}

/// The one row of the text in an element.
pub fn value_rows<L: Ledger>(
    alloc: Global,
    text: &[u8],
    steps: &mut Steps<L>,
) -> Result<Rows, AllocError> {
    let element = text_element(alloc, b"E", text)?;
    rows_of_value(alloc, &element, steps)
}

/// The lines of a text, each ended by a line feed.
fn lines_of(alloc: Global, text: &[u8]) -> Result<Lines, AllocError> {
    let mut lines = Lines::new(alloc);
    for line in text.split(|b| *b == b'\n') {
        push_line(&mut lines, line)?;
    }
    Ok(lines)
}

fn push_line(lines: &mut Lines, line: &[u8]) -> Result<(), AllocError> {
    if line.is_empty() || !is_line(line) {
        return Ok(());
    }
    lines.push(line)
}

/// The element of the one item.
fn put_by(item: Option<&Item>) -> Result<Shared<Written>, AllocError> {
    match item {
        Some(item) => match item.asked() {
            Asked::Put(element) => element.share(),
            Asked::Remove(_) => Err(AllocError),
        },
        None => Err(AllocError),
    }
}

/// The element, shared, as it is read from its lines.
pub fn shared(alloc: Global, element: &Element) -> Result<Shared<Written>, AllocError> {
    let mut text = Vec::new(alloc);
    write_element(element, &mut text)?;
    let lines = lines_of(alloc, text.as_slice())?;
    let items = read_flat_block(alloc, &lines).map_err(|_| AllocError)?;
    put_by(items.get(0))
}

/// The rows of the shape in the element that is shared.
fn shared_rows<L: Ledger>(
    alloc: Global,
    shape: &Shape,
    element: &Shared<Written>,
    steps: &mut Steps<L>,
) -> Result<Rows, AllocError>
    requires { shape_is_formed shape.now ≡ true }
{
    let mut rows = Rows::new(alloc);
    match_written(alloc, shape, element, &mut rows, steps)?;
    Ok(rows)
}

/// The rows of the shape in the same element shared.
fn sharing_rows<L: Ledger>(
    alloc: Global,
    shape: &Shape,
    element: &Element,
    steps: &mut Steps<L>,
) -> Result<Rows, AllocError>
    requires { shape_is_formed shape.now ≡ true }
{
    let shared = shared(alloc, element)?;
    shared_rows(alloc, shape, &shared, steps)
}

/// The rows of the shape in the element, and behind them those in the same element shared.
fn both_rows<L: Ledger>(
    alloc: Global,
    shape: &Shape,
    element: &Element,
    steps: &mut Steps<L>,
) -> Result<(Rows, Rows), AllocError>
    requires { shape_is_formed shape.now ≡ true }
{
    let rows = plain_rows(alloc, shape, element, steps)?;
    let sharing = sharing_rows(alloc, shape, element, steps)?;
    Ok((rows, sharing))
}

/// The rows of the shape in the element, and behind them those in the same element shared.
fn rows_in<L: Ledger>(
    rt: &HostRuntime,
    shape: &Shape,
    element: &Element,
    blank: Blank,
) -> Result<(Rows, Rows), AllocError>
    requires name { blank.name ≡ L.name }
    requires parts { blank.parts ≡ L.parts }
    requires some { 0 < L.parts }
    requires formed { shape_is_formed shape.now ≡ true }
{
    let mut steps = Steps::<L>::new(rt, blank);
    both_rows(rt.alloc(), shape, element, &mut steps)
}

/// The rows of the shape in the element, and in the same element shared. Each path of the shape has
/// to be well formed.
pub fn rows_of(
    rt: &HostRuntime,
    shape: &Shape,
    element: &Element,
) -> Result<(Rows, Rows), AllocError> {
    if !shape_is_formed(shape) {
        return Err(AllocError);
    }
    rows_in::<Brand>(rt, shape, element, Blank::new(1))
}

/// A row.
pub fn some_row(rt: &HostRuntime) -> Result<Row, AllocError> {
    let shape = value_shape(rt.alloc(), b"E")?;
    let element = text_element(rt.alloc(), b"E", b"1")?;
    let (rows, _) = rows_of(rt, &shape, &element)?;
    rows.into_vec().pop().ok_or(AllocError)
}

/// The template that is a text.
pub fn text_template(alloc: Global, text: &str) -> Result<SlotTemplate, AllocError> {
    Ok(SlotTemplate::Text(bytes_of(alloc, text.as_bytes())?))
}
