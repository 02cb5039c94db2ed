//! The rows of a shape in an element.
//!
//! Where a shape has more than one part, a look ahead tells first whether each of them is found. So
//! no rows are joined where a part is found nowhere.
ghost use Rattle.std.specs.Prelude.{◌≡◌, ◌++◌, [], ◌∷◌, ◌+◌, ◌≤◌, length, map};
ghost use Rattle.std.specs.Prelude.{IfOk, OnOk, OnErr, true, if◌then◌else◌};
ghost use Rattle.std.specs.List.{flat_map, list_all};
ghost use Rattle.std.specs.Option.{option_to_list};
ghost use Rattle.ncq_row.specs.Embeddings.{paired, one_of_each};
ghost use Rattle.ncq_row.specs.Embeddings.{attribute_rows, suffix_rows, content_rows};
ghost use Rattle.ncq_row.specs.Embeddings.{rows_at, rows_among, rows_from, rows_of};
ghost use Rattle.ncq_row.specs.Formed.{shape_is_formed, content_is_formed};
ghost use Rattle.ncq_row.specs.Found.{option_rows, found_elements};
ghost use Rattle.ncq_row.specs.Subjects.{IsSubject, element_of};

use crate::attributes::attribute_values;
use crate::by_names::rows_by_names;
use crate::lookahead::are_found;
use crate::nodes::Nodes;
use crate::product::{append_found, followed, only, paired, preceded, row_of};
use crate::reach::{Reached, reached_by_arm, reached_by_part};
use crate::row::{Row, Rows};
use crate::shape::{Shape, ShapeContent, ShapeSuffix};
use crate::subject::Subject;
use crate::value::Value;
use ncq_base::{Bytes, Shared, Steps};
use ncq_flat::Written;
use ncq_path::Path;
use ncq_tree::{Element, Node};
use std::alloc::{AllocError, Global};
use std::sync::ledger::Ledger;

/// Appends one row for each embedding of the shape in the element, with the values at the places of
/// the shape in reading order: attributes, then parts or the value, then suffix. The choice of the
/// first part varies slowest.
pub fn match_shape<L: Ledger>(
    alloc: Global,
    shape: &Shape,
    element: &Element,
    rows: &mut Rows,
    steps: &mut Steps<L>,
) -> Result<(), AllocError>
    requires { shape_is_formed shape.now ≡ true }
    ensures ok { OnOk result (rows.new ≡ rows.old ++ rows_of shape.now element.now) }
    ensures err { OnErr result (rows.new ≡ rows.old) }
    ensures counted { OnOk result (steps.new ≡ steps.old + length (rows_of shape.now element.now)) }
    ensures cost { steps.new ≤ steps.old + length (rows_of shape.now element.now) }
{
    let found = found_in(alloc, shape, Subject::Lone(element))?;
    append_counted(found, rows, steps)
}

/// The same for an element that is shared: where the suffix of the shape takes the whole element,
/// the rows share it.
pub fn match_written<L: Ledger>(
    alloc: Global,
    shape: &Shape,
    element: &Shared<Written>,
    rows: &mut Rows,
    steps: &mut Steps<L>,
) -> Result<(), AllocError>
    requires { shape_is_formed shape.now ≡ true }
    ensures ok { OnOk result (rows.new ≡ rows.old ++ rows_of shape.now element.now) }
    ensures err { OnErr result (rows.new ≡ rows.old) }
    ensures counted { OnOk result (steps.new ≡ steps.old + length (rows_of shape.now element.now)) }
    ensures cost { steps.new ≤ steps.old + length (rows_of shape.now element.now) }
{
    let found = found_in_written(alloc, shape, element)?;
    append_counted(found, rows, steps)
}

/// Appends the rows that were found, and counts them.
fn append_counted<L: Ledger>(
    found: Rows,
    rows: &mut Rows,
    steps: &mut Steps<L>,
) -> Result<(), AllocError>
    ensures ok { OnOk result (rows.new ≡ rows.old ++ found) }
    ensures err { OnErr result (rows.new ≡ rows.old) }
    ensures counted { OnOk result (steps.new ≡ steps.old + length found) }
    ensures cost { steps.new ≤ steps.old + length found }
{
    let made = found.len();
    append_found(rows, found)?;
    count(made, steps);
    Ok(())
}

/// A step for each of so many rows.
fn count<L: Ledger>(made: usize, steps: &mut Steps<L>)
    ensures { steps.new ≡ steps.old + made }
{
    for _ in 0..made {
        steps.tick();
    }
}

/// What the shape gives in the shared element: taken from its lines where they tell, or else from a
/// tree that is made of it once.
fn found_in_written(
    alloc: Global,
    shape: &Shape,
    element: &Shared<Written>,
) -> Result<Rows, AllocError>
    requires { shape_is_formed shape.now ≡ true }
    ensures { IfOk result (λ rows. rows ≡ rows_of shape.now element.now) }
{
    if let Some(rows) = rows_by_names(alloc, shape, element)? {
        return Ok(rows);
    }
    let tree = element.get().element(alloc)?;
    found_in(alloc, shape, Subject::Shared(element, &tree))
}

/// What the shape gives in the subject.
fn found_in(alloc: Global, shape: &Shape, subject: Subject<'_>) -> Result<Rows, AllocError>
    requires formed { shape_is_formed shape.now ≡ true }
    requires subject { IsSubject subject }
    ensures { IfOk result (λ rows. rows ≡ rows_of shape.now (element_of subject.entry)) }
{
    match &shape.tag {
        Path::Tag(name) => found_in_named(alloc, shape, name, subject),
        _ => found_in_reached(alloc, shape, subject),
    }
}

/// The same for a shape whose path is one name.
fn found_in_named(
    alloc: Global,
    shape: &Shape,
    name: &Bytes,
    subject: Subject<'_>,
) -> Result<Rows, AllocError>
    requires formed { shape_is_formed shape.now ≡ true }
    requires named { shape.now.tag ≡ Path.Tag name.now }
    requires subject { IsSubject subject }
    ensures { IfOk result (λ rows. rows ≡ rows_of shape.now (element_of subject.entry)) }
{
    if subject.element().name != *name {
        return Ok(Rows::new(alloc));
    }
    found_at(alloc, shape, subject)
}

/// The same for a shape with any path.
fn found_in_reached(alloc: Global, shape: &Shape, subject: Subject<'_>) -> Result<Rows, AllocError>
    requires formed { shape_is_formed shape.now ≡ true }
    requires subject { IsSubject subject }
    ensures { IfOk result (λ rows. rows ≡ rows_of shape.now (element_of subject.entry)) }
{
    let reached = reached_by_arm(alloc, &shape.tag, subject.element())?;
    found_at_reached(alloc, shape, subject, reached)
}

/// What the shape gives at this subject, wherever its path leads.
#[cycle(matching)]
#[tactic(auto, using(crate::proofs::CallerLemmas::rows_are))]
fn found_at(alloc: Global, shape: &Shape, subject: Subject<'_>) -> Result<Rows, AllocError>
    requires formed { shape_is_formed shape.now ≡ true }
    requires subject { IsSubject subject }
    ensures { IfOk result (λ rows. rows ≡ rows_at shape.now (element_of subject.entry)) }
{
    let element = subject.element();
    let Some(front) = attribute_values(
        alloc,
        shape.attributes.as_slice(),
        element.attributes.as_slice(),
    )?
    else {
        return Ok(Rows::new(alloc));
    };
    let content = found_in_content(alloc, &shape.content, element)?;
    surrounded(alloc, front, content, shape.suffix, subject)
}

/// The rows between the values of the attributes and that of the suffix.
fn surrounded(
    alloc: Global,
    front: Row,
    content: Rows,
    suffix: ShapeSuffix,
    subject: Subject<'_>,
) -> Result<Rows, AllocError>
    requires { IsSubject subject }
    ensures { IfOk result (λ rows. rows
        ≡ paired (front ∷ []) (paired content (suffix_rows suffix (element_of subject.entry)))) }
{
    if content.len() == 0 {
        return Ok(content);
    }
    let behind = suffix_value(alloc, suffix, subject)?;
    let rows = followed(alloc, content, behind)?;
    preceded(alloc, front, rows)
}

/// What the content gives at this element.
#[cycle(matching)]
#[tactic(auto, using(crate::proofs::CallerLemmas::rows_are))]
fn found_in_content(
    alloc: Global,
    content: &ShapeContent,
    element: &Element,
) -> Result<Rows, AllocError>
    requires { content_is_formed content.now ≡ true }
    ensures { IfOk result (λ rows. rows ≡ content_rows content.now element.now) }
{
    match content {
        ShapeContent::Parts(parts) => found_in_parts(alloc, parts.as_slice(), element),
        ShapeContent::Value => only(alloc, row_of(alloc, children_of(alloc, element)?)?),
    }
}

/// What the parts give at the element.
#[cycle(matching)]
fn found_in_parts(alloc: Global, parts: &[Shape], element: &Element) -> Result<Rows, AllocError>
    requires { list_all shape_is_formed parts.now ≡ true }
    ensures { IfOk result (λ rows.
        rows ≡ one_of_each (map (λ part. rows_from part element.now) parts.now)) }
{
    if parts.is_empty() {
        return only(alloc, Row::new(alloc));
    }
    if parts.len() > 1 && !are_found(parts, element) {
        return Ok(Rows::new(alloc));
    }
    let mut rows = found_from(alloc, &parts[0], element)?;
    for i in 1..parts.len() {
        let found = found_from(alloc, &parts[i], element)?;
        rows = paired(alloc, rows, found)?;
    }
    Ok(rows)
}

/// What a part gives at the elements that it may choose at the element.
#[cycle(matching)]
fn found_from(alloc: Global, part: &Shape, element: &Element) -> Result<Rows, AllocError>
    requires { shape_is_formed part.now ≡ true }
    ensures { IfOk result (λ rows. rows ≡ rows_from part.now element.now) }
{
    match &part.tag {
        Path::Tag(name) => found_among(alloc, part, name, element.children.as_slice()),
        _ => found_from_reached(alloc, part, element),
    }
}

/// The same for a part with any path.
#[cycle(matching)]
fn found_from_reached(alloc: Global, part: &Shape, element: &Element) -> Result<Rows, AllocError>
    requires { shape_is_formed part.now ≡ true }
    ensures { IfOk result (λ rows. rows ≡ rows_from part.now element.now) }
{
    let reached = reached_by_part(alloc, &part.tag, element)?;
    found_at_reached(alloc, part, Subject::Lone(element), reached)
}

/// What the shape gives at the subject, where it is reached, and at the elements below it that are.
#[cycle(matching)]
fn found_at_reached(
    alloc: Global,
    shape: &Shape,
    subject: Subject<'_>,
    reached: Reached<'_>,
) -> Result<Rows, AllocError>
    requires formed { shape_is_formed shape.now ≡ true }
    requires subject { IsSubject subject }
    ensures { IfOk result (λ rows. rows
        ≡ flat_map (rows_at shape.now) (found_elements (element_of subject.entry) reached.entry)) }
{
    let mut all = found_if(alloc, shape, subject, reached.itself)?;
    let below = reached.below.as_slice();
    for i in 0..below.len() {
        let found = found_at(alloc, shape, Subject::Lone(below[i]))?;
        append_found(&mut all, found)?;
    }
    Ok(all)
}

/// What the shape gives at the subject, where it is reached.
#[cycle(matching)]
fn found_if(
    alloc: Global,
    shape: &Shape,
    subject: Subject<'_>,
    reached: bool,
) -> Result<Rows, AllocError>
    requires formed { shape_is_formed shape.now ≡ true }
    requires subject { IsSubject subject }
    ensures { IfOk result (λ rows. rows ≡ flat_map (rows_at shape.now)
        (if reached then element_of subject.entry ∷ [] else [])) }
{
    if !reached {
        return Ok(Rows::new(alloc));
    }
    found_at(alloc, shape, subject)
}

/// What a shape whose path is one name gives at those of the nodes that it reaches.
#[cycle(matching)]
fn found_among(
    alloc: Global,
    shape: &Shape,
    name: &Bytes,
    nodes: &[Node],
) -> Result<Rows, AllocError>
    requires formed { shape_is_formed shape.now ≡ true }
    requires named { shape.now.tag ≡ Path.Tag name.now }
    ensures { IfOk result (λ rows. rows ≡ rows_among shape.now nodes.now) }
{
    let mut all = Rows::new(alloc);
    for node in nodes {
        add_found(alloc, shape, name, node, &mut all)?;
    }
    Ok(all)
}

/// Appends what a shape whose path is one name gives at the node, where it is an element of that
/// name.
#[cycle(matching)]
fn add_found(
    alloc: Global,
    shape: &Shape,
    name: &Bytes,
    node: &Node,
    all: &mut Rows,
) -> Result<(), AllocError>
    requires formed { shape_is_formed shape.now ≡ true }
    requires named { shape.now.tag ≡ Path.Tag name.now }
    ensures { OnOk result (all.new ≡ all.old ++ rows_among shape.now (node.now ∷ [])) }
{
    match node {
        Node::Text(_) => Ok(()),
        Node::Element(element) => {
            if element.name != *name {
                return Ok(());
            }
            append_found(all, found_at(alloc, shape, Subject::Lone(element))?)
        }
    }
}

/// The value that the suffix takes, if it takes one.
fn suffix_value(
    alloc: Global,
    suffix: ShapeSuffix,
    subject: Subject<'_>,
) -> Result<Option<Value>, AllocError>
    requires { IsSubject subject }
    ensures { IfOk result (λ value.
        option_to_list value ∷ [] ≡ suffix_rows suffix (element_of subject.entry)) }
{
    match suffix {
        ShapeSuffix::Plain => Ok(None),
        ShapeSuffix::Element => Ok(Some(Value::Nodes(subject.whole(alloc)?))),
        ShapeSuffix::Content => Ok(Some(children_of(alloc, subject.element())?)),
    }
}

/// The children of the element.
fn children_of(alloc: Global, element: &Element) -> Result<Value, AllocError>
    ensures { IfOk result (λ value. value ≡ Value.Nodes element.now.children) }
{
    Ok(Value::Nodes(Nodes::of_children(alloc, element)?))
}
