//! The rows of a shape whose parts are names of children, taken from the lines of an element.
//!
//! So are most shapes, and most values are one text. Such rows need no tree of the element.
ghost use Rattle.std.specs.Prelude.{◌≡◌, ◌++◌, [], ◌∷◌, ℕ, List, map};
ghost use Rattle.std.specs.Prelude.{IfOk, OnOk, IfSome, IsTrue};
ghost use Rattle.ncq_base.specs.Lines.{lines_in};
ghost use Rattle.ncq_tree.specs.declared.model.Element.{Element};
ghost use Rattle.ncq_flat.specs.Insides.{inside_of};
ghost use Rattle.ncq_row.specs.ByNames.{child_rows, named_rows};
ghost use Rattle.ncq_row.specs.Embeddings.{paired, one_of_each, suffix_rows, content_rows};
ghost use Rattle.ncq_row.specs.Embeddings.{rows_at, rows_from, rows_of};

use crate::nodes::Nodes;
use crate::product::{followed, only, paired, row_of};
use crate::row::{Row, Rows};
use crate::shape::{Shape, ShapeContent, ShapeSuffix};
use crate::value::Value;
use ncq_base::{Bytes, Shared, unescape};
use ncq_flat::{Written, behind, first_inside, is_bare, lone_text};
use ncq_path::Path;
use ncq_tree::Forest;
use std::alloc::{AllocError, Global};

/// The name of a child, and whether its value is taken.
#[derive(Drop)]
struct ChildName<'a> {
    name: &'a Bytes,
    valued: bool,
}

/// The rows of the shape in the element, taken from its lines, where the shape is the values of
/// children by names: its path one name, no attributes, each part the name of a child with its
/// value or without; and where each such value is one text or empty. None where the shape or the
/// element is of another form. In an element of another name a shape has no rows, whatever it asks.
pub(crate) fn rows_by_names(
    alloc: Global,
    shape: &Shape,
    element: &Shared<Written>,
) -> Result<Option<Rows>, AllocError>
    ensures { IfOk result (λ found. IfSome found (λ rows. rows ≡ rows_of shape.now element.now)) }
{
    let Path::Tag(name) = &shape.tag else {
        return Ok(None);
    };
    if element.get().name() != name.as_slice() {
        return Ok(Some(Rows::new(alloc)));
    }
    match parts_by_names(shape) {
        Some(parts) => found_at(alloc, parts, shape.suffix, element),
        None => Ok(None),
    }
}

/// The parts of the shape, where it asks for no attributes and each part is a name.
fn parts_by_names(shape: &Shape) -> Option<&[Shape]>
    ensures { IfSome result (λ parts. (e : Element) → rows_at shape.now e
        ≡ paired (one_of_each (map (λ part. rows_from part e) parts.now))
        (suffix_rows shape.now.suffix e)) }
{
    if shape.attributes.len() != 0 {
        return None;
    }
    match &shape.content {
        ShapeContent::Parts(parts) if are_named(parts.as_slice()) => Some(parts.as_slice()),
        _ => None,
    }
}

/// Whether each part is a name.
fn are_named(parts: &[Shape]) -> bool {
    parts.iter().all(|part| child_name_of(part).is_some())
}

/// The part as a name, where it is nothing else.
fn child_name_of(part: &Shape) -> Option<ChildName<'_>>
    ensures { IfSome result (λ child. (e : Element)
        → rows_from part.now e ≡ named_rows child.name.now child.valued e) }
{
    let Path::Tag(name) = &part.tag else {
        return None;
    };
    if !is_content_alone(part) {
        return None;
    }
    let valued = takes_value(&part.content)?;
    Some(ChildName { name, valued })
}

/// Whether the part takes nothing but its content.
fn is_content_alone(part: &Shape) -> bool
    ensures { IsTrue result → (e : Element) → rows_at part.now e ≡ content_rows part.now.content e }
{
    match part.suffix {
        ShapeSuffix::Plain => part.attributes.len() == 0,
        _ => false,
    }
}

/// Whether the content takes the value: none where it has parts.
fn takes_value(content: &ShapeContent) -> Option<bool>
    ensures { IfSome result (λ valued. (e : Element)
        → content_rows content.now e ≡ child_rows valued e) }
{
    match content {
        ShapeContent::Value => Some(true),
        ShapeContent::Parts(parts) => {
            if parts.len() != 0 {
                return None;
            }
            Some(false)
        }
    }
}

/// What the parts give in the element, with it behind where the suffix takes it.
fn found_at(
    alloc: Global,
    parts: &[Shape],
    suffix: ShapeSuffix,
    element: &Shared<Written>,
) -> Result<Option<Rows>, AllocError>
    ensures { IfOk result (λ found. IfSome found (λ rows. rows
        ≡ paired (one_of_each (map (λ part. rows_from part element.now) parts.now))
        (suffix_rows suffix element.now))) }
{
    match suffix {
        ShapeSuffix::Plain => found_in_parts(alloc, parts, element.get().inside()),
        ShapeSuffix::Element => {
            match found_in_parts(alloc, parts, element.get().inside())? {
                Some(rows) => Ok(Some(followed_by_whole(alloc, rows, element)?)),
                None => Ok(None),
            }
        }
        ShapeSuffix::Content => Ok(None),
    }
}

/// The rows, each with the element behind.
fn followed_by_whole(
    alloc: Global,
    rows: Rows,
    element: &Shared<Written>,
) -> Result<Rows, AllocError>
    ensures { IfOk result (λ all.
        all ≡ paired rows (suffix_rows ShapeSuffix.Element element.now)) }
{
    if rows.len() == 0 {
        return Ok(rows);
    }
    let whole = Nodes::shared(element)?;
    followed(alloc, rows, Some(Value::Nodes(whole)))
}

/// What the parts give in the element inside which the text begins.
fn found_in_parts(alloc: Global, parts: &[Shape], inside: &[u8]) -> Result<Option<Rows>, AllocError>
    ensures { (e : Element) (more : List (List ℕ)) → lines_in inside.now ≡ inside_of e more
        → IfOk result (λ found. IfSome found (λ rows.
        rows ≡ one_of_each (map (λ part. rows_from part e) parts.now))) }
{
    match found_of_each(alloc, parts, inside)? {
        Some(each) => Ok(Some(joined(alloc, each)?)),
        None => Ok(None),
    }
}

/// What each of the parts gives in the element inside which the text begins.
fn found_of_each(
    alloc: Global,
    parts: &[Shape],
    inside: &[u8],
) -> Result<Option<Vec<Rows>>, AllocError>
    ensures { (e : Element) (more : List (List ℕ)) → lines_in inside.now ≡ inside_of e more
        → IfOk result (λ found. IfSome found (λ each.
        each.items ≡ map (λ part. rows_from part e) parts.now)) }
{
    let mut each = Vec::with_capacity(alloc, parts.len())?;
    for part in parts {
        match found_from(alloc, part, inside)? {
            Some(rows) => each.push(rows)?,
            None => return Ok(None),
        }
    }
    Ok(Some(each))
}

/// One of each, in order, joined. Where one is empty nothing is joined, and the rows of the first
/// are not copied.
fn joined(alloc: Global, each: Vec<Rows>) -> Result<Rows, AllocError>
    ensures { IfOk result (λ rows. rows ≡ one_of_each each.items) }
{
    if has_none(each.as_slice()) {
        return Ok(Rows::new(alloc));
    }
    let mut others = each.into_iter();
    let Some(first) = others.next() else {
        return only(alloc, Row::new(alloc));
    };
    let mut rows = first;
    while let Some(found) = others.next() {
        rows = paired(alloc, rows, found)?;
    }
    Ok(rows)
}

/// Whether one is empty.
fn has_none(each: &[Rows]) -> bool
    ensures { IsTrue result → one_of_each each.now ≡ [] }
{
    for rows in each {
        if rows.len() == 0 {
            return true;
        }
    }
    false
}

/// What the part gives in the element inside which the text begins.
fn found_from(alloc: Global, part: &Shape, inside: &[u8]) -> Result<Option<Rows>, AllocError>
    ensures { (e : Element) (more : List (List ℕ)) → lines_in inside.now ≡ inside_of e more
        → IfOk result (λ found. IfSome found (λ rows. rows ≡ rows_from part.now e)) }
{
    match child_name_of(part) {
        Some(child) => found_named(alloc, child.name.as_slice(), child.valued, inside),
        None => Ok(None),
    }
}

/// What the children of the name give, in document order.
fn found_named(
    alloc: Global,
    name: &[u8],
    valued: bool,
    inside: &[u8],
) -> Result<Option<Rows>, AllocError>
    ensures { (e : Element) (more : List (List ℕ)) → lines_in inside.now ≡ inside_of e more
        → IfOk result (λ found. IfSome found (λ rows. rows ≡ named_rows name.now valued e)) }
{
    let mut all = Rows::new(alloc);
    let mut rest = inside;
    while let Some(child) = first_inside(rest, name) {
        match row_of_child(alloc, valued, child)? {
            Some(row) => add_row(alloc, row, &mut all)?,
            None => return Ok(None),
        }
        rest = behind(child);
    }
    Ok(Some(all))
}

/// Appends the row. As there is mostly one, room for one is taken first.
fn add_row(alloc: Global, row: Row, all: &mut Rows) -> Result<(), AllocError>
    ensures { OnOk result (all.new ≡ all.old ++ row ∷ []) }
{
    if all.len() == 0 {
        *all = only(alloc, row)?;
        return Ok(());
    }
    all.push(row)
}

/// The row of the child inside which the text begins.
fn row_of_child(alloc: Global, valued: bool, text: &[u8]) -> Result<Option<Row>, AllocError>
    ensures { (e : Element) (more : List (List ℕ)) → lines_in text.now ≡ inside_of e more
        → IfOk result (λ found. IfSome found (λ row. row ∷ [] ≡ child_rows valued e)) }
{
    if !valued {
        return Ok(Some(Row::new(alloc)));
    }
    match value_of_child(alloc, text)? {
        Some(value) => Ok(Some(row_of(alloc, value)?)),
        None => Ok(None),
    }
}

/// The children of the element inside which the text begins, where they are one text or none.
fn value_of_child(alloc: Global, text: &[u8]) -> Result<Option<Value>, AllocError>
    ensures { (e : Element) (more : List (List ℕ)) → lines_in text.now ≡ inside_of e more
        → IfOk result (λ found. IfSome found (λ value. value ≡ Value.Nodes e.children)) }
{
    if let Some(escaped) = lone_text(text) {
        let said = unescape(alloc, escaped)?;
        return Ok(Some(Value::Nodes(Nodes::of_text(said))));
    }
    if is_bare(text) {
        return Ok(Some(Value::Nodes(Nodes::new(Forest::new(alloc)))));
    }
    Ok(None)
}
