//! Whether a template makes the same of two rows, found without making it.
ghost use Rattle.std.specs.Prelude.{◌≡◌, IsTrue, map};
ghost use Rattle.std.specs.List.{flat_map};
ghost use Rattle.ncq_row.specs.Values.{value_at};
ghost use Rattle.ncq_plan.specs.Templates.{attribute_of, forest_of, text_of};

use ncq_base::Bytes;
use ncq_plan::{SlotAttribute, SlotTemplate, SlotText};
use ncq_row::{Row, Value, is_same_value};

/// Whether the template and the other, which is filled from the values, are one, and each slot has
/// one value in both. Then they make the same.
#[cycle(sharing)]
#[tactic(auto, using(crate::proofs::SharingLaws::makes_alike))]
pub(crate) fn makes_same(
    template: &SlotTemplate,
    row: &Row,
    other: &SlotTemplate,
    values: &[Value],
) -> bool
    ensures { IsTrue result → (forest_of row.now template.now ≡ forest_of values.now other.now) }
{
    match (template, other) {
        (SlotTemplate::Slot(slot), SlotTemplate::Slot(at)) => has_value(row, *slot, values, *at),
        (SlotTemplate::Text(text), SlotTemplate::Text(same)) => is_same_bytes(text, same),
        (
            SlotTemplate::Element {
                tag,
                attributes,
                content,
            },
            SlotTemplate::Element {
                tag: other_tag,
                attributes: others,
                content: other_content,
            },
        ) => {
            is_same_bytes(tag, other_tag)
                && have_same(attributes.as_slice(), row, others.as_slice(), values)
                && make_same(content.as_slice(), row, other_content.as_slice(), values)
        }
        _ => false,
    }
}

/// The same for templates one after the other.
#[cycle(sharing)]
fn make_same(content: &[SlotTemplate], row: &Row, others: &[SlotTemplate], values: &[Value]) -> bool
    ensures { IsTrue result → (flat_map (forest_of row.now) content.now
        ≡ flat_map (forest_of values.now) others.now) }
{
    if content.len() != others.len() {
        return false;
    }
    for i in 0..content.len() {
        if !makes_same(&content[i], row, &others[i], values) {
            return false;
        }
    }
    true
}

/// The same for attributes one after the other.
fn have_same(
    attributes: &[SlotAttribute],
    row: &Row,
    others: &[SlotAttribute],
    values: &[Value],
) -> bool
    ensures { IsTrue result
        → (map (attribute_of row.now) attributes.now ≡ map (attribute_of values.now) others.now) }
{
    if attributes.len() != others.len() {
        return false;
    }
    for i in 0..attributes.len() {
        if !has_same(&attributes[i], row, &others[i], values) {
            return false;
        }
    }
    true
}

/// The same for an attribute.
fn has_same(attribute: &SlotAttribute, row: &Row, other: &SlotAttribute, values: &[Value]) -> bool
    ensures { IsTrue result
        → (attribute_of row.now attribute.now ≡ attribute_of values.now other.now) }
{
    attribute.name == other.name && is_same_text(&attribute.value, row, &other.value, values)
}

/// The same for the text of an attribute.
fn is_same_text(text: &SlotText, row: &Row, other: &SlotText, values: &[Value]) -> bool
    ensures { IsTrue result → (text_of row.now text.now ≡ text_of values.now other.now) }
{
    match (text, other) {
        (SlotText::Slot(slot), SlotText::Slot(at)) => has_value(row, *slot, values, *at),
        (SlotText::Text(text), SlotText::Text(same)) => text == same,
        _ => false,
    }
}

/// Whether the row has at the slot what the values have at a place.
fn has_value(row: &Row, slot: usize, values: &[Value], at: usize) -> bool
    ensures { IsTrue result → (value_at row.now slot ≡ value_at values.now at) }
{
    if slot >= row.len() || at >= values.len() {
        return false;
    }
    is_same_value(row.value(slot), &values[at])
}

/// Whether the two are the same bytes.
fn is_same_bytes(a: &Bytes, b: &Bytes) -> bool
    ensures { IsTrue result → (a.now ≡ b.now) }
{
    a == b
}
