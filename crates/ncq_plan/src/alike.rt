//! Whether two templates, or two lists of checks, are one.
ghost use Rattle.std.specs.Prelude.{◌≡◌, IsTrue, ◌↔◌};

use crate::residual::{Check, Side, Test};
use crate::template::{SlotAttribute, SlotTemplate, SlotText};
use ncq_base::{Bytes, Op, same};

/// Whether the two are the same checks in the same order.
pub fn same_checks(a: &[Check], b: &[Check]) -> bool
    ensures { IsTrue result ↔ (a.now ≡ b.now) }
{
    if a.len() != b.len() {
        return false;
    }
    for i in 0..a.len() {
        if !same_check(&a[i], &b[i]) {
            return false;
        }
    }
    true
}

pub(crate) fn same_check(a: &Check, b: &Check) -> bool
    ensures { IsTrue result ↔ (a.now ≡ b.now) }
{
    match (a, b) {
        (Check::Compare(test), Check::Compare(other)) => same_test(test, other),
        (
            Check::Satisfies {
                slot,
                predicate,
                argument,
            },
            Check::Satisfies {
                slot: other_slot,
                predicate: other_predicate,
                argument: other_argument,
            },
        ) => {
            slot == other_slot
                && same_bytes(predicate, other_predicate)
                && same(argument, other_argument)
        }
        _ => false,
    }
}

pub(crate) fn same_test(a: &Test, b: &Test) -> bool
    ensures { IsTrue result ↔ (a.now ≡ b.now) }
{
    same_op(a.op, b.op) && a.left == b.left && same_side(&a.right, &b.right)
}

fn same_op(a: Op, b: Op) -> bool
    ensures { IsTrue result ↔ (a ≡ b) }
{
    a == b
}

pub(crate) fn same_side(a: &Side, b: &Side) -> bool
    ensures { IsTrue result ↔ (a.now ≡ b.now) }
{
    match (a, b) {
        (Side::Slot(m), Side::Slot(n)) => m == n,
        (Side::Constant(m), Side::Constant(n)) => same(m, n),
        _ => false,
    }
}

/// Whether the two are one template.
#[cycle(alike)]
pub fn same_template(a: &SlotTemplate, b: &SlotTemplate) -> bool
    ensures { IsTrue result ↔ (a.now ≡ b.now) }
{
    match (a, b) {
        (SlotTemplate::Slot(m), SlotTemplate::Slot(n)) => m == n,
        (SlotTemplate::Text(text), SlotTemplate::Text(other)) => same_bytes(text, other),
        (
            SlotTemplate::Element {
                tag,
                attributes,
                content,
            },
            SlotTemplate::Element {
                tag: other_tag,
                attributes: others,
                content: other_content,
            },
        ) => {
            same_bytes(tag, other_tag)
                && same_attributes(attributes.as_slice(), others.as_slice())
                && same_content(content.as_slice(), other_content.as_slice())
        }
        _ => false,
    }
}

/// Whether the two are the same templates in the same order.
#[cycle(alike)]
fn same_content(a: &[SlotTemplate], b: &[SlotTemplate]) -> bool
    ensures { IsTrue result ↔ (a.now ≡ b.now) }
{
    if a.len() != b.len() {
        return false;
    }
    for i in 0..a.len() {
        if !same_template(&a[i], &b[i]) {
            return false;
        }
    }
    true
}

/// Whether the two are the same attributes in the same order.
fn same_attributes(a: &[SlotAttribute], b: &[SlotAttribute]) -> bool
    ensures { IsTrue result ↔ (a.now ≡ b.now) }
{
    if a.len() != b.len() {
        return false;
    }
    for i in 0..a.len() {
        if !same_attribute(&a[i], &b[i]) {
            return false;
        }
    }
    true
}

pub(crate) fn same_attribute(a: &SlotAttribute, b: &SlotAttribute) -> bool
    ensures { IsTrue result ↔ (a.now ≡ b.now) }
{
    same_bytes(&a.name, &b.name) && same_text(&a.value, &b.value)
}

pub(crate) fn same_text(a: &SlotText, b: &SlotText) -> bool
    ensures { IsTrue result ↔ (a.now ≡ b.now) }
{
    match (a, b) {
        (SlotText::Slot(m), SlotText::Slot(n)) => m == n,
        (SlotText::Text(text), SlotText::Text(other)) => same_bytes(text, other),
        _ => false,
    }
}

fn same_bytes(a: &Bytes, b: &Bytes) -> bool
    ensures { IsTrue result ↔ (a.now ≡ b.now) }
{
    a == b
}
