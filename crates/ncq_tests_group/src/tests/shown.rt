//! Normal queries as texts.
//!
//! An arm is its source and its shape, then ` 0="A"` for a slot with a constant, ` 1 in [2,3)` for
//! a slot in an interval and ` 0~1` for a pair. A check compares a slot, as `#0`, with a slot or a
//! constant, or asks a predicate of it, as `#0 satisfies starts "A"`. A template shows a slot as
//! `#0` and a text in single quotation marks.

use ncq_base::{Bytes, End, Interval, Op, write_atom, write_decimal, write_number};
use ncq_path::write_path;
use ncq_plan::{Arm, Check, NormalQuery, Side, SlotTemplate, SlotText, Test};
use ncq_row::{Shape, ShapeContent, ShapeSuffix};
use std::alloc::AllocError;

fn add(out: &mut Vec<u8>, text: &str) -> Result<(), AllocError> {
    out.extend_from_slice(text.as_bytes())
}

fn add_bytes(
    out: &mut Vec<u8>,
    before: &str,
    bytes: &Bytes,
    behind: &str,
) -> Result<(), AllocError> {
    add(out, before)?;
    out.extend_from_slice(bytes.as_slice())?;
    add(out, behind)
}

fn add_slot(out: &mut Vec<u8>, before: &str, slot: usize) -> Result<(), AllocError> {
    add(out, before)?;
    write_decimal(slot as u64, out)
}

#[cycle(shapes)]
fn add_shape(out: &mut Vec<u8>, shape: &Shape) -> Result<(), AllocError> {
    write_path(&shape.tag, out)?;
    for name in shape.attributes.as_slice() {
        add_bytes(out, "@", name, "")?;
    }
    add_content(out, &shape.content)?;
    match shape.suffix {
        ShapeSuffix::Plain => Ok(()),
        ShapeSuffix::Element => add(out, "!e"),
        ShapeSuffix::Content => add(out, "!c"),
    }
}

#[cycle(shapes)]
fn add_content(out: &mut Vec<u8>, content: &ShapeContent) -> Result<(), AllocError> {
    match content {
        ShapeContent::Value => add(out, "="),
        ShapeContent::Parts(parts) => add_shapes(out, parts.as_slice()),
    }
}

#[cycle(shapes)]
fn add_shapes(out: &mut Vec<u8>, shapes: &[Shape]) -> Result<(), AllocError> {
    add(out, "(")?;
    for shape in shapes {
        add_shape(out, shape)?;
    }
    add(out, ")")
}

fn add_low(out: &mut Vec<u8>, low: End) -> Result<(), AllocError> {
    match low {
        End::Unbounded => add(out, "(-"),
        End::Included(n) => {
            add(out, "[")?;
            write_number(n, out)
        }
        End::Excluded(n) => {
            add(out, "(")?;
            write_number(n, out)
        }
    }
}

fn add_high(out: &mut Vec<u8>, high: End) -> Result<(), AllocError> {
    match high {
        End::Unbounded => add(out, "-)"),
        End::Included(n) => {
            write_number(n, out)?;
            add(out, "]")
        }
        End::Excluded(n) => {
            write_number(n, out)?;
            add(out, ")")
        }
    }
}

fn add_interval(out: &mut Vec<u8>, interval: Interval) -> Result<(), AllocError> {
    add_low(out, interval.low)?;
    add(out, ",")?;
    add_high(out, interval.high)
}

fn add_arm(out: &mut Vec<u8>, arm: &Arm) -> Result<(), AllocError> {
    add_bytes(out, "", &arm.source, ":")?;
    add_shape(out, arm.shape.get())?;
    for equal in arm.equals.as_slice() {
        add_slot(out, " ", equal.slot)?;
        add(out, "=")?;
        write_atom(&equal.constant, out)?;
    }
    for range in arm.ranges.as_slice() {
        add_slot(out, " ", range.slot)?;
        add(out, " in ")?;
        add_interval(out, range.interval)?;
    }
    for pair in arm.pairs.as_slice() {
        add_slot(out, " ", pair.left)?;
        add_slot(out, "~", pair.right)?;
    }
    Ok(())
}

fn mark_of(op: Op) -> &'static str {
    match op {
        Op::Eq => " = ",
        Op::Ne => " != ",
        Op::Lt => " < ",
        Op::Le => " <= ",
        Op::Gt => " > ",
        Op::Ge => " >= ",
    }
}

fn add_test(out: &mut Vec<u8>, test: &Test) -> Result<(), AllocError> {
    add_slot(out, "#", test.left)?;
    add(out, mark_of(test.op))?;
    match &test.right {
        Side::Slot(slot) => add_slot(out, "#", *slot),
        Side::Constant(constant) => write_atom(constant, out),
    }
}

fn add_check(out: &mut Vec<u8>, check: &Check) -> Result<(), AllocError> {
    match check {
        Check::Compare(test) => add_test(out, test),
        Check::Satisfies {
            slot,
            predicate,
            argument,
        } => {
            add_slot(out, "#", *slot)?;
            add_bytes(out, " satisfies ", predicate, " ")?;
            write_atom(argument, out)
        }
    }
}

#[cycle(templates)]
fn add_template(out: &mut Vec<u8>, template: &SlotTemplate) -> Result<(), AllocError> {
    match template {
        SlotTemplate::Slot(slot) => add_slot(out, "#", *slot),
        SlotTemplate::Text(text) => add_bytes(out, "'", text, "'"),
        SlotTemplate::Element {
            tag,
            attributes,
            content,
        } => {
            add_bytes(out, "<", tag, "")?;
            for attribute in attributes.as_slice() {
                add_bytes(out, " ", &attribute.name, "=")?;
                match &attribute.value {
                    SlotText::Slot(slot) => add_slot(out, "#", *slot)?,
                    SlotText::Text(text) => add_bytes(out, "'", text, "'")?,
                }
            }
            add_templates(out, content.as_slice())
        }
    }
}

#[cycle(templates)]
fn add_templates(out: &mut Vec<u8>, templates: &[SlotTemplate]) -> Result<(), AllocError> {
    add(out, "(")?;
    for template in templates {
        add_template(out, template)?;
    }
    add(out, ")>")
}

/// The arms, each with `; ` behind it, the checks likewise, and the template.
pub(super) fn add_query(out: &mut Vec<u8>, query: &NormalQuery) -> Result<(), AllocError> {
    for arm in query.arms.as_slice() {
        add_arm(out, arm)?;
        add(out, "; ")?;
    }
    for check in query.residual.as_slice() {
        add_check(out, check)?;
        add(out, "; ")?;
    }
    add_template(out, &query.template)
}
