//! The texts of signatures.
ghost use Rattle.std.specs.Prelude.{◌≡◌, ◌++◌, ◌∷◌, [], length, take, map, codes, OnOk, OnErr};
ghost use Rattle.std.specs.Io.{StartsWith};
ghost use Rattle.ncq_base.specs.AtomTexts.{atom_text, number_text};
ghost use Rattle.ncq_signature.specs.IntervalTexts.{interval_text, low_text, high_text};
ghost use Rattle.ncq_signature.specs.SignatureTexts.{signature_text, expr_text, selection_text};
ghost use Rattle.ncq_signature.specs.SignatureTexts.{scan_text, join_text, pairs_text, pair_text};
ghost use Rattle.ncq_signature.specs.SignatureTexts.{shape_text, content_text, parts_text};
ghost use Rattle.ncq_signature.specs.SignatureTexts.{suffix_text, led_by, closing};

use crate::signature::Signature;
use ncq_base::{Atom, Bytes, write_atom, write_decimal, write_number};
use ncq_path::write_path;
use ncq_plan::{End, Expr, Interval, Pair};
use ncq_row::{Shape, ShapeContent, ShapeSuffix};
use std::alloc::AllocError;

/// Appends the text of a signature: that of the expression without the constant or the interval of
/// its outermost operator. After want of memory `out` is as before.
pub fn write_signature(signature: &Signature, out: &mut Vec<u8>) -> Result<(), AllocError>
    ensures ok { OnOk result (out.new.items ≡ out.old.items ++ signature_text signature.now) }
    ensures err { OnErr result (out.new.items ≡ out.old.items) }
{
    let before = out.len();
    let written = push_signature(signature, out);
    if written.is_err() {
        out.truncate(before);
    }
    written
}

/// Appends the text of a signature; what was there stays in front.
fn push_signature(signature: &Signature, out: &mut Vec<u8>) -> Result<(), AllocError>
    ensures ok { OnOk result (out.new.items ≡ out.old.items ++ signature_text signature.now) }
    ensures front { StartsWith out.new.items out.old.items }
{
    match signature {
        Signature::Scan { source, shape } => push_scan(source, shape, out),
        Signature::EqOn { input, slot } => push_open(b"eq(", input, *slot, out),
        Signature::RangeOn { input, slot } => push_open(b"range(", input, *slot, out),
        Signature::JoinOf { left, right, pairs } => {
            push_input(b"join(", left, out)?;
            push_input(b",", right, out)?;
            push_last(pairs.as_slice(), out)
        }
    }
}

/// Appends an operator without its constant or interval; what was there stays in front.
fn push_open(word: &[u8], input: &Expr, slot: usize, out: &mut Vec<u8>) -> Result<(), AllocError>
    ensures ok { OnOk result
        (out.new.items
        ≡ out.old.items ++ selection_text word.now (expr_text input.now) slot ++ codes ")") }
    ensures front { StartsWith out.new.items out.old.items }
{
    push_selection(word, input, slot, out)?;
    out.push(b')')?;
    Ok(())
}

/// Appends the text of an expression; what was there stays in front.
#[cycle(expr)]
fn push_expr(expr: &Expr, out: &mut Vec<u8>) -> Result<(), AllocError>
    ensures ok { OnOk result (out.new.items ≡ out.old.items ++ expr_text expr.now) }
    ensures front { StartsWith out.new.items out.old.items }
{
    match expr {
        Expr::Scan { source, shape } => push_scan(source, shape.get(), out),
        Expr::EqSel {
            input,
            slot,
            constant,
        } => {
            push_selection(b"eq(", input.get(), *slot, out)?;
            push_constant(constant, out)
        }
        Expr::RangeSel {
            input,
            slot,
            interval,
        } => {
            push_selection(b"range(", input.get(), *slot, out)?;
            push_interval(interval, out)
        }
        Expr::Join { left, right, pairs } => {
            push_input(b"join(", left.get(), out)?;
            push_input(b",", right.get(), out)?;
            push_last(pairs.as_slice(), out)
        }
    }
}

/// Appends an operator up to its slot; what was there stays in front.
#[cycle(expr)]
fn push_selection(
    word: &[u8],
    input: &Expr,
    slot: usize,
    out: &mut Vec<u8>,
) -> Result<(), AllocError>
    ensures ok { OnOk result
        (out.new.items ≡ out.old.items ++ selection_text word.now (expr_text input.now) slot) }
    ensures front { StartsWith out.new.items out.old.items }
{
    push_input(word, input, out)?;
    out.push(b',')?;
    write_decimal(slot as u64, out)
}

/// Appends a mark and an input; what was there stays in front.
#[cycle(expr)]
fn push_input(mark: &[u8], input: &Expr, out: &mut Vec<u8>) -> Result<(), AllocError>
    ensures ok { OnOk result (out.new.items ≡ out.old.items ++ mark.now ++ expr_text input.now) }
    ensures front { StartsWith out.new.items out.old.items }
{
    out.extend_from_slice(mark)?;
    push_expr(input, out)
}

/// Appends the pairs of a join and its end; what was there stays in front.
fn push_last(pairs: &[Pair], out: &mut Vec<u8>) -> Result<(), AllocError>
    ensures ok { OnOk result
        (out.new.items ≡ out.old.items ++ codes "," ++ pairs_text pairs.now ++ codes ")") }
    ensures front { StartsWith out.new.items out.old.items }
{
    out.push(b',')?;
    push_pairs(pairs, out)?;
    out.push(b')')?;
    Ok(())
}

/// Appends a constant and the end of its operator; what was there stays in front.
fn push_constant(constant: &Atom, out: &mut Vec<u8>) -> Result<(), AllocError>
    ensures ok { OnOk result
        (out.new.items ≡ out.old.items ++ codes "," ++ atom_text constant.now ++ codes ")") }
    ensures front { StartsWith out.new.items out.old.items }
{
    out.push(b',')?;
    write_atom(constant, out)?;
    out.push(b')')?;
    Ok(())
}

/// Appends the text of a scan; what was there stays in front.
fn push_scan(source: &Bytes, shape: &Shape, out: &mut Vec<u8>) -> Result<(), AllocError>
    ensures ok { OnOk result (out.new.items ≡ out.old.items ++ scan_text source.now shape.now) }
    ensures front { StartsWith out.new.items out.old.items }
{
    out.extend_from_slice(b"scan(")?;
    out.extend_from_slice(source.as_slice())?;
    out.push(b',')?;
    push_shape(shape, out)?;
    out.push(b')')?;
    Ok(())
}

/// Appends the text of a shape; what was there stays in front.
#[cycle(shape)]
#[tactic(auto, using(crate::proofs::ShapeTexts::shapes_are))]
fn push_shape(shape: &Shape, out: &mut Vec<u8>) -> Result<(), AllocError>
    ensures ok { OnOk result (out.new.items ≡ out.old.items ++ shape_text shape.now) }
    ensures front { StartsWith out.new.items out.old.items }
{
    write_path(&shape.tag, out)?;
    push_attributes(shape.attributes.as_slice(), out)?;
    push_content(&shape.content, out)?;
    push_suffix(shape.suffix, out)
}

/// Appends the text of a content; what was there stays in front.
#[cycle(shape)]
#[tactic(auto, using(crate::proofs::ShapeTexts::shapes_are))]
fn push_content(content: &ShapeContent, out: &mut Vec<u8>) -> Result<(), AllocError>
    ensures ok { OnOk result (out.new.items ≡ out.old.items ++ content_text content.now) }
    ensures front { StartsWith out.new.items out.old.items }
{
    match content {
        ShapeContent::Parts(shapes) => push_parts(shapes.as_slice(), out),
        ShapeContent::Value => Ok(out.push(b'=')?),
    }
}

/// Appends the texts of parts in brackets, and nothing for none; what was there stays in front.
#[cycle(shape)]
fn push_parts(shapes: &[Shape], out: &mut Vec<u8>) -> Result<(), AllocError>
    ensures ok { OnOk result
        (out.new.items ≡ out.old.items ++ parts_text (map shape_text shapes.now)) }
    ensures front { StartsWith out.new.items out.old.items }
{
    let mut mark = b'(';
    for shape in shapes {
        push_part(mark, shape, out)?;
        mark = b',';
    }
    push_closing(shapes.is_empty(), out)
}

/// Appends a mark and the text of a part; what was there stays in front.
#[cycle(shape)]
fn push_part(mark: u8, shape: &Shape, out: &mut Vec<u8>) -> Result<(), AllocError>
    ensures ok { OnOk result (out.new.items ≡ out.old.items ++ mark ∷ shape_text shape.now) }
    ensures front { StartsWith out.new.items out.old.items }
{
    out.push(mark)?;
    push_shape(shape, out)
}

/// Appends the bracket behind parts, where there are some; what was there stays in front.
fn push_closing(none: bool, out: &mut Vec<u8>) -> Result<(), AllocError>
    ensures ok { OnOk result (out.new.items ≡ out.old.items ++ closing none) }
    ensures front { StartsWith out.new.items out.old.items }
{
    if !none {
        out.push(b')')?;
    }
    Ok(())
}

/// Appends `@` and the name for each attribute; what was there stays in front.
fn push_attributes(names: &[Bytes], out: &mut Vec<u8>) -> Result<(), AllocError>
    ensures ok { OnOk result
        (out.new.items ≡ out.old.items ++ led_by (codes "@") (codes "@") names.now) }
    ensures front { StartsWith out.new.items out.old.items }
{
    for name in names {
        out.push(b'@')?;
        out.extend_from_slice(name.as_slice())?;
    }
    Ok(())
}

/// Appends the mark of a suffix that binds; what was there stays in front.
fn push_suffix(suffix: ShapeSuffix, out: &mut Vec<u8>) -> Result<(), AllocError>
    ensures ok { OnOk result (out.new.items ≡ out.old.items ++ suffix_text suffix) }
    ensures front { StartsWith out.new.items out.old.items }
{
    match suffix {
        ShapeSuffix::Plain => Ok(()),
        ShapeSuffix::Element => out.extend_from_slice(b"!e"),
        ShapeSuffix::Content => out.extend_from_slice(b"!c"),
    }
}

/// Appends pairs, joined by `;`; what was there stays in front.
fn push_pairs(pairs: &[Pair], out: &mut Vec<u8>) -> Result<(), AllocError>
    ensures ok { OnOk result (out.new.items ≡ out.old.items ++ pairs_text pairs.now) }
    ensures front { StartsWith out.new.items out.old.items }
{
    let mut mark: &[u8] = b"";
    for pair in pairs {
        push_marked_pair(mark, pair, out)?;
        mark = b";";
    }
    Ok(())
}

/// Appends a mark and a pair; what was there stays in front.
fn push_marked_pair(mark: &[u8], pair: &Pair, out: &mut Vec<u8>) -> Result<(), AllocError>
    ensures ok { OnOk result (out.new.items ≡ out.old.items ++ mark.now ++ pair_text pair.now) }
    ensures front { StartsWith out.new.items out.old.items }
{
    out.extend_from_slice(mark)?;
    push_pair(pair, out)
}

/// Appends a pair; what was there stays in front.
fn push_pair(pair: &Pair, out: &mut Vec<u8>) -> Result<(), AllocError>
    ensures ok { OnOk result (out.new.items ≡ out.old.items ++ pair_text pair.now) }
    ensures front { StartsWith out.new.items out.old.items }
{
    write_decimal(pair.left as u64, out)?;
    out.push(b'=')?;
    write_decimal(pair.right as u64, out)
}

/// Appends an interval and the end of its operator; what was there stays in front.
fn push_interval(interval: &Interval, out: &mut Vec<u8>) -> Result<(), AllocError>
    ensures ok { OnOk result
        (out.new.items ≡ out.old.items ++ codes "," ++ interval_text interval.now ++ codes ")") }
    ensures front { StartsWith out.new.items out.old.items }
{
    out.push(b',')?;
    push_ends(interval, out)?;
    out.push(b')')?;
    Ok(())
}

/// Appends the two ends of an interval; what was there stays in front.
fn push_ends(interval: &Interval, out: &mut Vec<u8>) -> Result<(), AllocError>
    ensures ok { OnOk result (out.new.items ≡ out.old.items ++ interval_text interval.now) }
    ensures front { StartsWith out.new.items out.old.items }
{
    push_low(interval.low, out)?;
    out.push(b',')?;
    push_high(interval.high, out)
}

/// Appends a low end; what was there stays in front.
fn push_low(low: End, out: &mut Vec<u8>) -> Result<(), AllocError>
    ensures ok { OnOk result (out.new.items ≡ out.old.items ++ low_text low) }
    ensures front { StartsWith out.new.items out.old.items }
{
    match low {
        End::Unbounded => out.extend_from_slice(b"(-"),
        End::Included(low) => push_first(b'[', low, out),
        End::Excluded(low) => push_first(b'(', low, out),
    }
}

/// Appends a bracket and a number; what was there stays in front.
fn push_first(bracket: u8, n: i128, out: &mut Vec<u8>) -> Result<(), AllocError>
    ensures ok { OnOk result (out.new.items ≡ out.old.items ++ bracket ∷ number_text n) }
    ensures front { StartsWith out.new.items out.old.items }
{
    out.push(bracket)?;
    write_number(n, out)
}

/// Appends a high end; what was there stays in front.
fn push_high(high: End, out: &mut Vec<u8>) -> Result<(), AllocError>
    ensures ok { OnOk result (out.new.items ≡ out.old.items ++ high_text high) }
    ensures front { StartsWith out.new.items out.old.items }
{
    match high {
        End::Unbounded => out.extend_from_slice(b"-)"),
        End::Included(high) => push_second(high, b']', out),
        End::Excluded(high) => push_second(high, b')', out),
    }
}

/// Appends a number and a bracket; what was there stays in front.
fn push_second(n: i128, bracket: u8, out: &mut Vec<u8>) -> Result<(), AllocError>
    ensures ok { OnOk result (out.new.items ≡ out.old.items ++ number_text n ++ bracket ∷ []) }
    ensures front { StartsWith out.new.items out.old.items }
{
    write_number(n, out)?;
    out.push(bracket)?;
    Ok(())
}
