//! The items of a block, with elements as their lines.
ghost use Rattle.std.specs.Prelude.{◌≡◌, ◌+◌, ◌-◌, ◌<◌, ◌≤◌, ◌^◌, ◌∷◌, ◌++◌, [], take, length};
ghost use Rattle.std.specs.Prelude.{true, IfOk, IfSome, OnOk};
ghost use Rattle.std.specs.List.{list_all};
ghost use Rattle.ncq_base.specs.Lines.{lines_in, text_of};
ghost use Rattle.ncq_pyx.specs.Items.{item_is_proper};
ghost use Rattle.ncq_pyx.specs.Faults.{block_of, max_nesting};
ghost use Rattle.ncq_pyx.specs.Joining.{behind_items, later};
ghost use Rattle.ncq_pyx.specs.Spells.{Gives};
ghost use Rattle.ncq_flat.specs.Items.{IsWithin, Leads};

use crate::checking::canonical_front;
use crate::item::{Item, Items};
use crate::skip::open_behind;
use crate::written::Written;
use ncq_base::{Copied, Lines, Shared, first_line, unescape};
use ncq_pyx::{Item as Spelled, Items as SpelledItems, PyxError, read_block};
use std::alloc::{AllocError, Global};

/// An element of so many lines is not too deep: each that is open takes two.
const FEW_LINES: usize = 1024;

/// The items that the lines spell, or the first fault: the same answer as that of
/// `ncq_pyx::read_block`. Elements whose lines are canonical are copied as they stand.
pub fn read_flat_block(alloc: Global, lines: &Lines) -> Result<Items, PyxError>
    ensures proper { IfOk result (λ items. list_all item_is_proper items ≡ true) }
    ensures block { Gives result (block_of max_nesting lines.now) }
{
    read_items(alloc, lines.text())
}

/// The same of the lines of a text.
fn read_items(alloc: Global, text: &[u8]) -> Result<Items, PyxError>
    ensures { Gives result (block_of max_nesting (lines_in text.now)) }
{
    let mut items = Items::new(alloc);
    let mut rest = text;
    let mut count = 0usize;
    while !rest.is_empty() {
        if let Some((item, lines, more)) = read_front(alloc, rest)? {
            items.push(item)?;
            count += lines;
            rest = more;
        } else {
            let Some((made, lines, more)) = read_piece(alloc, rest)? else {
                return read_slowly(alloc, rest, items, count);
            };
            append_items(alloc, made.as_slice(), &mut items)?;
            count += lines;
            rest = more;
        }
    }
    Ok(items)
}

/// The item in front, so many lines and what is behind them: none where it is not canonical as it
/// stands, or too long to be told not to be too deep.
fn read_front<'a>(
    alloc: Global,
    text: &'a [u8],
) -> Result<Option<(Item, usize, &'a [u8])>, AllocError>
    ensures step { IfOk result (λ found. IfSome found (λ f. block_of max_nesting (lines_in text.now)
        ≡ behind_items (f.0 ∷ []) f.1 (block_of max_nesting (lines_in f.2.now)))) }
    ensures bound { IfOk result (λ found. IfSome found (λ f.
        f.1 + length f.2.now ≤ length text.now)) }
    ensures fewer { IfOk result (λ found. IfSome found (λ f. length f.2.now < length text.now)) }
{
    let Some((line, behind)) = first_line(text) else {
        return Ok(None);
    };
    if let Some(escaped) = erased(line) {
        let key = unescape(alloc, escaped)?;
        return Ok(Some((Item::remove(key), 1, behind)));
    }
    let Some((count, more)) = canonical_front(alloc, text)? else {
        return Ok(None);
    };
    if count > FEW_LINES {
        return Ok(None);
    }
    let written = Written::of_checked(alloc, front_of(text, more))?;
    let item = Item::put(Shared::new(alloc, written)?);
    Ok(Some((item, count, more)))
}

/// The items of the lines up to the one that closes the element which the first opens, read by the
/// reader of trees, so many lines and what is behind them: none where those alone are no block.
fn read_piece<'a>(
    alloc: Global,
    text: &'a [u8],
) -> Result<Option<(SpelledItems, usize, &'a [u8])>, AllocError>
    ensures step { IfOk result (λ found. IfSome found (λ f. block_of max_nesting (lines_in text.now)
        ≡ behind_items f.0 f.1 (block_of max_nesting (lines_in f.2.now)))) }
    ensures proper { IfOk result (λ found. IfSome found (λ f.
        list_all item_is_proper f.0 ≡ true)) }
    ensures bound { IfOk result (λ found. IfSome found (λ f.
        f.1 + length f.2.now ≤ length text.now)) }
    ensures fewer { IfOk result (λ found. IfSome found (λ f. length f.2.now < length text.now)) }
{
    let (count, more) = behind_element(text);
    if more.len() >= text.len() {
        return Ok(None);
    }
    let lines = lines_of(alloc, front_of(text, more))?;
    match read_block(alloc, &lines) {
        Ok(items) => Ok(Some((items, count, more))),
        Err(PyxError::OutOfMemory) => Err(AllocError),
        Err(_) => Ok(None),
    }
}

/// The escaped key of a deletion.
fn erased(line: &[u8]) -> Option<&[u8]>
    ensures { IfSome result (λ key. line.now ≡ 33 ∷ key.now) }
{
    let (mark, key) = line.split_first()?;
    if *mark == b'!' {
        return Some(key);
    }
    None
}

/// What stands in front of the rest of a text.
fn front_of<'a>(text: &'a [u8], rest: &[u8]) -> &'a [u8]
    requires { length rest.now ≤ length text.now }
    ensures { result.now ≡ take (length text.now - length rest.now) text.now }
{
    &text[..text.len() - rest.len()]
}

/// How many lines there are up to the one that closes the element which the first opens, and what
/// stands behind them.
fn behind_element(text: &[u8]) -> (usize, &[u8])
    ensures leads { Leads text.now result.1.now result.0 }
    ensures bound { result.0 + length result.1.now ≤ length text.now }
{
    let mut rest = text;
    let mut depth = 0usize;
    let mut count = 0usize;
    while let Some((line, more)) = first_line(rest) {
        count += 1;
        rest = more;
        match open_behind(depth, line) {
            Some(next) if next > 0 => depth = next,
            _ => return (count, rest),
        }
    }
    (count, rest)
}

/// Behind these items, which so many lines spell, those of a text, read by the reader of trees.
fn read_slowly(alloc: Global, text: &[u8], items: Items, count: usize) -> Result<Items, PyxError>
    requires { count + length text.now < 2 ^ 63 }
    ensures { Gives result (behind_items (items) count
        (block_of max_nesting (lines_in text.now))) }
{
    let lines = lines_of(alloc, text)?;
    let more = match read_block(alloc, &lines) {
        Ok(more) => more,
        Err(why) => return Err(later(why, count)),
    };
    let mut items = items;
    append_items(alloc, more.as_slice(), &mut items)?;
    Ok(items)
}

/// The fault, so many lines further on.
fn later(why: PyxError, count: usize) -> PyxError
    requires within { IsWithin (2 ^ 63) why }
    requires few { count < 2 ^ 63 }
    ensures { result ≡ later count why }
{
    match why {
        PyxError::BadLine { line } => PyxError::BadLine {
            line: line + count as u64,
        },
        PyxError::TooDeep { line } => PyxError::TooDeep {
            line: line + count as u64,
        },
        PyxError::OutOfMemory => PyxError::OutOfMemory,
    }
}

/// The lines of a text.
pub(crate) fn lines_of(alloc: Global, text: &[u8]) -> Result<Lines, AllocError>
    ensures { IfOk result (λ lines. lines ≡ lines_in text.now) }
{
    let mut lines = Lines::new(alloc);
    let mut rest = text;
    while let Some((line, more)) = first_line(rest) {
        lines.push(line)?;
        rest = more;
    }
    Ok(lines)
}

/// Appends the items, elements as their lines.
fn append_items(alloc: Global, from: &[Spelled], items: &mut Items) -> Result<(), AllocError>
    requires { list_all item_is_proper from.now ≡ true }
    ensures { OnOk result (items.new ≡ items.old ++ from.now) }
{
    for item in from {
        let made = match item {
            Spelled::Put(element) => Item::put(Shared::new(alloc, Written::new(alloc, element)?)?),
            Spelled::Remove(key) => Item::remove(key.copy(alloc)?),
        };
        items.push(made)?;
    }
    Ok(())
}
