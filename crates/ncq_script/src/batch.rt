//! The sections that the block of a batch says.
ghost use Rattle.std.specs.Prelude.{◌≡◌, ◌∷◌, ◌+◌, ◌<◌, ◌≤◌, ◌^◌, Some, None, IfOk, MatchOption};
ghost use Rattle.std.specs.Prelude.{length, true};
ghost use Rattle.std.specs.List.{list_all};
ghost use Rattle.ncq_base.specs.Lines.{IsClean, lines_in};
ghost use Rattle.ncq_pyx.specs.Faults.{max_nesting};
ghost use Rattle.ncq_source.specs.Proper.{puts_proper};
ghost use Rattle.ncq_script.specs.BatchReading.{AreIdle, IsMoved, IsParted, Says, TakesSection};
ghost use Rattle.ncq_script.specs.Batches.{batch_of, is_idle, name_in, one_word};
ghost use Rattle.ncq_script.specs.SpellsBatch.{is_header};
ghost use Rattle.ncq_script.specs.Words.{words};

use crate::word::next_word;
use ncq_base::{Bytes, Lines, bytes_of, first_line};
use ncq_flat::read_flat_block;
use ncq_pyx::PyxError;
use ncq_source::{Section, Sections};
use std::alloc::{AllocError, Global};

/// What is left of a block: its text, and the number of its first line.
#[derive(Clone, Copy)]
struct Left<'a> {
    text: &'a [u8],
    number: u64,
}

/// The sections that the lines say. `BadLine` and `TooDeep` name the line of the first fault,
/// counted from 1 over the whole block. `OutOfMemory` is want of memory.
pub(crate) fn sections_of(alloc: Global, block: &Lines) -> Result<Sections, PyxError>
    ensures said { Says result (batch_of max_nesting block.now) }
    ensures proper { IfOk result (λ sections. list_all puts_proper sections ≡ true) }
{
    let (front, mut left) = before_header(alloc, block.text(), 1)?;
    check_idle(alloc, &front)?;
    let mut sections = Sections::new(alloc);
    while let Some((head, behind)) = first_line(left.text) {
        left = take_section(alloc, &mut sections, head, behind, left.number)?;
    }
    Ok(sections)
}

/// The lines up to the next that begins a section, and what is left from there on. The first has
/// this number.
fn before_header(alloc: Global, text: &[u8], number: u64) -> Result<(Lines, Left<'_>), AllocError>
    requires { number + length text.now < 2 ^ 64 }
    ensures parted { IfOk result (λ parts.
        IsParted (lines_in text.now) parts.0 (lines_in parts.1.text.now)) }
    ensures number { IfOk result (λ parts. parts.1.number ≡ number + length parts.0) }
    ensures few { IfOk result (λ parts.
        parts.1.number + length parts.1.text.now ≤ number + length text.now) }
{
    let mut lines = Lines::new(alloc);
    let mut left = Left { text, number };
    while let Some((line, behind)) = first_line(left.text) {
        if is_header(line) {
            break;
        }
        lines.push(line)?;
        left = Left {
            text: behind,
            number: left.number + 1,
        };
    }
    Ok((lines, left))
}

/// Whether the line begins a section.
fn is_header(line: &[u8]) -> bool
    ensures { result ≡ is_header line.now }
{
    matches!(line, [b'@', ..])
}

/// Whether PYX skips each line outside elements; the first that it does not skip is a fault.
fn check_idle(alloc: Global, front: &Lines) -> Result<(), PyxError>
    ensures { AreIdle max_nesting front.now result }
{
    let mut number: u64 = 1;
    let mut rest = front.text();
    while let Some((line, behind)) = first_line(rest) {
        if !is_idle(alloc, line)? {
            return Err(PyxError::BadLine { line: number });
        }
        number += 1;
        rest = behind;
    }
    Ok(())
}

/// Whether the line alone is a block without items.
fn is_idle(alloc: Global, line: &[u8]) -> Result<bool, AllocError>
    requires { IsClean line.now }
    ensures { IfOk result (λ idle. idle ≡ is_idle max_nesting line.now) }
{
    let mut alone = Lines::new(alloc);
    alone.push(line)?;
    match read_flat_block(alloc, &alone) {
        Ok(items) => Ok(items.len() == 0),
        Err(PyxError::OutOfMemory) => Err(AllocError),
        Err(_) => Ok(false),
    }
}

/// Puts what the section says that begins with the line of this number behind the others, and
/// gives what is left behind it.
fn take_section<'a>(
    alloc: Global,
    sections: &mut Sections,
    head: &[u8],
    behind: &'a [u8],
    number: u64,
) -> Result<Left<'a>, PyxError>
    requires header { is_header head.now ≡ true }
    requires few { number + 1 + length behind.now < 2 ^ 64 }
    requires proper { list_all puts_proper sections.old ≡ true }
    ensures takes { TakesSection max_nesting sections.old sections.new
        (head.now ∷ lines_in behind.now) number result }
    ensures few { IfOk result (λ left.
        left.number + length left.text.now ≤ number + 1 + length behind.now) }
    ensures shorter { IfOk result (λ left. length left.text.now ≤ length behind.now) }
    ensures proper { list_all puts_proper sections.new ≡ true }
{
    let Some(name) = name_in(head) else {
        return Err(PyxError::BadLine { line: number });
    };
    let (body, left) = before_header(alloc, behind, number + 1)?;
    match read_flat_block(alloc, &body) {
        Ok(items) => {
            let source = bytes_of(alloc, name)?;
            sections.push(Section { source, items })?;
            Ok(left)
        }
        Err(why) => Err(moved(why, number)),
    }
}

/// The source that the first line of a section names.
fn name_in(head: &[u8]) -> Option<&[u8]>
    ensures { MatchOption result (name_in head.now ≡ None)
        (λ name. name_in head.now ≡ Some name.now) }
{
    let (_, text) = head.split_first()?;
    one_word(text)
}

/// The one word of a text; none where it has fewer words or more.
fn one_word(text: &[u8]) -> Option<&[u8]>
    ensures { MatchOption result (one_word (words text.now) ≡ None)
        (λ word. one_word (words text.now) ≡ Some word.now) }
{
    let (word, rest) = next_word(text)?;
    if next_word(rest).is_some() {
        return None;
    }
    Some(word)
}

/// The fault at a line behind that of this number.
fn moved(why: PyxError, number: u64) -> PyxError
    ensures { IsMoved why number result }
{
    match why {
        PyxError::BadLine { line } => match number.checked_add(line) {
            Some(line) => PyxError::BadLine { line },
            None => PyxError::OutOfMemory,
        },
        PyxError::TooDeep { line } => match number.checked_add(line) {
            Some(line) => PyxError::TooDeep { line },
            None => PyxError::OutOfMemory,
        },
        PyxError::OutOfMemory => PyxError::OutOfMemory,
    }
}
