//! What the blocks of batches say.
use crate::batch::sections_of;
use ncq_base::{Lines, first_line, write_decimal};
use ncq_flat::{Asked, Item};
use ncq_pyx::PyxError;
use ncq_source::Section;
use std::alloc::{AllocError, Global};
use std::process::Abort;
use std::test::Fail;

// Blocks, and what they say: of each section the source and its items, a plus for a put and a minus
// and the key for a removal; or the first fault.
const BLOCKS: &[(&[u8], &[u8])] = &[
    // No section.
    (b"", b""),
    (b"?x\n\n- \t\nC\nD\nN\nU\n", b""),
    // Only lines that are skipped stand before the first section.
    (b"(a\n", b"bad 1"),
    (b"(a\n)a\n@q\n", b"bad 1"),
    (b"!k\n@q\n", b"bad 1"),
    (b"#x\n@q\n", b"bad 1"),
    (b"-x\n@q\n", b"bad 1"),
    (b"?x\n\n-x\n@q\n", b"bad 3"),
    (b"?x\n\n- \t\n@q\n!k\n", b"q -k;"),
    // One word behind the `@` names the source; blanks part words.
    (b"@quotes\n", b"quotes ;"),
    (b"@ quotes\n!k\n", b"quotes -k;"),
    (b"@\tquotes \r\n!k\n", b"quotes -k;"),
    (b"@quotes\r\n", b"quotes ;"),
    (b"@@q\n", b"@q ;"),
    (b"@\n", b"bad 1"),
    (b"@ \t\n", b"bad 1"),
    (b"@a b\n", b"bad 1"),
    (b"@q\n!k\n@\n", b"bad 3"),
    (b"@q\n!k\n@a b\n)a\n", b"bad 3"),
    // A line that begins with another byte begins no section.
    (b"@q\n @r\n", b"bad 2"),
    // A section goes up to the next, or to the end; lines are skipped in it too.
    (b"@q\n(a\n)a\n!k\n", b"q +-k;"),
    (b"@q\n?x\n\n!k\n- \n(a\n?y\n)a\n", b"q -k+;"),
    (b"@q\n!k\n@r\n(a\n)a\n@q\n!l\n", b"q -k;r +;q -l;"),
    (b"@q\n@q\n", b"q ;q ;"),
    // No element goes on in the next section.
    (b"@quotes\n(a\n@quotes\n", b"bad 3"),
    (b"@quotes\n(a\n@quotes\n)a\n", b"bad 3"),
    (b"@q\n(a\n@\n", b"bad 3"),
    (b"@q\n(a\n", b"bad 3"),
    // A fault counts all lines of the block.
    (b"@q\n)a\n", b"bad 2"),
    (b"?\n@q\n!k\n@r\n!l\n(a\n)b\n", b"bad 7"),
];

// How many elements are opened and closed in the section behind the fourth line, and what all says.
const NESTED: &[(usize, usize, &[u8])] = &[
    (512, 512, b"q -k;r +;"),
    (512, 511, b"bad 1028"),
    (513, 0, b"deep 517"),
    (513, 513, b"deep 517"),
];

fn lines_of(alloc: Global, text: &[u8]) -> Result<Lines, AllocError> {
    let mut lines = Lines::new(alloc);
    let mut rest = text;
    while let Some((line, behind)) = first_line(rest) {
        lines.push(line)?;
        rest = behind;
    }
    Ok(lines)
}

// So many elements opened in one another behind four lines, and so many closed.
fn nested(alloc: Global, opened: usize, closed: usize) -> Result<Lines, AllocError> {
    let mut lines = lines_of(alloc, b"?\n@q\n!k\n@r\n")?;
    for _ in 0..opened {
        lines.push(b"(a")?;
    }
    for _ in 0..closed {
        lines.push(b")a")?;
    }
    Ok(lines)
}

fn show_item(out: &mut Vec<u8>, item: &Item) -> Result<(), AllocError> {
    match item.asked() {
        Asked::Put(_) => out.push(b'+')?,
        Asked::Remove(key) => {
            out.push(b'-')?;
            out.extend_from_slice(key.as_slice())?;
        }
    }
    Ok(())
}

fn show_section(out: &mut Vec<u8>, section: &Section) -> Result<(), AllocError> {
    out.extend_from_slice(section.source.as_slice())?;
    out.push(b' ')?;
    for item in section.items.as_slice() {
        show_item(out, item)?;
    }
    out.push(b';')?;
    Ok(())
}

fn show_fault(out: &mut Vec<u8>, word: &[u8], line: u64) -> Result<(), AllocError> {
    out.extend_from_slice(word)?;
    write_decimal(line, out)
}

// What a block says.
fn said(alloc: Global, block: &Lines) -> Result<Vec<u8>, AllocError> {
    let mut out = Vec::new(alloc);
    match sections_of(alloc, block) {
        Ok(sections) => {
            for section in sections.as_slice() {
                show_section(&mut out, section)?;
            }
        }
        Err(PyxError::BadLine { line }) => show_fault(&mut out, b"bad ", line)?,
        Err(PyxError::TooDeep { line }) => show_fault(&mut out, b"deep ", line)?,
        Err(PyxError::OutOfMemory) => return Err(AllocError),
    }
    Ok(out)
}

fn expect_said(
    rt: &impl Abort,
    alloc: Global,
    block: &Lines,
    want: &[u8],
) -> Result<(), AllocError> {
    let got = said(alloc, block)?;
    assert_eq!(rt; got.as_slice(), want);
    Ok(())
}

#[test]
fn a_block_says_its_sections_or_its_first_fault(rt: HostRuntime) -> Result<(), Fail> {
    let alloc = rt.alloc();
    for (text, want) in BLOCKS {
        expect_said(&rt, alloc, &lines_of(alloc, text)?, want)?;
    }
    Ok(())
}

#[test]
fn nesting_is_counted_in_each_section(rt: HostRuntime) -> Result<(), Fail> {
    let alloc = rt.alloc();
    for (opened, closed, want) in NESTED {
        expect_said(&rt, alloc, &nested(alloc, *opened, *closed)?, want)?;
    }
    Ok(())
}
