//! Scripts that come in pieces, and the lines of their commands as texts.
ghost use Rattle.std.specs.Prelude.{◌≡◌, false};

use super::LIMIT;
use crate::command_lines::CommandLines;
use crate::command_reader::{CommandReader, NextCommand};
use crate::word::Keyword;
use std::alloc::{AllocError, Global};
use std::process::Abort;
use std::test::Fail;

// Scripts, and their commands as texts.
const LINES: &[(&[u8], &[u8])] = &[
    // The last line needs no line feed, and an empty one is none.
    (b"", b""),
    (b"\n", b""),
    (b"report", b"Rreport|"),
    (b"report\n", b"Rreport|"),
    (b"report\nreport", b"Rreport|Rreport|"),
    // One carriage return is dropped at the end of a line; inside it parts words.
    (b"\r", b""),
    (b"\r\n", b""),
    (b"report\r\n", b"Rreport|"),
    (b"report\r", b"Rreport|"),
    (b"report\r\r\n", b"Rreport\r|"),
    (b"\rreport\n", b"R\rreport|"),
    (b"re\rport\n", b"Ure\rport|"),
    // A line of 12 bytes is whole, one of 13 is cut; a carriage return at the end does not
    // count.
    (b"clock 123456\n", b"Kclock 123456|"),
    (b"clock 123456\r\n", b"Kclock 123456|"),
    (b"clock 123456", b"Kclock 123456|"),
    (b"clock 1234567\n", b"Kclock 123456|~"),
    (b"clock 1234567\r\n", b"Kclock 123456|~"),
    (b"clock 123456\r\r\n", b"Kclock 123456|~"),
    (b"clock 1234567", b"Kclock 123456|~"),
    // Of a long line only the front is looked at.
    (b"            report\nreport\n", b"Rreport|"),
    (b"#           \r          \nreport\n", b"Rreport|"),
];

const FIRST_WORDS: &[(&[u8], &[u8])] = &[
    (
        b"source\nclock\nreport\ndelete\n",
        b"Ssource|Kclock|Rreport|Xdelete|",
    ),
    (
        b"SOURCE\ncLocK 1\nReport\nDELETE\n",
        b"SSOURCE|KcLocK 1|RReport|XDELETE|",
    ),
    (b" \t\r clock 7\n", b"K \t\r clock 7|"),
    (b"clocks\nclo\n", b"Uclocks|Uclo|"),
    // Blank lines and comments are none; `#` inside a line is no comment.
    (b" \t \n\n# clock 1\n \t\r#clock 2\n", b""),
    (b"report# 1\nx #\n", b"Ureport# 1|Ux #|"),
    // A form feed, a vertical tab and bytes above 127 belong to words.
    (b"\x0creport\n", b"U\x0creport|"),
    (b"report\x0b\n", b"Ureport\x0b|"),
    (b"\xc2\xa0report\n", b"U\xc2\xa0report|"),
    (b"report \xff\n", b"Rreport \xff|"),
];

const BLOCKS: &[(&[u8], &[u8])] = &[
    (b"delta q\n(a\n)a\n.\nreport\n", b"Ddelta q|(a|)a|Rreport|"),
    (b"CREATE x y z\n.\n", b"CCREATE x y z|"),
    (b"Delta\n.\r\nreport\n", b"DDelta|Rreport|"),
    (b"delta\n.", b"Ddelta|"),
    (b"Batch\n@q\r\n!k\n.\nreport\n", b"BBatch|@q|!k|Rreport|"),
    // Whatever else the line holds, the block goes up to its end.
    (
        b"batch x y\nclock 1\n.\nreport\n",
        b"Bbatch x y|clock 1|Rreport|",
    ),
    (b"batch\n", b"Bbatch|!"),
    // No other line ends it.
    (b"delta\n. \n .\n..\n.\r\r\n\n", b"Ddelta|. | .|..|.\r||!"),
    // Comments, blank lines and commands inside it are lines of the block.
    (
        b"delta\n#x\n\nreport\ndelta b\n.\nreport\n",
        b"Ddelta|#x||report|delta b|Rreport|",
    ),
    // A block without an end.
    (b"delta\n", b"Ddelta|!"),
    (b"create\nDO print", b"Ccreate|DO print|!"),
    (b"create\n0123456789abc\n.\n", b"Ccreate|0123456789ab|~"),
    // Outside a block a dot is a command of its own.
    (b".\nclock 1\n.\n", b"U.|Kclock 1|U.|"),
];

// Scripts, and whether their first command has a line that is too long.
const LONG: &[(&[u8], bool)] = &[
    (b"delta 123456\n123456789012\n.\n", false),
    (b"delta 1234567\n.\n", true),
    (b"delta\nx\n1234567890123\n.\n", true),
];

fn letter(keyword: Keyword) -> u8 {
    match keyword {
        Keyword::Source => b'S',
        Keyword::Delta => b'D',
        Keyword::Batch => b'B',
        Keyword::Create => b'C',
        Keyword::Delete => b'X',
        Keyword::Clock => b'K',
        Keyword::Report => b'R',
        Keyword::Unknown => b'U',
    }
}

// A command as a text: its letter, its lines, each ended by a bar, `~` where one was longer than
// the limit, and `!` where its block is open.
fn show_command(out: &mut Vec<u8>, command: &CommandLines) -> Result<(), AllocError> {
    out.push(letter(command.keyword))?;
    out.extend_from_slice(command.head.as_slice())?;
    out.push(b'|')?;
    for byte in command.block.text() {
        out.push(if *byte == b'\n' { b'|' } else { *byte })?;
    }
    if command.long {
        out.push(b'~')?;
    }
    if !command.closed {
        out.push(b'!')?;
    }
    Ok(())
}

// The next command that can be told now, where there is one.
fn show(out: &mut Vec<u8>, next: &NextCommand) -> Result<bool, AllocError> {
    match next {
        NextCommand::Lines(command) => {
            show_command(out, command)?;
            Ok(true)
        }
        NextCommand::Wanting | NextCommand::End => Ok(false),
    }
}

fn show_one(reader: &mut CommandReader, out: &mut Vec<u8>) -> Result<bool, AllocError>
    ensures { reader.new.lines.finished ≡ reader.old.lines.finished }
{
    let next = reader.next()?;
    show(out, &next)
}

// The commands that can be told now; a script of these tables has no more than 20.
fn show_next(reader: &mut CommandReader, out: &mut Vec<u8>) -> Result<(), AllocError>
    ensures { reader.new.lines.finished ≡ reader.old.lines.finished }
{
    for _ in 0..20 {
        if !show_one(reader, out)? {
            return Ok(());
        }
    }
    Ok(())
}

fn show_more(reader: &mut CommandReader, out: &mut Vec<u8>, piece: &[u8]) -> Result<(), AllocError>
    requires { reader.old.lines.finished ≡ false }
    ensures { reader.new.lines.finished ≡ false }
{
    reader.push(piece)?;
    show_next(reader, out)
}

fn show_pieces(
    reader: &mut CommandReader,
    out: &mut Vec<u8>,
    script: &[u8],
    size: usize,
) -> Result<(), AllocError>
    requires { reader.old.lines.finished ≡ false }
{
    let mut rest = script;
    for _ in 0..script.len() {
        let (piece, behind) = rest.split_at(size.min(rest.len()));
        show_more(reader, out, piece)?;
        rest = behind;
    }
    reader.finish();
    show_next(reader, out)
}

// The commands of a script that comes in pieces of a size.
fn shown_in_pieces(alloc: Global, script: &[u8], size: usize) -> Result<Vec<u8>, AllocError> {
    let mut out = Vec::new(alloc);
    let mut reader = CommandReader::new(alloc, LIMIT);
    show_pieces(&mut reader, &mut out, script, size)?;
    Ok(out)
}

// Whether a script that comes in pieces of a size has these commands.
fn is_shown(alloc: Global, script: &[u8], size: usize, want: &[u8]) -> Result<bool, AllocError> {
    let shown = shown_in_pieces(alloc, script, size)?;
    Ok(shown.as_slice() == want)
}

// The script has the commands, in pieces of whatever size.
fn agrees(rt: &impl Abort, alloc: Global, script: &[u8], want: &[u8]) -> Result<(), AllocError> {
    for size in &[1, 2, 3, 7, 100] {
        assert!(rt;
            is_shown(alloc, script, *size, want)?,
            "{want:?} in pieces of {size}"
        );
    }
    Ok(())
}

fn agree(rt: &impl Abort, alloc: Global, rows: &[(&[u8], &[u8])]) -> Result<(), AllocError> {
    for (script, want) in rows {
        agrees(rt, alloc, script, want)?;
    }
    Ok(())
}

#[test]
fn lines_are_cut_at_line_feeds_and_at_the_limit(rt: HostRuntime) -> Result<(), Fail> {
    agree(&rt, rt.alloc(), LINES)?;
    Ok(())
}

#[test]
fn a_command_is_its_first_word(rt: HostRuntime) -> Result<(), Fail> {
    agree(&rt, rt.alloc(), FIRST_WORDS)?;
    Ok(())
}

#[test]
fn a_block_ends_with_a_line_that_is_exactly_a_dot(rt: HostRuntime) -> Result<(), Fail> {
    agree(&rt, rt.alloc(), BLOCKS)?;
    Ok(())
}

// Pushes the piece, and compares what is told until then.
fn expect_more(
    rt: &impl Abort,
    reader: &mut CommandReader,
    out: &mut Vec<u8>,
    piece: &[u8],
    want: &[u8],
) -> Result<(), AllocError>
    requires { reader.old.lines.finished ≡ false }
    ensures { reader.new.lines.finished ≡ false }
{
    show_more(reader, out, piece)?;
    assert!(rt; out.as_slice() == want, "{want:?}");
    Ok(())
}

// Marks the end, and compares what is told until then.
fn expect_end(
    rt: &impl Abort,
    reader: &mut CommandReader,
    out: &mut Vec<u8>,
    want: &[u8],
) -> Result<(), AllocError> {
    reader.finish();
    show_next(reader, out)?;
    assert!(rt; out.as_slice() == want, "{want:?}");
    Ok(())
}

fn has_ended(reader: &mut CommandReader) -> Result<bool, AllocError> {
    let next = reader.next()?;
    Ok(matches!(&next, NextCommand::End))
}

// What is told before the end is marked: no line without its line feed, and no block without its
// end.
fn expect_in_turn(
    rt: &impl Abort,
    reader: &mut CommandReader,
    out: &mut Vec<u8>,
) -> Result<(), AllocError>
    requires { reader.old.lines.finished ≡ false }
{
    let open = b"report\ndelta\n(a\nclock 1\n";
    expect_more(rt, reader, out, open, b"Rreport|")?;
    let ended = b"Rreport|Ddelta|(a|clock 1|";
    expect_more(rt, reader, out, b".\nclock 2", ended)?;
    let whole = b"Rreport|Ddelta|(a|clock 1|Kclock 2|";
    expect_end(rt, reader, out, whole)?;
    assert!(rt; has_ended(reader)?);
    Ok(())
}

#[test]
fn an_open_block_is_given_at_the_end_alone(rt: HostRuntime) -> Result<(), Fail> {
    let mut out = Vec::new(rt.alloc());
    let mut reader = CommandReader::new(rt.alloc(), LIMIT);
    expect_in_turn(&rt, &mut reader, &mut out)?;
    Ok(())
}

fn is_long(next: &NextCommand) -> Option<bool> {
    match next {
        NextCommand::Lines(command) => Some(command.long),
        NextCommand::Wanting | NextCommand::End => None,
    }
}

fn next_is_long(reader: &mut CommandReader) -> Result<Option<bool>, AllocError> {
    let next = reader.next()?;
    Ok(is_long(&next))
}

fn pushed_is_long(reader: &mut CommandReader, script: &[u8]) -> Result<Option<bool>, AllocError>
    requires { reader.old.lines.finished ≡ false }
{
    reader.push(script)?;
    next_is_long(reader)
}

// Whether the first command of a script has a line that is too long, where there is a command.
fn begins_long(alloc: Global, script: &[u8]) -> Result<Option<bool>, AllocError> {
    let mut reader = CommandReader::new(alloc, LIMIT);
    pushed_is_long(&mut reader, script)
}

#[test]
fn a_long_line_is_found_in_head_and_block(rt: HostRuntime) -> Result<(), Fail> {
    for (script, want) in LONG {
        assert!(rt; begins_long(rt.alloc(), script)? == Some(*want));
    }
    Ok(())
}
