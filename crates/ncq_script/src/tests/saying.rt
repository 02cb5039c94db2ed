//! What the commands of a script say, and its first refusals.
ghost use Rattle.std.specs.Prelude.{◌≡◌, false};
ghost use Rattle.ncq_script.specs.ScriptReading.{is_finished};

use super::LIMIT;
use crate::{Command, Next, Refusal, ScriptReader};
use ncq_base::Limit;
use std::alloc::{AllocError, Global};
use std::process::Abort;
use std::test::Fail;

// Scripts, and the refusal of their first command.
const REFUSED: &[(&[u8], Refusal)] = &[
    (b"clock 1 1", Refusal::Command),
    (b"clock 123456789\n", Refusal::Limit { which: Limit::Line }),
    (b"delta\n", Refusal::Command),
    (b"delta q\n", Refusal::Unfinished),
    (b"delta 1234567", Refusal::Limit { which: Limit::Line }),
    (b"create\n", Refusal::Unfinished),
    // Of a batch first a long line, then another word behind the first, then the missing end, and
    // then the first fault of its block, whose line counts from the block's first.
    (
        b"batch x\n1234567890123\n",
        Refusal::Limit { which: Limit::Line },
    ),
    (b"batch x\n.\n", Refusal::Command),
    (b"batch x\n", Refusal::Command),
    (b"batch\n", Refusal::Unfinished),
    (b"batch\n)a\n", Refusal::Unfinished),
    (b"batch\n(a\n.\n", Refusal::Pyx { line: 1 }),
    (b"batch\n@q\r\n(a\n@q\n.", Refusal::Pyx { line: 3 }),
    (b"batch\n@\r\n.\n", Refusal::Pyx { line: 1 }),
    (b"create w\n.\n", Refusal::Query),
    (b"delta q\n(a\n.\n", Refusal::Pyx { line: 2 }),
];

// The letter of what a command says: `!` where it is refused already when it is read.
fn letter_said(command: &Command) -> u8 {
    match command {
        Command::Declare { .. } => b'S',
        Command::Delta { .. } => b'D',
        Command::Batch { .. } => b'B',
        Command::Create { .. } => b'C',
        Command::Delete { .. } => b'X',
        Command::Clock { .. } => b'K',
        Command::Report => b'R',
        Command::Malformed { .. } => b'!',
    }
}

fn letter_next(next: &Next) -> Option<u8> {
    match next {
        Next::Command(command) => Some(letter_said(command)),
        Next::Wanting | Next::End => None,
    }
}

// The letter of what the next command says, where one can be told now.
fn next_letter(reader: &mut ScriptReader) -> Result<Option<u8>, AllocError>
    ensures { is_finished reader.new ≡ is_finished reader.old }
{
    let next = reader.next()?;
    Ok(letter_next(&next))
}

// What the commands say that can be told now; a script of these tests has no more than 20.
fn show_said(reader: &mut ScriptReader, out: &mut Vec<u8>) -> Result<(), AllocError>
    ensures { is_finished reader.new ≡ is_finished reader.old }
{
    for _ in 0..20 {
        match next_letter(reader)? {
            Some(letter) => out.push(letter)?,
            None => return Ok(()),
        }
    }
    Ok(())
}

// Pushes the piece, and compares what is said until then.
fn expect_more(
    rt: &impl Abort,
    reader: &mut ScriptReader,
    out: &mut Vec<u8>,
    piece: &[u8],
    want: &[u8],
) -> Result<(), AllocError>
    requires { is_finished reader.old ≡ false }
    ensures { is_finished reader.new ≡ false }
{
    reader.push(piece)?;
    show_said(reader, out)?;
    assert!(rt; out.as_slice() == want, "{want:?}");
    Ok(())
}

// Marks the end, and compares what is said until then.
fn expect_end(
    rt: &impl Abort,
    reader: &mut ScriptReader,
    out: &mut Vec<u8>,
    want: &[u8],
) -> Result<(), AllocError> {
    reader.finish();
    show_said(reader, out)?;
    assert!(rt; out.as_slice() == want, "{want:?}");
    Ok(())
}

fn has_ended(reader: &mut ScriptReader) -> Result<bool, AllocError> {
    let next = reader.next()?;
    Ok(matches!(&next, Next::End))
}

fn expect_in_turn(
    rt: &impl Abort,
    reader: &mut ScriptReader,
    out: &mut Vec<u8>,
) -> Result<(), AllocError>
    requires { is_finished reader.old ≡ false }
{
    let first = b"source q root R key k\n\ndelta q\n!k\n";
    expect_more(rt, reader, out, first, b"S")?;
    let second = b".\nclock 1\n# clock 2\nreport\ndelete w\n\
        create w WHERE <R><a><k>1</></> ELEMENT_AS $g</> IN q\n";
    expect_more(rt, reader, out, second, b"SDKRX")?;
    let third = b"CONSTRUCT $g DO print\n.\nclock x\nbatch\n.\nbatch\n@q\n!k\n@ r\n@q\n.\nreport";
    expect_more(rt, reader, out, third, b"SDKRXC!BB")?;
    expect_end(rt, reader, out, b"SDKRXC!BBR")?;
    assert!(rt; has_ended(reader)?);
    Ok(())
}

#[test]
fn a_command_is_given_as_soon_as_it_is_whole(rt: HostRuntime) -> Result<(), Fail> {
    let mut out = Vec::new(rt.alloc());
    let mut reader = ScriptReader::new(rt.alloc(), 100);
    expect_in_turn(&rt, &mut reader, &mut out)?;
    Ok(())
}

fn refusal_in(next: &Next) -> Option<Refusal> {
    match next {
        Next::Command(Command::Malformed { refusal }) => Some(*refusal),
        _ => None,
    }
}

// The refusal of the next command, where it has one.
fn next_refusal(reader: &mut ScriptReader) -> Result<Option<Refusal>, AllocError> {
    let next = reader.next()?;
    Ok(refusal_in(&next))
}

// The refusal of the first command of a whole script, where it has one.
fn refusal_of(reader: &mut ScriptReader, script: &[u8]) -> Result<Option<Refusal>, AllocError>
    requires { is_finished reader.old ≡ false }
{
    reader.push(script)?;
    reader.finish();
    next_refusal(reader)
}

fn first_refusal(alloc: Global, script: &[u8]) -> Result<Option<Refusal>, AllocError> {
    let mut reader = ScriptReader::new(alloc, LIMIT);
    refusal_of(&mut reader, script)
}

#[test]
fn the_first_refusal_of_reading_is_told(rt: HostRuntime) -> Result<(), Fail> {
    for (script, want) in REFUSED {
        assert!(rt;
            first_refusal(rt.alloc(), script)? == Some(*want),
            "{script:?}"
        );
    }
    Ok(())
}
