//! Why a command is refused, and the line that says so.
ghost use Rattle.std.specs.Prelude.{◌≡◌, ◌++◌, length, take, OnOk, OnErr};
ghost use Rattle.std.specs.Io.{StartsWith};
ghost use Rattle.ncq_script.specs.Refusals.{refused_text, word_of, shown, limit_word};

use ncq_base::{Limit, write_decimal};
use std::alloc::AllocError;

/// Why a command is refused.
#[derive(Clone, Copy, Debug, PartialEq, Eq)]
pub enum Refusal {
    /// The first word is no command, or its line has not the form.
    Command,
    /// The instant is below now.
    Clock,
    /// A source of this name is declared.
    SourceExists,
    /// A named source is not declared.
    NoSource,
    /// The lines of the block spell no items; the first bad line, from 1.
    Pyx { line: u64 },
    /// A put has not exactly one key value that is not empty; the item's position, from 1.
    Key { position: u64 },
    /// A deletion names a key that is not there at that item; the item's position, from 1.
    NoKey { position: u64 },
    /// A live subscription has the name.
    NameTaken,
    /// No live subscription has the name.
    NoName,
    /// The statement is not in the grammar.
    Query,
    /// A variable is used that no pattern has.
    Unbound,
    /// A root tag is not that of its source.
    Root,
    /// No handler has the name, or its argument is missing or too much.
    Action,
    /// The expiry is below the start or below now.
    Times,
    /// A limit is exceeded.
    Limit { which: Limit },
    /// The input ended inside the block.
    Unfinished,
}

/// Appends the line `<k> refused <number> <word>`, with the shown value where there is one. After
/// want of memory `out` is as before.
pub fn write_refused(k: u64, refusal: &Refusal, out: &mut Vec<u8>) -> Result<(), AllocError>
    ensures ok { OnOk result (out.new.items ≡ out.old.items ++ refused_text k refusal.now) }
    ensures err { OnErr result (out.new.items ≡ out.old.items) }
{
    let before = out.len();
    let written = write_line(k, refusal, out);
    if written.is_err() {
        out.truncate(before);
    }
    written
}

/// Appends the line; what was there stays in front.
fn write_line(k: u64, refusal: &Refusal, out: &mut Vec<u8>) -> Result<(), AllocError>
    ensures ok { OnOk result (out.new.items ≡ out.old.items ++ refused_text k refusal.now) }
    ensures front { StartsWith out.new.items out.old.items }
{
    write_decimal(k, out)?;
    out.extend_from_slice(b" refused ")?;
    out.extend_from_slice(word_of(refusal))?;
    write_shown(refusal, out)?;
    out.extend_from_slice(b"\n")
}

/// The number and the word of a refusal.
fn word_of(refusal: &Refusal) -> &[u8]
    ensures { result.now ≡ word_of refusal.now }
{
    match refusal {
        Refusal::Command => b"1 command",
        Refusal::Clock => b"2 clock",
        Refusal::SourceExists => b"3 source-exists",
        Refusal::NoSource => b"4 no-source",
        Refusal::Pyx { .. } => b"5 pyx",
        Refusal::Key { .. } => b"6 key",
        Refusal::NoKey { .. } => b"7 no-key",
        Refusal::NameTaken => b"8 name-taken",
        Refusal::NoName => b"9 no-name",
        Refusal::Query => b"10 query",
        Refusal::Unbound => b"11 unbound",
        Refusal::Root => b"12 root",
        Refusal::Action => b"13 action",
        Refusal::Times => b"14 times",
        Refusal::Limit { .. } => b"15 limit",
        Refusal::Unfinished => b"16 unfinished",
    }
}

/// Appends a space and the value that a refusal shows, where it shows one; what was there stays in
/// front.
fn write_shown(refusal: &Refusal, out: &mut Vec<u8>) -> Result<(), AllocError>
    ensures ok { OnOk result (out.new.items ≡ out.old.items ++ shown refusal.now) }
    ensures front { StartsWith out.new.items out.old.items }
{
    match refusal {
        Refusal::Pyx { line: number }
        | Refusal::Key { position: number }
        | Refusal::NoKey { position: number } => {
            out.extend_from_slice(b" ")?;
            write_decimal(*number, out)
        }
        Refusal::Limit { which } => {
            out.extend_from_slice(b" ")?;
            out.extend_from_slice(limit_word(*which))
        }
        _ => Ok(()),
    }
}

/// The word of a limit.
fn limit_word(which: Limit) -> &'static [u8]
    ensures { result.now ≡ limit_word which }
{
    match which {
        Limit::Line => b"line",
        Limit::Nesting => b"nesting",
        Limit::Pattern => b"pattern",
        Limit::Arms => b"arms",
        Limit::Slots => b"slots",
        Limit::Conditions => b"conditions",
        Limit::Path => b"path",
    }
}
