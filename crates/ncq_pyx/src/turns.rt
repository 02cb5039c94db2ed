//! What one line of a block is, by its first byte and by where it stands.
ghost use Rattle.std.specs.Prelude.{◌≡◌, ◌+◌, ◌≤◌, length, drop, Some, take};
ghost use Rattle.std.specs.List.{prefix_len, list_all, list_any};
ghost use Rattle.std.specs.Option.{option_copied, option_map};
ghost use Rattle.ncq_pyx.specs.LineKinds.{is_skipped, is_no_blank, turn_at, begin_of, give_of};
ghost use Rattle.ncq_pyx.specs.LineKinds.{say_of, finish_of, erase_of};
ghost use Rattle.ncq_base.specs.Names.{is_space};
ghost use Rattle.ncq_pyx.specs.Answers.{Turns};

use crate::tag::TagAttributes;
use ncq_base::{Bytes, bytes_of, is_pyx_name, is_space, unescape};
use ncq_tree::Attribute;
use std::alloc::{AllocError, Global};

/// What a line does: nothing, open an element of this name, give the innermost an attribute, add a
/// text to it, close it, or ask for a removal by this key.
#[derive(Drop)]
pub(crate) enum Turn {
    Nothing,
    Begin(Bytes),
    Give(Attribute),
    Say(Bytes),
    Finish,
    Erase(Bytes),
}

/// Why a line is not taken: no block has it here, it opens too deep an element, or memory ran out.
#[derive(Drop)]
pub(crate) enum Stop {
    Fault,
    TooDeep,
    OutOfMemory,
}

impl From<AllocError> for Stop {
    ghost use Rattle.ncq_pyx.specs.declared.turns.Stop.TheVariants.{OutOfMemory};
    ghost use Rattle.std.specs.Prelude.{◌≡◌};

    ghost from_gives = { λ _ e. e ≡ OutOfMemory };

    fn from(_refused: AllocError) -> Stop {
        Stop::OutOfMemory
    }
}

/// Whether lines that begin with the byte are skipped.
fn is_skipped(b: u8) -> bool
    ensures { result ≡ is_skipped b }
{
    b == b'?' || b == b'C' || b == b'D' || b == b'N' || b == b'U'
}

/// Whether the text is white space only.
fn is_blank(text: &[u8]) -> bool
    ensures { result ≡ list_all is_space text.now }
{
    text.iter().all(|b| is_space(*b))
}

/// How many bytes stand in front of the first space.
fn name_len(text: &[u8]) -> usize
    ensures value { result ≡ prefix_len is_no_blank text.now }
    ensures within { result ≤ length text.now }
{
    text.iter().take_while(|b| **b != b' ').count()
}

/// An opening line, by the text behind its first byte.
fn begin_of(alloc: Global, name: &[u8]) -> Result<Turn, Stop>
    ensures { Turns result (begin_of name.now) }
{
    if !is_pyx_name(name) {
        return Err(Stop::Fault);
    }
    Ok(Turn::Begin(bytes_of(alloc, name)?))
}

/// An attribute line, by the text behind its first byte, where these attributes stand already.
fn give_of(alloc: Global, given: &TagAttributes, text: &[u8]) -> Result<Turn, Stop>
    ensures { Turns result (give_of (Some given.now) text.now) }
{
    let end = name_len(text);
    let name = bytes_of(alloc, front_of(text, end))?;
    if !is_pyx_name(name.as_slice()) || given.has_name(&name) {
        return Err(Stop::Fault);
    }
    let value = unescape(alloc, rest_behind(text, end))?;
    Ok(Turn::Give(Attribute { name, value }))
}

/// What stands before a place.
fn front_of(text: &[u8], end: usize) -> &[u8]
    requires { end ≤ length text.now }
    ensures { result.now ≡ take end text.now }
{
    &text[..end]
}

/// What stands behind the byte at a place.
fn rest_behind(text: &[u8], at: usize) -> &[u8]
    requires { at ≤ length text.now }
    ensures { result.now ≡ drop (at + 1) text.now }
{
    if at == text.len() {
        return &[];
    }
    &text[at + 1..]
}

/// Character data: a text in the innermost open element, or white space outside.
fn say_of(innermost: Option<&Bytes>, text: Bytes) -> Result<Turn, Stop>
    ensures { Turns result (say_of (option_copied innermost.entry) text) }
{
    match innermost {
        Some(_) => Ok(Turn::Say(text)),
        None if is_blank(text.as_slice()) => Ok(Turn::Nothing),
        None => Err(Stop::Fault),
    }
}

/// A closing line, by the text behind its first byte.
fn finish_of(innermost: Option<&Bytes>, text: &[u8]) -> Result<Turn, Stop>
    ensures { Turns result (finish_of (option_copied innermost.entry) text.now) }
{
    match innermost {
        Some(name) if name.as_slice() == text => Ok(Turn::Finish),
        _ => Err(Stop::Fault),
    }
}

/// A deletion, by the text behind its first byte.
fn erase_of(alloc: Global, innermost: Option<&Bytes>, text: &[u8]) -> Result<Turn, Stop>
    ensures { Turns result (erase_of (option_copied innermost.entry) text.now) }
{
    if innermost.is_some() {
        return Err(Stop::Fault);
    }
    Ok(Turn::Erase(unescape(alloc, text)?))
}

/// What a line is behind the innermost open tag with this name, with these attributes if more may
/// stand here.
pub(crate) fn turn_of(
    alloc: Global,
    innermost: Option<&Bytes>,
    given: Option<&TagAttributes>,
    line: &[u8],
) -> Result<Turn, Stop>
    ensures { Turns result (turn_at (option_copied innermost.entry)
        (option_copied given.entry) line.now) }
{
    let Some((first, text)) = line.split_first() else {
        return Ok(Turn::Nothing);
    };
    if is_skipped(*first) {
        return Ok(Turn::Nothing);
    }
    match *first {
        b'(' => begin_of(alloc, text),
        b'A' => match given {
            Some(given) => give_of(alloc, given, text),
            None => Err(Stop::Fault),
        },
        b'-' => say_of(innermost, unescape(alloc, text)?),
        b')' => finish_of(innermost, text),
        b'!' => erase_of(alloc, innermost, text),
        _ => Err(Stop::Fault),
    }
}
