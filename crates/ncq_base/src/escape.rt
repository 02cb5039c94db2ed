//! The escapes of texts, values and keys.
ghost use Rattle.std.specs.Prelude.{◌≡◌, ◌++◌, ◌≤◌, List, ℕ, length, take, IfOk, OnOk, OnErr};
ghost use Rattle.std.specs.Prelude.{vec_len};
ghost use Rattle.ncq_base.specs.Escapes.{meant, unescaped, escaped, escaped_byte, is_literal};
ghost use Rattle.ncq_base.specs.Escapes.{is_plain};
ghost use Rattle.std.specs.List.{list_all};
ghost use Rattle.std.specs.Io.{StartsWith};

use crate::bytes::{Bytes, bytes_of};
use std::alloc::{AllocError, Global};

/// The bytes that a text stands for: `\n` is LF, `\t` tab, `\r` CR and `\\` a backslash; any other
/// backslash stands for itself.
#[tactic(auto, using(crate::proofs::EscapeLaws::literal_unescaped))]
pub fn unescape(alloc: Global, text: &[u8]) -> Result<Bytes, AllocError>
    ensures { IfOk result (λ b. b ≡ unescaped text.now) }
{
    if are_literal(text) {
        return bytes_of(alloc, text);
    }
    let mut out = Vec::new(alloc);
    let mut behind = false;
    for byte in text {
        if behind {
            push_meant(*byte, &mut out)?;
            behind = false;
        } else if *byte == b'\\' {
            behind = true;
        } else {
            out.push(*byte)?;
        }
    }
    if behind {
        out.push(b'\\')?;
    }
    Ok(Bytes::from_vec(out))
}

/// Whether no byte of the text is a backslash.
fn are_literal(text: &[u8]) -> bool
    ensures { result ≡ list_all is_literal text.now }
{
    text.iter().all(|b| *b != b'\\')
}

/// Appends the text, with LF, tab, CR and backslash escaped. After want of memory `out` is as
/// before.
pub fn write_escaped(text: &[u8], out: &mut Vec<u8>) -> Result<(), AllocError>
    ensures ok { OnOk result (out.new.items ≡ out.old.items ++ escaped text.now) }
    ensures err { OnErr result (out.new.items ≡ out.old.items) }
{
    let before = out.len();
    let result = push_escaped_all(text, out);
    if result.is_err() {
        out.truncate(before);
    }
    result
}

/// Appends what a backslash and this byte stand for.
fn push_meant(byte: u8, out: &mut Vec<u8>) -> Result<(), AllocError>
    ensures { OnOk result (out.new.items ≡ out.old.items ++ meant byte) }
{
    match byte {
        b'n' => out.push(b'\n')?,
        b't' => out.push(b'\t')?,
        b'r' => out.push(b'\r')?,
        b'\\' => out.push(b'\\')?,
        _ => {
            out.push(b'\\')?;
            out.push(byte)?;
        }
    }
    Ok(())
}

/// Whether each byte of the text is written as it stands.
fn are_plain(text: &[u8]) -> bool
    ensures { result ≡ list_all is_plain text.now }
{
    text.iter().all(|b| is_plain(*b))
}

fn is_plain(byte: u8) -> bool
    ensures { result ≡ is_plain byte }
{
    byte != b'\n' && byte != b'\t' && byte != b'\r' && byte != b'\\'
}

/// Appends the text with its escapes; what was there stays in front.
#[tactic(auto, using(crate::proofs::EscapeLaws::plain_escaped))]
fn push_escaped_all(text: &[u8], out: &mut Vec<u8>) -> Result<(), AllocError>
    ensures ok { OnOk result (out.new.items ≡ out.old.items ++ escaped text.now) }
    ensures front { StartsWith out.new.items out.old.items }
{
    if are_plain(text) {
        return out.extend_from_slice(text);
    }
    for byte in text {
        push_escaped(*byte, out)?;
    }
    Ok(())
}

fn push_escaped(byte: u8, out: &mut Vec<u8>) -> Result<(), AllocError>
    ensures ok { OnOk result (out.new.items ≡ out.old.items ++ escaped_byte byte) }
    ensures err { OnErr result (out.new.items ≡ out.old.items) }
{
    match byte {
        b'\n' => out.extend_from_slice(b"\\n"),
        b'\t' => out.extend_from_slice(b"\\t"),
        b'\r' => out.extend_from_slice(b"\\r"),
        b'\\' => out.extend_from_slice(b"\\\\"),
        _ => Ok(out.push(byte)?),
    }
}
