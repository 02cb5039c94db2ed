//! The texts of atoms.
ghost use Rattle.std.specs.Prelude.{◌≡◌, ◌+◌, ◌*◌, ◌/◌, ◌++◌, ◌<◌, length, take, OnOk, OnErr};
ghost use Rattle.std.specs.Prelude.{decimal};
ghost use Rattle.ncq_base.specs.AtomTexts.{atom_text, number_text, size_text, sign_text};
ghost use Rattle.ncq_base.specs.AtomTexts.{fraction_text, fraction_digits, quoted_text};
ghost use Rattle.ncq_base.specs.AtomTexts.{quoted_byte};
ghost use Rattle.std.specs.List.{flat_map};
ghost use Rattle.std.specs.Io.{StartsWith};

use crate::atom::Atom;
use crate::escape::write_escaped;
use itoa::Buffer;
use std::alloc::AllocError;

/// Appends the text of an atom: a number in decimal without needless zeros, a text in quotation
/// marks with its escapes. After want of memory `out` is as before.
pub fn write_atom(atom: &Atom, out: &mut Vec<u8>) -> Result<(), AllocError>
    ensures ok { OnOk result (out.new.items ≡ out.old.items ++ atom_text atom.now) }
    ensures err { OnErr result (out.new.items ≡ out.old.items) }
{
    let before = out.len();
    let written = push_atom(atom, out);
    if written.is_err() {
        out.truncate(before);
    }
    written
}

/// Appends the text of an atom; what was there stays in front.
fn push_atom(atom: &Atom, out: &mut Vec<u8>) -> Result<(), AllocError>
    ensures ok { OnOk result (out.new.items ≡ out.old.items ++ atom_text atom.now) }
    ensures front { StartsWith out.new.items out.old.items }
{
    match atom {
        Atom::Num(n) => write_number(*n, out),
        Atom::Text(text) => push_quoted(text.as_slice(), out),
    }
}

/// Appends a number that is given in millionths; what was there stays in front.
pub fn write_number(n: i128, out: &mut Vec<u8>) -> Result<(), AllocError>
    ensures ok { OnOk result (out.new.items ≡ out.old.items ++ number_text n) }
    ensures front { StartsWith out.new.items out.old.items }
{
    push_sign(n, out)?;
    push_size(n.unsigned_abs(), out)
}

/// Appends a number without its sign; what was there stays in front.
fn push_size(size: u128, out: &mut Vec<u8>) -> Result<(), AllocError>
    ensures ok { OnOk result (out.new.items ≡ out.old.items ++ size_text size) }
    ensures front { StartsWith out.new.items out.old.items }
{
    push_whole(size / 1_000_000, out)?;
    push_fraction(size % 1_000_000, out)
}

/// Appends `-` for a negative number; what was there stays in front.
fn push_sign(n: i128, out: &mut Vec<u8>) -> Result<(), AllocError>
    ensures ok { OnOk result (out.new.items ≡ out.old.items ++ sign_text n) }
    ensures front { StartsWith out.new.items out.old.items }
{
    if n < 0 {
        out.push(b'-')?;
    }
    Ok(())
}

/// Appends a whole number without leading zeros; what was there stays in front.
fn push_whole(n: u128, out: &mut Vec<u8>) -> Result<(), AllocError>
    ensures ok { OnOk result (out.new.items ≡ out.old.items ++ decimal n) }
    ensures front { StartsWith out.new.items out.old.items }
{
    let mut buffer = Buffer::new();
    out.extend_from_slice(buffer.format(n).as_bytes())
}

/// Appends a point and the digits of a fraction of 1, in millionths, without trailing zeros, and
/// nothing for 0; what was there stays in front.
fn push_fraction(fraction: u128, out: &mut Vec<u8>) -> Result<(), AllocError>
    requires { fraction < 1000000 }
    ensures ok { OnOk result (out.new.items ≡ out.old.items ++ fraction_text fraction) }
    ensures front { StartsWith out.new.items out.old.items }
{
    if fraction == 0 {
        return Ok(());
    }
    out.push(b'.')?;
    push_digits(6, fraction, out)
}

/// Appends at most so many digits of a fraction, as long as something is left; what was there stays
/// in front.
#[tactic(auto, using(crate::proofs::FractionLaws::digits_are))]
fn push_digits(most: usize, fraction: u128, out: &mut Vec<u8>) -> Result<(), AllocError>
    requires { fraction < 1000000 }
    ensures ok { OnOk result (out.new.items ≡ out.old.items ++ fraction_digits most fraction) }
    ensures front { StartsWith out.new.items out.old.items }
{
    if most == 0 {
        return Ok(());
    }
    if fraction == 0 {
        return Ok(());
    }
    out.push(first_digit(fraction))?;
    push_digits(most - 1, fraction * 10 % 1_000_000, out)
}

/// The first digit of a fraction.
fn first_digit(fraction: u128) -> u8
    requires { fraction < 1000000 }
    ensures { result ≡ 48 + fraction * 10 / 1000000 }
{
    let digit = fraction * 10 / 1_000_000;
    b'0' + digit as u8
}

/// Appends a text in quotation marks, with its escapes; what was there stays in front.
fn push_quoted(text: &[u8], out: &mut Vec<u8>) -> Result<(), AllocError>
    ensures ok { OnOk result (out.new.items ≡ out.old.items ++ quoted_text text.now) }
    ensures front { StartsWith out.new.items out.old.items }
{
    out.push(b'"')?;
    push_quoted_bytes(text, out)?;
    out.push(b'"')?;
    Ok(())
}

/// Appends each byte of a text with its escape; what was there stays in front.
fn push_quoted_bytes(text: &[u8], out: &mut Vec<u8>) -> Result<(), AllocError>
    ensures ok { OnOk result (out.new.items ≡ out.old.items ++ flat_map quoted_byte text.now) }
    ensures front { StartsWith out.new.items out.old.items }
{
    for byte in text {
        push_quoted_byte(*byte, out)?;
    }
    Ok(())
}

fn push_quoted_byte(byte: u8, out: &mut Vec<u8>) -> Result<(), AllocError>
    ensures ok { OnOk result (out.new.items ≡ out.old.items ++ quoted_byte byte) }
    ensures front { StartsWith out.new.items out.old.items }
{
    match byte {
        b'"' => out.extend_from_slice(b"\\\""),
        _ => write_escaped(&[byte], out),
    }
}
