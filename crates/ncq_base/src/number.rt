//! Texts that are numbers: an optional sign, 1 to 15 digits, and optionally a point and 1 to 6
//! digits.
ghost use Rattle.std.specs.Prelude.{◌≡◌, ◌≤◌, ◌<◌, ◌^◌, length, IfOk, IfSome, IsTrue};
ghost use Rattle.std.specs.List.{list_all, prefix_len};
ghost use Rattle.ncq_base.specs.Atoms.{fraction_of, unsigned_of, number_of, atom_of, same_atom};
ghost use Rattle.ncq_base.specs.Numbers.{is_digit};

use crate::atom::Atom;
use crate::bytes::{Bytes, bytes_of};
use crate::digits::{are_digits, digits_value};
use std::alloc::{AllocError, Global};

/// The atom of a text.
pub fn atom_of(alloc: Global, text: &[u8]) -> Result<Atom, AllocError>
    ensures { IfOk result (λ a. a ≡ atom_of text.now) }
{
    match number_of(text) {
        Some(n) => Ok(Atom::Num(n)),
        None => Ok(Atom::Text(bytes_of(alloc, text)?)),
    }
}

/// The atom of a text that is not needed any more, which takes no memory.
pub fn into_atom(text: Bytes) -> Atom
    ensures { result ≡ atom_of text }
{
    match number_of(text.as_slice()) {
        Some(n) => Atom::Num(n),
        None => Atom::Text(text),
    }
}

/// Whether the atom is that of the text. It takes no memory.
pub fn is_atom_of(atom: &Atom, text: &[u8]) -> bool
    ensures { result ≡ same_atom (atom_of text.now) atom.now }
{
    match (atom, number_of(text)) {
        (Atom::Num(m), Some(n)) => *m == n,
        (Atom::Text(own), None) => own.as_slice() == text,
        _ => false,
    }
}

/// An optional sign, 1 to 15 digits, and optionally a point and 1 to 6 digits. In millionths.
fn number_of(text: &[u8]) -> Option<i128>
    ensures { result ≡ number_of text.now }
{
    let (sign, rest) = text.split_first()?;
    match *sign {
        b'-' => Some(-(unsigned_of(rest)? as i128)),
        b'+' => Some(unsigned_of(rest)? as i128),
        _ => Some(unsigned_of(text)? as i128),
    }
}

fn unsigned_of(text: &[u8]) -> Option<u128>
    ensures value { result ≡ unsigned_of text.now }
    ensures bound { IfSome result (λ n. n < 10 ^ 21) }
{
    let n = leading_digits(text);
    if n == 0 || n > 15 {
        return None;
    }
    let (whole, rest) = text.split_at(n);
    let fraction = fraction_of(rest)?;
    Some(digits_value(whole) * 1_000_000 + fraction)
}

fn fraction_of(text: &[u8]) -> Option<u128>
    ensures value { result ≡ fraction_of text.now }
    ensures bound { IfSome result (λ f. f < 1000000) }
{
    let Some((point, digits)) = text.split_first() else {
        return Some(0);
    };
    if *point != b'.' || digits.is_empty() || digits.len() > 6 || !are_digits(digits) {
        return None;
    }
    Some(digits_value(digits) * 10u128.pow((6 - digits.len()) as u32))
}

fn leading_digits(text: &[u8]) -> usize
    ensures value { result ≡ prefix_len is_digit text.now }
    ensures within { result ≤ length text.now }
{
    text.iter().take_while(|b| b.is_ascii_digit()).count()
}
