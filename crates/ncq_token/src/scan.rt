//! How long the names and words at the front of a text are.
ghost use Rattle.std.specs.Prelude.{◌≡◌, ◌≤◌, ◌<◌, length, take, drop, IsTrue};
ghost use Rattle.ncq_base.specs.Names.{is_name_byte};
ghost use Rattle.ncq_token.specs.Bytes.{is_variable_byte, is_word_byte, starts_with, name_len};
ghost use Rattle.ncq_token.specs.Bytes.{variable_len, word_len};
ghost use Rattle.std.specs.List.{prefix_len};

use ncq_base::{is_name_byte, is_name_start, is_space, is_variable_start};

/// Whether the byte can follow in the name of a variable.
fn is_variable_byte(b: u8) -> bool
    ensures { result ≡ is_variable_byte b }
{
    is_variable_start(b) || b.is_ascii_digit()
}

/// Whether a word can have the byte, a `!` before `=` apart.
fn is_word_byte(b: u8) -> bool
    ensures { result ≡ is_word_byte b }
{
    !(is_space(b) || b == b'<' || b == b'>' || b == b'=' || b == b'"' || b == b'$' || b == b',')
}

/// Whether the byte stands in front.
pub(crate) fn starts_with(b: u8, bytes: &[u8]) -> bool
    ensures value { result ≡ starts_with b bytes.now }
    ensures some { IsTrue result → 0 < length bytes.now }
{
    match bytes {
        [] => false,
        [first, ..] => *first == b,
    }
}

/// How many bytes in front can follow in a name.
fn name_bytes(bytes: &[u8]) -> usize
    ensures value { result ≡ prefix_len is_name_byte bytes.now }
    ensures within { result ≤ length bytes.now }
{
    bytes.iter().take_while(|b| is_name_byte(**b)).count()
}

/// How long the name at the front is, or 0.
pub(crate) fn name_len(bytes: &[u8]) -> usize
    ensures value { result ≡ name_len bytes.now }
    ensures within { result ≤ length bytes.now }
{
    let Some((first, rest)) = bytes.split_first() else {
        return 0;
    };
    if !is_name_start(*first) {
        return 0;
    }
    1 + name_bytes(rest)
}

/// How many bytes in front can follow in the name of a variable.
fn variable_bytes(bytes: &[u8]) -> usize
    ensures value { result ≡ prefix_len is_variable_byte bytes.now }
    ensures within { result ≤ length bytes.now }
{
    bytes.iter().take_while(|b| is_variable_byte(**b)).count()
}

/// How long the variable name at the front is, or 0.
pub(crate) fn variable_len(bytes: &[u8]) -> usize
    ensures value { result ≡ variable_len bytes.now }
    ensures within { result ≤ length bytes.now }
{
    let Some((first, rest)) = bytes.split_first() else {
        return 0;
    };
    if !is_variable_start(*first) {
        return 0;
    }
    1 + variable_bytes(rest)
}

/// How long the word at the front is, or 0.
pub(crate) fn word_len(bytes: &[u8]) -> usize
    ensures value { result ≡ word_len bytes.now }
    ensures within { result ≤ length bytes.now }
{
    let mut len = 0;
    let mut rest = bytes;
    while let Some((first, after)) = rest.split_first() {
        if !is_word_byte(*first) || (*first == b'!' && starts_with(b'=', after)) {
            break;
        }
        len += 1;
        rest = after;
    }
    len
}

/// The first bytes.
pub(crate) fn front_of(bytes: &[u8], len: usize) -> &[u8]
    requires { len ≤ length bytes.now }
    ensures { result.now ≡ take len bytes.now }
{
    &bytes[..len]
}

/// The bytes from a place on.
pub(crate) fn rest_of(bytes: &[u8], at: usize) -> &[u8]
    requires { at ≤ length bytes.now }
    ensures { result.now ≡ drop at bytes.now }
{
    &bytes[at..]
}
