//! The texts between quotation marks.
ghost use Rattle.std.specs.Prelude.{◌≡◌, ◌≤◌, ◌<◌, length, IfOk, IfSome};
ghost use Rattle.ncq_token.specs.Bytes.{quoted_at, quoted_byte};
ghost use Rattle.std.specs.Option.{option_map};

use ncq_base::{Bytes, bytes_of};
use std::alloc::{AllocError, Global};

/// The next byte of a quoted text, and what stands behind it.
fn quoted_byte(first: u8, after: &[u8]) -> (u8, &[u8])
    ensures value { (result.0, result.1.now) ≡ quoted_byte first after.now }
    ensures within { length result.1.now ≤ length after.now }
{
    let Some((second, rest)) = after.split_first() else {
        return (first, after);
    };
    if first == b'\\' && (*second == b'"' || *second == b'\\') {
        (*second, rest)
    } else {
        (first, after)
    }
}

/// The value of a quoted text behind its first quotation mark, and what stands behind its last.
pub(crate) fn quoted_at(alloc: Global, bytes: &[u8]) -> Result<Option<(Bytes, &[u8])>, AllocError>
    ensures value { IfOk result (λ found. option_map (λ p. (p.0, p.1.now)) found
        ≡ quoted_at bytes.now) }
    ensures within { IfOk result (λ found. IfSome found (λ p. length p.1.now < length bytes.now)) }
{
    let mut value = Vec::new(alloc);
    let mut rest = bytes;
    while let Some((first, after)) = rest.split_first() {
        if *first == b'"' {
            return Ok(Some((bytes_of(alloc, &value)?, after)));
        }
        let (byte, next) = quoted_byte(*first, after);
        value.push(byte)?;
        rest = next;
    }
    Ok(None)
}
