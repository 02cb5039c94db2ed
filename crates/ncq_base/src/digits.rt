//! Decimal digits and the whole numbers that they write.
ghost use Rattle.std.specs.Prelude.{◌≡◌, ◌≤◌, ◌<◌, ◌^◌, ◌++◌, length, decimal, IsTrue, OnOk, OnErr};
ghost use Rattle.std.specs.List.{list_all};
ghost use Rattle.ncq_base.specs.Numbers.{is_digit, digits_value, read_u64};

use itoa::Buffer;
use std::alloc::AllocError;

/// The number that a text of 1 to 20 ASCII digits writes, leading zeros included.
///
/// None exactly where the text is anything else, or its number is above 18446744073709551615.
pub fn read_u64(text: &[u8]) -> Option<u64>
    ensures { result ≡ read_u64 text.now }
{
    if text.is_empty() || text.len() > 20 || !are_digits(text) {
        return None;
    }
    u64::try_from(digits_value(text)).ok()
}

/// Appends the decimal text of `n`, without leading zeros. After want of memory `out` is as before.
pub fn write_decimal(n: u64, out: &mut Vec<u8>) -> Result<(), AllocError>
    ensures ok { OnOk result (out.new.items ≡ out.old.items ++ decimal n) }
    ensures err { OnErr result (out.new.items ≡ out.old.items) }
{
    let mut buffer = Buffer::new();
    out.extend_from_slice(buffer.format(n).as_bytes())
}

pub(crate) fn are_digits(text: &[u8]) -> bool
    ensures { result ≡ list_all is_digit text.now }
{
    text.iter().all(|b| b.is_ascii_digit())
}

pub(crate) fn digits_value(digits: &[u8]) -> u128
    requires long { length digits.now ≤ 20 }
    requires digits { IsTrue (list_all is_digit digits.now) }
    ensures value { result ≡ digits_value digits.now }
    ensures bound { result < 10 ^ length digits.now }
{
    let mut n = 0u128;
    for digit in digits {
        n = n * 10 + u128::from(digit - b'0');
    }
    n
}
