//! What the texts of this crate have in common.
ghost use Rattle.std.specs.Prelude.{◌≡◌, ◌≤◌, ◌++◌, length, take, decimal, OnOk, OnErr};
ghost use Rattle.std.specs.Io.{StartsWith};
ghost use Rattle.ncq_report.specs.Texts.{counted_line};

use itoa::Buffer;
use ncq_base::write_decimal;
use std::alloc::AllocError;

/// Ends a text that began behind so many bytes: after want of memory `out` is cut back to them.
pub(crate) fn finish(
    written: Result<(), AllocError>,
    before: usize,
    out: &mut Vec<u8>,
) -> Result<(), AllocError>
    requires { before ≤ length out.old.items }
    ensures same { result ≡ written }
    ensures ok { OnOk result (out.new.items ≡ out.old.items) }
    ensures err { OnErr result (out.new.items ≡ take before out.old.items) }
{
    if written.is_err() {
        out.truncate(before);
    }
    written
}

/// Appends a text and a number behind it; what was there stays in front.
pub(crate) fn write_numbered(text: &[u8], number: u64, out: &mut Vec<u8>) -> Result<(), AllocError>
    ensures ok { OnOk result (out.new.items ≡ out.old.items ++ text.now ++ decimal number) }
    ensures front { StartsWith out.new.items out.old.items }
{
    out.extend_from_slice(text)?;
    write_decimal(number, out)
}

/// Appends a line of a word and a number; what was there stays in front.
pub(crate) fn write_counted(word: &[u8], number: u128, out: &mut Vec<u8>) -> Result<(), AllocError>
    ensures ok { OnOk result (out.new.items ≡ out.old.items ++ counted_line word.now number) }
    ensures front { StartsWith out.new.items out.old.items }
{
    let mut buffer = Buffer::new();
    out.extend_from_slice(word)?;
    out.push(b' ')?;
    out.extend_from_slice(buffer.format(number).as_bytes())?;
    out.extend_from_slice(b"\n")
}
