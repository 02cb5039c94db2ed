//! What the texts of notices have in common.
ghost use Rattle.std.specs.Prelude.{◌≡◌, ◌++◌, length, take, OnOk};
ghost use Rattle.std.specs.Io.{StartsWith};
ghost use Rattle.ncq_callback.specs.KeptTexts.{instant_text, rest_text};
ghost use Rattle.ncq_callback.specs.Texts.{begin_text, entries_text, entry_text};

use ncq_bag::Difference;
use ncq_base::write_decimal;
use std::alloc::AllocError;

/// Appends a word, the name, the instant and what stands behind; what was there stays in front.
pub(crate) fn write_begin(
    word: &[u8],
    name: &[u8],
    instant: u64,
    behind: &[u8],
    out: &mut Vec<u8>,
) -> Result<(), AllocError>
    ensures ok { OnOk result
        (out.new.items ≡ out.old.items ++ begin_text word.now name.now instant behind.now) }
    ensures front { StartsWith out.new.items out.old.items }
{
    out.extend_from_slice(word)?;
    out.extend_from_slice(name)?;
    write_instant(instant, behind, out)
}

/// Appends the instant behind a name, and what stands behind it; what was there stays in front.
pub(crate) fn write_instant(
    instant: u64,
    behind: &[u8],
    out: &mut Vec<u8>,
) -> Result<(), AllocError>
    ensures ok { OnOk result (out.new.items ≡ out.old.items ++ instant_text instant behind.now) }
    ensures front { StartsWith out.new.items out.old.items }
{
    out.push(b' ')?;
    write_decimal(instant, out)?;
    out.extend_from_slice(behind)
}

/// Appends the entries and `end`; what was there stays in front.
pub(crate) fn write_rest(entries: &[Difference], out: &mut Vec<u8>) -> Result<(), AllocError>
    ensures ok { OnOk result (out.new.items ≡ out.old.items ++ rest_text entries.now) }
    ensures front { StartsWith out.new.items out.old.items }
{
    write_entries(entries, out)?;
    out.extend_from_slice(b"end\n")
}

/// Appends the entries; what was there stays in front.
fn write_entries(entries: &[Difference], out: &mut Vec<u8>) -> Result<(), AllocError>
    ensures ok { OnOk result (out.new.items ≡ out.old.items ++ entries_text entries.now) }
    ensures front { StartsWith out.new.items out.old.items }
{
    for entry in entries {
        write_entry(entry, out)?;
    }
    Ok(())
}

/// Appends an entry; what was there stays in front.
fn write_entry(entry: &Difference, out: &mut Vec<u8>) -> Result<(), AllocError>
    ensures ok { OnOk result (out.new.items ≡ out.old.items ++ entry_text entry.now) }
    ensures front { StartsWith out.new.items out.old.items }
{
    let word: &[u8] = if entry.gain { b"gain " } else { b"lose " };
    out.extend_from_slice(word)?;
    write_decimal(entry.count, out)?;
    out.push(b'\n')?;
    out.extend_from_slice(entry.bytes.as_slice())
}
