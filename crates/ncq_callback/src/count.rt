//! The notice that tells sums.
ghost use Rattle.std.specs.Prelude.{◌≡◌, ◌++◌, codes, length, take, decimal, OnOk, OnErr};
ghost use Rattle.std.specs.Io.{StartsWith};
ghost use Rattle.ncq_callback.specs.Texts.{count_text, gained, lost, render};

use crate::notice::{Kind, Notice};
use crate::texts::write_begin;
use itoa::Buffer;
use ncq_bag::Difference;
use std::alloc::AllocError;

/// Appends one line with the sums of what is gained and of what is lost. After want of memory
/// `out` is as before.
#[tactic(auto, unfolding(crate::specs::Texts::render))]
pub fn count_notice(_argument: &[u8], notice: &Notice, out: &mut Vec<u8>) -> Result<(), AllocError>
    ensures ok { OnOk result (out.new.items ≡ out.old.items
        ++ render Kind.Count _argument.now notice.now.name notice.now.instant notice.now.entries) }
    ensures err { OnErr result (out.new.items ≡ out.old.items) }
{
    let before = out.len();
    let written = write_count(notice, out);
    if written.is_err() {
        out.truncate(before);
    }
    written
}

/// Appends the line; what was there stays in front.
fn write_count(notice: &Notice, out: &mut Vec<u8>) -> Result<(), AllocError>
    ensures ok { OnOk result (out.new.items ≡ out.old.items
        ++ count_text notice.now.name notice.now.instant notice.now.entries) }
    ensures front { StartsWith out.new.items out.old.items }
{
    write_begin(
        b"count ",
        notice.name.as_slice(),
        notice.instant,
        b" gain ",
        out,
    )?;
    write_sums(notice.entries.as_slice(), out)
}

/// Appends the sums, with `lose` between them, and ends the line; what was there stays in front.
fn write_sums(entries: &[Difference], out: &mut Vec<u8>) -> Result<(), AllocError>
    ensures ok { OnOk result (out.new.items ≡ out.old.items ++ (decimal (gained entries.now)
        ++ codes " lose " ++ decimal (lost entries.now) ++ codes "\n")) }
    ensures front { StartsWith out.new.items out.old.items }
{
    write_sum(gained(entries), out)?;
    out.extend_from_slice(b" lose ")?;
    write_sum(lost(entries), out)?;
    out.extend_from_slice(b"\n")
}

/// Appends the decimal text of a sum.
fn write_sum(sum: u128, out: &mut Vec<u8>) -> Result<(), AllocError>
    ensures ok { OnOk result (out.new.items ≡ out.old.items ++ decimal sum) }
    ensures err { OnErr result (out.new.items ≡ out.old.items) }
{
    let mut buffer = Buffer::new();
    out.extend_from_slice(buffer.format(sum).as_bytes())
}

/// The sum of the counts that are gained.
fn gained(entries: &[Difference]) -> u128
    ensures { result ≡ gained entries.now }
{
    let mut sum = 0u128;
    for entry in entries {
        if entry.gain {
            sum += u128::from(entry.count);
        }
    }
    sum
}

/// The sum of the counts that are lost.
fn lost(entries: &[Difference]) -> u128
    ensures { result ≡ lost entries.now }
{
    let mut sum = 0u128;
    for entry in entries {
        if !entry.gain {
            sum += u128::from(entry.count);
        }
    }
    sum
}
