//! The tally of a load.
ghost use Rattle.std.specs.Prelude.{◌≡◌, ◌++◌, length, take, OnOk, OnErr};
ghost use Rattle.std.specs.Io.{StartsWith};
ghost use Rattle.ncq_report.specs.Texts.{tally_text};

use crate::texts::{finish, write_counted};
use std::alloc::AllocError;

/// What a load counts.
#[derive(Clone, Copy, Debug, PartialEq, Eq)]
pub struct Tally {
    /// The commands that were answered.
    pub commands: u64,
    /// Those of them that were refused.
    pub refused: u64,
    /// The notices that they gave.
    pub notices: u128,
    /// The bytes of the output.
    pub bytes: u128,
}

/// Appends the tally. After want of memory `out` is as before.
pub fn write_tally(tally: &Tally, out: &mut Vec<u8>) -> Result<(), AllocError>
    ensures ok { OnOk result (out.new.items ≡ out.old.items ++ tally_text tally.now) }
    ensures err { OnErr result (out.new.items ≡ out.old.items) }
{
    let before = out.len();
    let written = write_counts(tally, out);
    finish(written, before, out)
}

/// Appends the lines of the tally; what was there stays in front.
fn write_counts(tally: &Tally, out: &mut Vec<u8>) -> Result<(), AllocError>
    ensures ok { OnOk result (out.new.items ≡ out.old.items ++ tally_text tally.now) }
    ensures front { StartsWith out.new.items out.old.items }
{
    write_counted(b"commands", u128::from(tally.commands), out)?;
    write_counted(b"refused", u128::from(tally.refused), out)?;
    write_counted(b"notices", tally.notices, out)?;
    write_counted(b"bytes", tally.bytes, out)
}
