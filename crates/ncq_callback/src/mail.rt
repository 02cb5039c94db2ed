//! The notice that is mailed.
ghost use Rattle.std.specs.Prelude.{◌≡◌, ◌++◌, length, take, OnOk, OnErr};
ghost use Rattle.std.specs.Io.{StartsWith};
ghost use Rattle.ncq_callback.specs.Texts.{mail_text, render};

use crate::notice::{Kind, Notice};
use crate::texts::write_begin;
use ncq_base::write_escaped;
use std::alloc::AllocError;

/// Appends the mail: a line with the argument, each difference with the canonical lines of its
/// forest, and `end`. After want of memory `out` is as before.
#[tactic(auto, unfolding(crate::specs::Texts::render))]
pub fn mail_notice(argument: &[u8], notice: &Notice, out: &mut Vec<u8>) -> Result<(), AllocError>
    ensures ok { OnOk result (out.new.items ≡ out.old.items
        ++ render Kind.MailTo argument.now notice.now.name notice.now.instant notice.now.entries) }
    ensures err { OnErr result (out.new.items ≡ out.old.items) }
{
    let before = out.len();
    let written = write_mail(argument, notice, out);
    if written.is_err() {
        out.truncate(before);
    }
    written
}

/// Appends the lines of a mail; what was there stays in front.
fn write_mail(argument: &[u8], notice: &Notice, out: &mut Vec<u8>) -> Result<(), AllocError>
    ensures ok { OnOk result (out.new.items ≡ out.old.items
        ++ mail_text argument.now notice.now.name notice.now.instant notice.now.entries) }
    ensures front { StartsWith out.new.items out.old.items }
{
    write_begin(b"mail ", notice.name.as_slice(), notice.instant, b" ", out)?;
    write_escaped(argument, out)?;
    out.push(b'\n')?;
    notice.entries.write_rest(out)
}
