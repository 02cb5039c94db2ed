//! The text of a report.
ghost use Rattle.std.specs.Prelude.{◌≡◌, ◌++◌, length, take, OnOk, OnErr};
ghost use Rattle.std.specs.List.{flat_map};
ghost use Rattle.std.specs.Io.{StartsWith};
ghost use Rattle.ncq_report.specs.Texts.{group_text, report_text};

use crate::texts::{finish, write_counted, write_numbered};
use ncq_signature::{GroupLine, GroupLines};
use std::alloc::AllocError;

/// What a report tells of an engine.
#[derive(Debug)]
pub struct Summary {
    /// How many subscriptions are live.
    pub queries: u64,
    /// How many sources are declared.
    pub sources: u64,
    /// How many deltas were accepted.
    pub changes: u64,
    /// How many files are kept.
    pub files: u64,
    /// Their groups, in the order of their lines.
    pub groups: GroupLines,
}

impl Drop for Summary {
    fn drop(self) {
        let Summary {
            queries: _,
            sources: _,
            changes: _,
            files: _,
            groups,
        } = self;
        drop(groups);
    }
}

/// Appends the report. After want of memory `out` is as before.
pub fn write_report(summary: &Summary, out: &mut Vec<u8>) -> Result<(), AllocError>
    ensures ok { OnOk result (out.new.items ≡ out.old.items ++ report_text summary.now) }
    ensures err { OnErr result (out.new.items ≡ out.old.items) }
{
    let before = out.len();
    let written = write_lines(summary, out);
    finish(written, before, out)
}

/// Appends the lines of the report; what was there stays in front.
fn write_lines(summary: &Summary, out: &mut Vec<u8>) -> Result<(), AllocError>
    ensures ok { OnOk result (out.new.items ≡ out.old.items ++ report_text summary.now) }
    ensures front { StartsWith out.new.items out.old.items }
{
    let groups = summary.groups.as_slice();
    write_counted(b"queries", u128::from(summary.queries), out)?;
    write_counted(b"sources", u128::from(summary.sources), out)?;
    write_counted(b"changes", u128::from(summary.changes), out)?;
    write_counted(b"files", u128::from(summary.files), out)?;
    write_counted(b"groups", groups.len() as u128, out)?;
    write_groups(groups, out)?;
    out.extend_from_slice(b"end\n")
}

/// Appends the lines of the groups; what was there stays in front.
fn write_groups(groups: &[GroupLine], out: &mut Vec<u8>) -> Result<(), AllocError>
    ensures ok { OnOk result (out.new.items ≡ out.old.items ++ flat_map group_text groups.now) }
    ensures front { StartsWith out.new.items out.old.items }
{
    for group in groups {
        write_group(group, out)?;
    }
    Ok(())
}

/// Appends the line of a group; what was there stays in front.
fn write_group(group: &GroupLine, out: &mut Vec<u8>) -> Result<(), AllocError>
    ensures ok { OnOk result (out.new.items ≡ out.old.items ++ group_text group.now) }
    ensures front { StartsWith out.new.items out.old.items }
{
    write_numbered(b"group ", group.constants, out)?;
    out.push(b' ')?;
    out.extend_from_slice(group.text.as_slice())?;
    out.extend_from_slice(b"\n")
}
