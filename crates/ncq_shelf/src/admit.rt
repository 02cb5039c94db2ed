//! A file that has rows of its own on its way in: all that may fail, before it is put in.
ghost use Rattle.std.specs.Prelude.{◌≡◌, ◌<◌, [], IfOk, OnOk, OnErr};
ghost use Rattle.indexmap.specs.IndexMap.{spare};
ghost use Rattle.ncq_shelf.specs.Enrolled.{GainsScan, IsUnread, OneEach, SameScans, ScansSource};
ghost use Rattle.ncq_shelf.specs.Groups.{IsGrouped};
ghost use Rattle.ncq_shelf.specs.Inputs.{AreInputs};
ghost use Rattle.ncq_shelf.specs.Keyed.{AreNotedIn, Grows, IsJoinFound};
ghost use Rattle.ncq_shelf.specs.Shown.{shown};
ghost use Rattle.ncq_shelf.specs.Wired.{AreAlike, IsEnrolled};

use crate::enroll::enroll;
use crate::file::File;
use crate::group::Group;
use crate::inputs::Inputs;
use crate::keyed::key_join;
use crate::keys::Keys;
use crate::scans::enroll_scan;
use crate::shared::share_inputs;
use indexmap::IndexMap;
use ncq_base::{Bytes, Shared};
use ncq_midfile::RangeFile;
use ncq_plan::Expr;
use ncq_readers::Readers;
use std::alloc::{AllocError, Global};
use std::hash::RandomState;

/// All that may fail before a new file that has rows of its own is put in: there is room for it,
/// and what it reads knows it. The answer is its expression, twice. After an error all know
/// what they knew; rows may be noted at more slots.
pub(crate) fn admit(
    alloc: Global,
    seed: RandomState,
    files: &mut IndexMap<u64, File>,
    groups: &IndexMap<Group, RangeFile>,
    numbers: &mut IndexMap<Shared<Expr>, u64, RandomState>,
    scans: &mut IndexMap<Bytes, Readers, RandomState>,
    keys: &mut Keys,
    expr: &Expr,
    inputs: Inputs,
    number: u64,
) -> Result<(Shared<Expr>, Shared<Expr>), AllocError>
    requires inputs { AreInputs (shown groups.now.entries files.old.entries) expr.now inputs }
    requires one { OneEach files.old.entries }
    requires unread { IsUnread files.old.entries expr.now number }
    requires grouped { IsGrouped files.old.entries groups.now.entries }
    ensures copies { IfOk result (λ copies. (copies.0 ≡ expr.now) × (copies.1 ≡ expr.now)) }
    ensures known { OnOk result (IsEnrolled files.old.entries expr.now number files.new.entries) }
    ensures scan { OnOk result (GainsScan scans.old.entries (λ source. ScansSource source expr.now)
        number scans.new.entries) }
    ensures found { OnOk result (IsJoinFound keys.new number expr.now inputs) }
    ensures room { OnOk result (0 < spare files.new) }
    ensures spare { OnOk result (0 < spare numbers.new) }
    ensures alike { OnErr result (AreAlike files.old.entries files.new.entries) }
    ensures scans { OnErr result (SameScans scans.old.entries scans.new.entries) }
    ensures numbers { numbers.new.entries ≡ numbers.old.entries }
    ensures grows { Grows (AreNotedIn groups.now.entries files.old.entries keys.new.holders)
        keys.old keys.new }
{
    key_join(keys, files, groups, expr, inputs, number)?;
    let copies = make_room(alloc, files, numbers, expr, inputs)?;
    announce(alloc, seed, files, scans, expr, inputs, number).and(Ok(copies))
}

/// The files that the expression reads, and its source if it is a scan, know the number from now
/// on. After an error all know what they knew.
fn announce(
    alloc: Global,
    seed: RandomState,
    files: &mut IndexMap<u64, File>,
    scans: &mut IndexMap<Bytes, Readers, RandomState>,
    expr: &Expr,
    inputs: Inputs,
    number: u64,
) -> Result<(), AllocError>
    requires inputs { AreInputs (shown [] files.old.entries) expr.now inputs }
    requires one { OneEach files.old.entries }
    requires unread { IsUnread files.old.entries expr.now number }
    ensures known { OnOk result (IsEnrolled files.old.entries expr.now number files.new.entries) }
    ensures scan { OnOk result (GainsScan scans.old.entries (λ source. ScansSource source expr.now)
        number scans.new.entries) }
    ensures alike { OnErr result (AreAlike files.old.entries files.new.entries) }
    ensures scans { OnErr result (SameScans scans.old.entries scans.new.entries) }
    ensures room { spare files.new ≡ spare files.old }
{
    enroll(alloc, seed, files, expr, inputs, number)?;
    enroll_scan(alloc, scans, expr, number)
}

/// Room for one more file, and its expression for two owners: one finds it, the other is the file.
/// It shares the expressions of the files that it reads. The files and their numbers stay as they
/// are.
pub(crate) fn make_room(
    alloc: Global,
    files: &mut IndexMap<u64, File>,
    numbers: &mut IndexMap<Shared<Expr>, u64, RandomState>,
    expr: &Expr,
    inputs: Inputs,
) -> Result<(Shared<Expr>, Shared<Expr>), AllocError>
    requires inputs { AreInputs (shown [] files.old.entries) expr.now inputs }
    requires one { OneEach files.old.entries }
    ensures copies { IfOk result (λ copies. (copies.0 ≡ expr.now) × (copies.1 ≡ expr.now)) }
    ensures files { files.new.entries ≡ files.old.entries }
    ensures numbers { numbers.new.entries ≡ numbers.old.entries }
    ensures room { OnOk result (0 < spare files.new) }
    ensures spare { OnOk result (0 < spare numbers.new) }
{
    let own = share_inputs(alloc, files, expr, inputs)?;
    files.reserve(1)?;
    numbers.reserve(1)?;
    Ok((own.share()?, own))
}
