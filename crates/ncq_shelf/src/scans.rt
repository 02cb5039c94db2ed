//! The scans of each source, by their numbers.
ghost use Rattle.std.specs.Prelude.{◌≡◌, ◌⊎◌, OnOk, OnErr};
ghost use Rattle.ncq_shelf.specs.Enrolled.{ScansSource, GainsScan, LosesScan, SameScans};
ghost use Rattle.ncq_shelf.specs.Wired.{Reads};

use indexmap::IndexMap;
use ncq_base::{Bytes, Copied};
use ncq_plan::Expr;
use ncq_readers::Readers;
use std::alloc::{AllocError, Global};
use std::hash::RandomState;

/// If the expression is a scan, its source knows the number from now on. After an error, which
/// only a scan's can end in, all sources know what they knew.
pub(crate) fn enroll_scan(
    alloc: Global,
    scans: &mut IndexMap<Bytes, Readers, RandomState>,
    expr: &Expr,
    number: u64,
) -> Result<(), AllocError>
    ensures ok { OnOk result (GainsScan scans.old.entries (λ source. ScansSource source expr.now)
        number scans.new.entries) }
    ensures err { OnErr result (SameScans scans.old.entries scans.new.entries) }
    ensures scan { OnErr result ((inner : _) (reading : _) → Reads inner reading expr.now → ⊥) }
{
    match expr {
        Expr::Scan { source, .. } => add_scan(alloc, scans, source, number),
        _ => Ok(()),
    }
}

/// If the expression is a scan, its source knows the number no more. It takes no memory.
pub(crate) fn strike_scan(
    scans: &mut IndexMap<Bytes, Readers, RandomState>,
    expr: &Expr,
    number: u64,
)
    ensures { LosesScan scans.old.entries (λ source. ScansSource source expr.now) number
        scans.new.entries }
{
    match expr {
        Expr::Scan { source, .. } => remove_scan(scans, source, number),
        _ => {}
    }
}

/// The source knows the number from now on.
fn add_scan(
    alloc: Global,
    scans: &mut IndexMap<Bytes, Readers, RandomState>,
    source: &Bytes,
    number: u64,
) -> Result<(), AllocError>
    ensures ok { OnOk result (GainsScan scans.old.entries (λ other. other ≡ source.now) number
        scans.new.entries) }
    ensures err { OnErr result (SameScans scans.old.entries scans.new.entries) }
{
    if let Some(readers) = scans.get_mut(source) {
        return readers.add_join(number);
    }
    let key = source.copy(alloc)?;
    let mut readers = Readers::new(alloc);
    readers.add_join(number)?;
    scans.insert(key, readers)?;
    Ok(())
}

/// The source knows the number no more.
fn remove_scan(scans: &mut IndexMap<Bytes, Readers, RandomState>, source: &Bytes, number: u64)
    ensures { LosesScan scans.old.entries (λ other. other ≡ source.now) number scans.new.entries }
{
    let Some(readers) = scans.get_mut(source) else {
        return;
    };
    readers.remove_join(number);
    if !readers.is_empty() {
        return;
    }
    scans.swap_remove(source);
}
