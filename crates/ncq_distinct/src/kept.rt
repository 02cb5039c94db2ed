//! Counts by install number, and what is done with those of one subscription.
ghost use Rattle.std.specs.Prelude.{◌≡◌, ◌≤◌, ℕ, nat_eq, false, length, IfOk, IsSome, OnOk};
ghost use Rattle.ncq_bag.specs.Counts.{after, turns, IsChange};
ghost use Rattle.ncq_distinct.specs.DistinctTables.{AreRising};
ghost use Rattle.ncq_distinct.specs.Kept.{counts_of, state_at, AreKept, HasRoom};

use indexmap::IndexMap;
use ncq_bag::{Counts, Pending};
use ncq_callback::Entries;
use std::alloc::{AllocError, Global};
use std::hash::RandomState;

/// What of the entries leaves 0 or reaches it in the counts of the subscription, and the changes,
/// with their room. Where the subscription has no counts, no forest stands yet.
pub(crate) fn turns_at(
    counts: &mut IndexMap<u64, Counts>,
    alloc: Global,
    seed: RandomState,
    install: u64,
    entries: &Entries,
) -> Result<(Entries, Pending), AllocError>
    requires { AreRising entries.now }
    ensures kept { AreKept counts.old.entries counts.new.entries }
    ensures can { OnOk result (HasRoom (state_at counts.new.entries install) entries.now) }
    ensures told { IfOk result
        (λ r. r.0 ≡ turns (counts_of (state_at counts.old.entries install)) entries.now) }
    ensures pending { IfOk result (λ r. r.1 ≡ entries.now) }
{
    admit(counts, alloc, seed, install)?;
    let Some(counts) = counts.get_mut(&install) else {
        unreachable!();
    };
    turns_in(counts, alloc, entries)
}

/// Makes the changes of the counts of the subscription.
pub(crate) fn commit_at(counts: &mut IndexMap<u64, Counts>, install: u64, pending: Pending)
    requires { HasRoom (state_at counts.old.entries install) pending }
    ensures here { counts_of (state_at counts.new.entries install)
        ≡ after (counts_of (state_at counts.old.entries install)) pending }
    ensures others { (any : ℕ) → nat_eq install any ≡ false
        → state_at counts.new.entries any ≡ state_at counts.old.entries any }
{
    let Some(counts) = counts.get_mut(&install) else {
        unreachable!();
    };
    counts.commit(pending);
}

/// The subscription has counts: where it had none, no forest stands yet.
fn admit(
    counts: &mut IndexMap<u64, Counts>,
    alloc: Global,
    seed: RandomState,
    install: u64,
) -> Result<(), AllocError>
    ensures kept { AreKept counts.old.entries counts.new.entries }
    ensures there { OnOk result (IsSome (state_at counts.new.entries install)) }
{
    if !counts.contains_key(&install) {
        counts.insert(install, Counts::new(alloc, seed))?;
    }
    Ok(())
}

/// What of the entries leaves 0 or reaches it in these counts, and the changes, with their room.
fn turns_in(
    counts: &mut Counts,
    alloc: Global,
    entries: &Entries,
) -> Result<(Entries, Pending), AllocError>
    requires { AreRising entries.now }
    ensures counts { counts.new.counts ≡ counts.old.counts }
    ensures spare { counts.old.spare ≤ counts.new.spare }
    ensures can { OnOk result (IsChange counts.old.counts entries.now) }
    ensures room { OnOk result (length entries.now ≤ counts.new.spare) }
    ensures told { IfOk result (λ r. r.0 ≡ turns counts.old.counts entries.now) }
    ensures pending { IfOk result (λ r. r.1 ≡ entries.now) }
{
    if !counts.can_change(entries.as_slice()) {
        return Err(AllocError);
    }
    entries.distinct(alloc, counts)
}
