//! Sections of a batch, prepared one after the other.
ghost use Rattle.std.specs.Prelude.{◌≡◌, ◌+◌, ◌<◌, ◌^◌, [], ◌∷◌, length, Some, Err, true, false};
ghost use Rattle.std.specs.Prelude.{IfOk, OnOk};
ghost use Rattle.std.specs.BTreeMap.{IsOrdered, Updates};
ghost use Rattle.std.specs.Ordering.{nat_cmp};
ghost use Rattle.std.specs.Option.{option_map};
ghost use Rattle.ncq_source.specs.Fews.{portions_in};
ghost use Rattle.ncq_source.specs.Sections.{are_known, batch_trial};
ghost use Rattle.ncq_source.specs.Seens.{ArePortions, TellsSeen, placed_portion, placed_seen};
ghost use Rattle.ncq_source.specs.StoreStates.{ArePortionsOf, TellsBatch, holdings_of, found};
ghost use Rattle.ncq_source.specs.Views.{source_of};

use crate::ahead::Ahead;
use crate::change::{ChangeError, Entries, Portion, Portions, Section, SourceId};
use crate::declared::Declared;
use crate::prepare::prepare;
use crate::store::Store;
use ncq_base::Bytes;
use ncq_flat::Item;
use std::alloc::{AllocError, Global};
use std::collections::BTreeMap;

/// What was prepared of a source so far: its elements as they will be, and its entries.
#[derive(Drop)]
pub(crate) struct Seen<'a> {
    ahead: Ahead<'a>,
    entries: Entries,
}

/// The entries of each source that the sections name; or that one of them is not declared; or the
/// first item that cannot be applied. One section alone goes its own, shorter way.
pub(crate) fn prepare_sections(
    alloc: Global,
    store: &Store,
    sections: &[Section],
) -> Result<Portions, ChangeError>
    ensures tells { TellsBatch result (are_known (holdings_of store.now) sections.now)
        (batch_trial 1 (holdings_of store.now) sections.now) }
    ensures portions { IfOk result (λ portions.
        ArePortionsOf store.now sections.now (portions_in portions)) }
    ensures none { are_known (holdings_of store.now) sections.now ≡ false
        → result ≡ Err ChangeError.NoSource }
{
    match sections {
        [section] => prepare_alone(alloc, store, section),
        sections => match prepare_each(alloc, store, sections) {
            Ok(portions) => Ok(portions),
            Err(why) => Err(refusal(store, sections, why)),
        },
    }
}

/// The entries of the source that the one section names.
fn prepare_alone(alloc: Global, store: &Store, section: &Section) -> Result<Portions, ChangeError>
    ensures tells { TellsBatch result (are_known (holdings_of store.now) (section.now ∷ []))
        (batch_trial 1 (holdings_of store.now) (section.now ∷ [])) }
    ensures portions { IfOk result (λ portions.
        ArePortionsOf store.now (section.now ∷ []) (portions_in portions)) }
    ensures none { are_known (holdings_of store.now) (section.now ∷ []) ≡ false
        → result ≡ Err ChangeError.NoSource }
{
    let Some(id) = place_of(store, &section.source) else {
        return Err(ChangeError::NoSource);
    };
    let source = store.source(id);
    let items = section.items.as_slice();
    let mut ahead = Ahead::new(&source.elements);
    let entries = prepare(alloc, &source.key, &mut ahead, items, 0, true)?;
    Ok(Portions::One(Portion {
        source: id,
        entries,
    }))
}

/// Why sections are refused whose preparation gave this reason: that a source is not declared comes
/// before every other reason.
fn refusal(store: &Store, sections: &[Section], why: ChangeError) -> ChangeError
    ensures known { are_known (holdings_of store.now) sections.now ≡ true → result ≡ why }
    ensures none { are_known (holdings_of store.now) sections.now ≡ false
        → result ≡ ChangeError.NoSource }
{
    if store.are_declared(sections) {
        why
    } else {
        ChangeError::NoSource
    }
}

/// The entries of each source that the sections name, section by section. Where it meets a reason
/// to refuse them, a later section may still name a source that is not declared.
fn prepare_each(alloc: Global, store: &Store, sections: &[Section]) -> Result<Portions, ChangeError>
    ensures known { IfOk result (λ portions.
        are_known (holdings_of store.now) sections.now ≡ true) }
    ensures tells { are_known (holdings_of store.now) sections.now ≡ true
        → TellsBatch result true (batch_trial 1 (holdings_of store.now) sections.now) }
    ensures portions { IfOk result (λ portions.
        ArePortionsOf store.now sections.now (portions_in portions)) }
{
    let mut seen: BTreeMap<usize, Seen<'_>> = BTreeMap::new(alloc);
    let mut before: u64 = 0;
    let mut left = sections.len();
    for section in sections {
        left -= 1;
        let Some(id) = place_of(store, &section.source) else {
            return Err(ChangeError::NoSource);
        };
        let items = section.items.as_slice();
        let Some(behind) = before.checked_add(items.len() as u64) else {
            return Err(ChangeError::OutOfMemory);
        };
        let one = seen.remove(&id.0);
        let one = take_section(alloc, store.source(id), one, items, before, left == 0)?;
        keep(&mut seen, id.0, one)?;
        before = behind;
    }
    Ok(Portions::Several(portions_of(alloc, seen)?))
}

/// The place of the source of this name.
fn place_of(store: &Store, name: &Bytes) -> Option<SourceId>
    ensures { option_map (λ s. s.0) result ≡ found store.now name.now }
{
    store.find(name.as_slice())
}

/// Keeps what was prepared of the source at this place.
fn keep<'a>(
    seen: &mut BTreeMap<usize, Seen<'a>>,
    at: usize,
    one: Seen<'a>,
) -> Result<(), AllocError>
    ensures { OnOk result (Updates nat_cmp seen.old seen.new at (Some one.entry)) }
{
    seen.insert(at, one)?;
    Ok(())
}

/// One section more of a source, with so many items before it.
fn take_section<'a>(
    alloc: Global,
    source: &'a Declared,
    seen: Option<Seen<'a>>,
    items: &[Item],
    before: u64,
    last: bool,
) -> Result<Seen<'a>, ChangeError>
    requires { before + length items.now < 2 ^ 64 }
    ensures { TellsSeen (source_of source.now) seen.entry items.now before last result }
{
    let mut seen = match seen {
        Some(seen) => seen,
        None => Seen {
            ahead: Ahead::new(&source.elements),
            entries: Entries::new(alloc),
        },
    };
    let entries = prepare(alloc, &source.key, &mut seen.ahead, items, before, last)?;
    seen.entries.append(entries)?;
    Ok(seen)
}

/// The portions of the sources, rising.
fn portions_of(alloc: Global, seen: BTreeMap<usize, Seen<'_>>) -> Result<Vec<Portion>, AllocError>
    ensures portions { IfOk result (λ portions. ArePortions seen.entry.entries portions.items) }
    ensures rising { IsOrdered nat_cmp seen.entry }
{
    let mut portions = Vec::with_capacity(alloc, seen.len())?;
    for (at, one) in seen {
        portions.push(portion_of(at, one))?;
    }
    Ok(portions)
}

/// The portion of the source at this place.
fn portion_of(at: usize, one: Seen<'_>) -> Portion
    ensures { placed_portion result ≡ placed_seen (at, one.entry) }
{
    let Seen { entries, .. } = one;
    Portion {
        source: SourceId(at),
        entries,
    }
}
