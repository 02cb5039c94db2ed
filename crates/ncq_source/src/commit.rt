//! The portions of a change, given room and committed.
ghost use Rattle.std.specs.Prelude.{◌≡◌, ◌<◌, [], ◌∷◌, length, map, OnOk};
ghost use Rattle.std.specs.List.{AllByRecursion};
ghost use Rattle.ncq_source.specs.CanCommit.{CanCommit};
ghost use Rattle.ncq_source.specs.Fews.{portions_in};
ghost use Rattle.ncq_source.specs.Stores.{without_room};
ghost use Rattle.ncq_source.specs.StoreStates.{AreCommitted, HasRoomIn};
ghost use Rattle.ncq_source.specs.Views.{source_of};

use crate::change::{Portion, Portions};
use crate::declared::Declared;
use std::alloc::AllocError;

/// Gives the source of each portion room for its entries.
pub(crate) fn reserve_all(
    sources: &mut Vec<Declared>,
    portions: &[Portion],
) -> Result<(), AllocError>
    requires { AllByRecursion (λ portion.
        portion.source.0 < length sources.old.items) portions.now }
    ensures same { map without_room (map source_of sources.new.items)
        ≡ map without_room (map source_of sources.old.items) }
    ensures room { OnOk result
        (AllByRecursion (HasRoomIn (map source_of sources.new.items)) portions.now) }
{
    for portion in portions {
        let additional = portion.entries.len();
        sources[portion.source.0].reserve(additional)?;
    }
    Ok(())
}

/// Applies each portion to its source, whose last change has this number then.
pub(crate) fn commit_all(sources: &mut Vec<Declared>, portions: Portions, number: u64)
    requires { CanCommit (map source_of sources.old.items) (portions_in portions) }
    ensures { AreCommitted (map source_of sources.old.items) (portions_in portions) number
        (map source_of sources.new.items) }
{
    match portions {
        Portions::One(portion) => commit_one(sources, portion, number),
        Portions::Several(portions) => commit_each(sources, portions, number),
    }
}

fn commit_each(sources: &mut Vec<Declared>, portions: Vec<Portion>, number: u64)
    requires { CanCommit (map source_of sources.old.items) portions.items }
    ensures { AreCommitted (map source_of sources.old.items) portions.items number
        (map source_of sources.new.items) }
{
    for portion in portions {
        commit_one(sources, portion, number);
    }
}

fn commit_one(sources: &mut Vec<Declared>, portion: Portion, number: u64)
    requires { CanCommit (map source_of sources.old.items) (portion ∷ []) }
    ensures { AreCommitted (map source_of sources.old.items) (portion ∷ []) number
        (map source_of sources.new.items) }
{
    let Portion { source, entries } = portion;
    sources[source.0].commit(entries, number);
}
