//! Prepared changes, entry by entry, and why none was prepared.
ghost use Rattle.std.specs.Prelude.{◌≡◌};
ghost use Rattle.ncq_source.specs.ChangeStates.{AreRising};
ghost use Rattle.ncq_source.specs.Fews.{portions_in};

use ncq_base::{Bytes, Sequence, Shared};
use ncq_flat::{Items, Written};
use std::alloc::{AllocError, Global};
use std::marker::Model;
use std::slice;
use thiserror::Error;

/// What one item does to its key: the element that the key holds after the items before it, if any,
/// and the element that it holds after the item, if any. A put has an `after`, which is proper
/// where the item is; a removal has a `before` and no `after`.
#[derive(Drop)]
pub struct Entry {
    pub key: Bytes,
    pub before: Option<Shared<Written>>,
    pub after: Option<Shared<Written>>,
}

/// The entries of a source in a change, in the order of its items.
pub type Entries = Sequence<Entry>;

/// The place of a source in its store, from 0 in the order of declaration.
#[derive(Clone, Copy, Debug, PartialEq, Eq)]
pub struct SourceId(pub usize);

/// What a section of a batch asks of the source of this name.
pub struct Section {
    pub source: Bytes,
    pub items: Items,
}

impl Drop for Section {
    fn drop(self) {
        let Section { source, items } = self;
        drop(source);
        drop(items);
    }
}

/// What a change does to one source: one entry for each item of the sections that name it, section
/// by section and item by item.
#[derive(Drop)]
pub struct Portion {
    pub source: SourceId,
    pub entries: Entries,
}

/// The portions of a change, of which one alone stands in the value itself.
#[derive(Drop)]
pub(crate) enum Portions {
    One(Portion),
    Several(Vec<Portion>),
}

/// What sections do to the sources that they name, prepared: a portion for each such source, rising
/// by source. `Store::prepare` makes it, and contracts see it as the list of its portions.
pub struct Change {
    portions: Portions,
}

impl Drop for Change {
    fn drop(self) {
        let Change { portions } = self;
        drop(portions);
    }
}

impl Model for Change {
    ghost use Rattle.std.specs.Prelude.{List};
    ghost use Rattle.std.specs.Coded.{coded_list};
    ghost use Rattle.ncq_source.specs.ChangeStates.{AreRising};
    ghost use Rattle.ncq_source.specs.Fews.{portions_in};
    ghost use Rattle.ncq_source.specs.declared.change.Portion.{Portion};
    ghost use Rattle.ncq_source.specs.contracts.change.Portion.{the_row};

    ghost Value = { List Portion };

    ghost coded = { coded_list the_row.coded };

    ghost view = { λ c. portions_in c.portions };

    ghost invariant = { λ c. AreRising (portions_in c.portions) };
}

impl Change {
    pub(crate) fn new(portions: Portions) -> Change
        requires { AreRising (portions_in portions) }
        ensures { result ≡ portions_in portions }
    {
        Change { portions }
    }

    /// What the change does to each source that it names, rising by source.
    pub fn portions(&self) -> &[Portion]
        ensures portions { result.now ≡ self.now }
        ensures rising { AreRising self.now }
    {
        match &self.portions {
            Portions::One(portion) => slice::from_ref(portion),
            Portions::Several(portions) => portions.as_slice(),
        }
    }

    pub(crate) fn into_portions(self) -> Portions
        ensures portions { portions_in result ≡ self }
        ensures rising { AreRising self }
    {
        let Change { portions } = self;
        portions
    }
}

/// Why a change was not prepared. Positions count the items of all sections from 1.
#[derive(Debug, Drop, Error)]
pub enum ChangeError {
    /// No source has the name of one of the sections.
    #[error("no such source")]
    NoSource,
    /// The item at the position is the first that cannot be applied: it puts an element that has
    /// not exactly one key value that is not empty.
    #[error("item {position} has no key")]
    BadKey { position: u64 },
    /// The item at the position is the first that cannot be applied: it removes a key that holds no
    /// element after the items before it.
    #[error("item {position} removes a key that is not there")]
    NoSuchKey { position: u64 },
    /// Memory ran out; this may come at any call.
    #[error("out of memory")]
    OutOfMemory,
}

impl From<AllocError> for ChangeError {
    ghost use Rattle.ncq_source.specs.declared.change.ChangeError.TheVariants.{OutOfMemory};

    ghost from_gives = { λ _ e. e ≡ OutOfMemory };

    fn from(_refused: AllocError) -> ChangeError {
        ChangeError::OutOfMemory
    }
}
