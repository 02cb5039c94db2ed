//! The elements of a source as they will be after some items.
ghost use Rattle.std.specs.Prelude.{◌≡◌, [], OnOk, OnErr};
ghost use Rattle.std.specs.Option.{option_copied};
ghost use Rattle.std.specs.FinMap.{get};
ghost use Rattle.ncq_source.specs.Held.{map_of, with_at};

use crate::elements::Elements;
use indexmap::IndexMap;
use ncq_base::{Bytes, Shared};
use ncq_flat::Written;
use std::alloc::{AllocError, Global};
use std::hash::RandomState;
use std::marker::Model;

/// The elements of a source, and over them the keys that items changed. Before the first of these
/// there is no map.
#[derive(Drop)]
pub(crate) struct Ahead<'a> {
    elements: &'a Elements,
    changed: Option<IndexMap<Bytes, Option<Shared<Written>>, RandomState>>,
}

impl<'a> Model for Ahead<'a> {
    ghost use Rattle.ncq_source.specs.Held.{Kept, changes_of, kept_code, map_of, over};

    ghost Value = { Kept };

    ghost coded = { kept_code };

    ghost view = { λ a. over (map_of a.elements.now.pairs) (changes_of a.changed) };
}

impl<'a> Ahead<'a> {
    /// The elements as they are.
    pub(crate) fn new(elements: &'a Elements) -> Ahead<'a>
        ensures { result ≡ map_of elements.now.pairs }
    {
        Ahead {
            elements,
            changed: None,
        }
    }

    /// The element under the key after the items so far.
    pub(crate) fn get(&self, key: &Bytes) -> Option<&Shared<Written>>
        ensures { option_copied result ≡ get self.now key.now }
    {
        let Some(changed) = &self.changed else {
            return self.elements.get(key);
        };
        match changed.get(key) {
            Some(after) => after.as_ref(),
            None => self.elements.get(key),
        }
    }

    /// One more item: what its key holds from now on.
    pub(crate) fn set(
        &mut self,
        alloc: Global,
        key: Bytes,
        after: Option<Shared<Written>>,
    ) -> Result<(), AllocError>
        ensures ok { OnOk result (self.new ≡ with_at self.old key after) }
        ensures err { OnErr result (self.new ≡ self.old) }
    {
        match &mut self.changed {
            Some(changed) => {
                changed.insert(key, after)?;
                Ok(())
            }
            None => {
                let mut changed = IndexMap::with_hasher(alloc, self.elements.seed());
                changed.insert(key, after)?;
                self.changed = Some(changed);
                Ok(())
            }
        }
    }
}
