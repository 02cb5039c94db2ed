//! The elements of a source.
ghost use Rattle.std.specs.Prelude.{◌≡◌, [], ◌∷◌, ◌+◌, ◌-◌, ◌<◌, ◌≤◌, length, slice_get, Some};
ghost use Rattle.std.specs.Prelude.{None, OnOk, OnErr, IfSome, map};
ghost use Rattle.std.specs.Option.{option_copied};
ghost use Rattle.std.specs.FinMap.{get, insert, remove};
ghost use Rattle.std.specs.List.{IsDistinct};
ghost use Rattle.std.specs.Map.{keys_of};
ghost use Rattle.std.specs.Str.{bytes_eq};
ghost use Rattle.ncq_source.specs.Changes.{after};
ghost use Rattle.ncq_source.specs.Held.{map_of, with_at};

use crate::change::{Entries, Entry};
use indexmap::IndexMap;
use ncq_base::{Bytes, Shared};
use ncq_flat::Written;
use std::alloc::{AllocError, Global};
use std::hash::RandomState;
use std::marker::Model;

/// Elements by their keys, in an order of its own, with room for some more.
pub(crate) struct Elements {
    elements: IndexMap<Bytes, Shared<Written>, RandomState>,
}

impl Drop for Elements {
    fn drop(self) {
        let Elements { elements } = self;
        drop(elements);
    }
}

impl Model for Elements {
    ghost use Rattle.ncq_source.specs.Held.{Held, held_code};
    ghost use Rattle.indexmap.specs.IndexMap.{spare};

    ghost Value = { Held };

    ghost coded = { held_code };

    ghost view = { λ e. record { pairs = e.elements.entries; room = spare e.elements } };
}

impl Elements {
    /// No elements.
    pub(crate) fn new(alloc: Global, seed: RandomState) -> Elements
        ensures { result.pairs ≡ [] }
    {
        Elements {
            elements: IndexMap::with_hasher(alloc, seed),
        }
    }

    /// The seed of the map.
    pub(crate) fn seed(&self) -> RandomState {
        *self.elements.hasher()
    }

    /// How many elements there are, each under a key of its own.
    pub(crate) fn len(&self) -> usize
        ensures count { result ≡ length self.now.pairs }
        ensures once { IsDistinct bytes_eq (keys_of self.now.pairs) }
    {
        self.elements.len()
    }

    /// The element at a place in the order of the map.
    pub(crate) fn at(&self, at: usize) -> &Shared<Written>
        requires { at < length self.now.pairs }
        ensures { slice_get (map (λ p. p.1) self.now.pairs) at ≡ Some result.now }
    {
        match self.elements.get_index(at) {
            Some((_, element)) => element,
            None => unreachable!(),
        }
    }

    /// The element under the key.
    pub(crate) fn get(&self, key: &Bytes) -> Option<&Shared<Written>>
        ensures { option_copied result ≡ get (map_of self.now.pairs) key.now }
    {
        self.elements.get(key)
    }

    /// Room for this many more elements.
    pub(crate) fn reserve(&mut self, additional: usize) -> Result<(), AllocError>
        ensures pairs { self.new.pairs ≡ self.old.pairs }
        ensures room { OnOk result (additional ≤ self.new.room) }
        ensures more { self.old.room ≤ self.new.room }
    {
        self.elements.reserve(additional)
    }

    /// Puts the element under the key, or with none takes away what is there.
    pub(crate) fn set(&mut self, key: Bytes, element: Option<Shared<Written>>)
        requires { 0 < self.old.room }
        ensures pairs { map_of self.new.pairs ≡ with_at (map_of self.old.pairs) key element }
        ensures room { self.old.room ≤ self.new.room + 1 }
    {
        match element {
            Some(element) => self.put(key, element),
            None => self.take(&key),
        }
    }

    /// Does what the entries say of their keys, in order.
    pub(crate) fn apply(&mut self, entries: Entries)
        requires { length entries ≤ self.old.room }
        ensures { map_of self.new.pairs ≡ after (map_of self.old.pairs) entries }
    {
        for entry in entries.into_vec() {
            let Entry { key, after, .. } = entry;
            self.set(key, after);
        }
    }

    fn put(&mut self, key: Bytes, element: Shared<Written>)
        requires { 0 < self.old.room }
        ensures pairs { map_of self.new.pairs ≡ insert (map_of self.old.pairs) key element }
        ensures room { self.old.room ≤ self.new.room + 1 }
    {
        let _old = self.elements.insert(key, element).unwrap();
    }

    fn take(&mut self, key: &Bytes)
        ensures pairs { map_of self.new.pairs ≡ remove (map_of self.old.pairs) key.now }
        ensures room { self.old.room ≤ self.new.room }
    {
        let _old = self.elements.swap_remove(key);
    }
}
