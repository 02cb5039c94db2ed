//! A declared source.
ghost use Rattle.std.specs.Prelude.{◌≡◌, ◌≤◌, length, OnOk};
ghost use Rattle.ncq_source.specs.Stores.{Follows, without_room};
ghost use Rattle.ncq_source.specs.Views.{source_of};

use crate::change::Entries;
use crate::elements::Elements;
use crate::key::Key;
use ncq_base::Bytes;
use std::alloc::AllocError;

/// A source with its elements, and the number of its last change.
pub(crate) struct Declared {
    pub(crate) name: Bytes,
    pub(crate) root: Bytes,
    pub(crate) key: Key,
    pub(crate) elements: Elements,
    pub(crate) last: u64,
}

impl Drop for Declared {
    fn drop(self) {
        let Declared {
            name,
            root,
            key,
            elements,
            last: _,
        } = self;
        drop(name);
        drop(root);
        drop(key);
        drop(elements);
    }
}

impl Declared {
    /// Room for this many more elements, and nothing else.
    pub(crate) fn reserve(&mut self, additional: usize) -> Result<(), AllocError>
        ensures same { without_room (source_of self.new) ≡ without_room (source_of self.old) }
        ensures room { OnOk result (additional ≤ self.new.elements.room) }
        ensures more { self.old.elements.room ≤ self.new.elements.room }
    {
        self.elements.reserve(additional)
    }

    /// The elements after the entries, and the number of the change.
    pub(crate) fn commit(&mut self, entries: Entries, number: u64)
        requires { length entries ≤ self.old.elements.room }
        ensures { Follows (source_of self.old) (source_of self.new) entries number }
    {
        self.elements.apply(entries);
        self.last = number;
    }
}
