//! The files of each atom.
ghost use Rattle.std.specs.Prelude.{◌≡◌, ℕ, [], nat_eq, OnOk, OnErr};
ghost use Rattle.std.specs.List.{list_any};
ghost use Rattle.ncq_holders.specs.Held.{is_holder, Notes, Forgets, HaveSame};

use indexmap::{IndexMap, IndexSet};
use ncq_base::{Atom, Copied};
use std::alloc::{AllocError, Global};
use std::hash::RandomState;
use std::marker::Model;

/// The numbers of files by atom. Contracts see each atom with the numbers of its files.
pub struct Holders {
    files: IndexMap<Atom, IndexSet<u64>, RandomState>,
}

impl Drop for Holders {
    fn drop(self) {
        let Holders { files } = self;
        drop(files);
    }
}

impl Model for Holders {
    ghost use Rattle.ncq_holders.specs.Held.{Held, held_code};

    ghost Value = { Held };

    ghost coded = { held_code };

    ghost use Rattle.ncq_holders.specs.Seen.{held_in};

    ghost view = { λ h. held_in h.files.entries };
}

impl Holders {
    /// No file has had an atom. Atoms are placed by the seed, so that nobody who does not know it can
    /// choose atoms that fall together.
    pub fn new(alloc: Global, seed: RandomState) -> Holders
        ensures { result ≡ [] }
    {
        Holders {
            files: IndexMap::with_hasher(alloc, seed),
        }
    }

    /// The file has had the atom, too. After an error all is as before.
    pub fn note(&mut self, alloc: Global, atom: &Atom, number: u64) -> Result<(), AllocError>
        ensures ok { OnOk result (Notes self.old atom.now number self.new) }
        ensures err { OnErr result (HaveSame self.old self.new) }
    {
        if let Some(numbers) = self.files.get_mut(atom) {
            numbers.insert(number)?;
            return Ok(());
        }
        let key = atom.copy(alloc)?;
        let mut numbers = IndexSet::new(alloc);
        numbers.insert(number)?;
        self.files.insert(key, numbers)?;
        Ok(())
    }

    /// The file has not had the atom. It takes no memory.
    pub fn forget(&mut self, atom: &Atom, number: u64)
        ensures { Forgets self.old atom.now number self.new }
    {
        let Some(numbers) = self.files.get_mut(atom) else {
            return;
        };
        numbers.swap_remove(&number);
        if !numbers.is_empty() {
            return;
        }
        self.files.swap_remove(atom);
    }

    /// Whether the file has had the atom.
    pub fn is_holder(&self, atom: &Atom, number: u64) -> bool
        ensures { result ≡ is_holder self.now atom.now number }
    {
        match self.files.get(atom) {
            Some(numbers) => numbers.contains(&number),
            None => false,
        }
    }

    /// The files that have had the atom.
    pub fn holders(&self, atom: &Atom) -> &[u64]
        ensures { (number : ℕ)
            → list_any (nat_eq number) result.now ≡ is_holder self.now atom.now number }
    {
        match self.files.get(atom) {
            Some(numbers) => numbers.as_slice(),
            None => &[],
        }
    }
}
