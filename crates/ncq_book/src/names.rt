//! Whose name is taken, and by whom.
ghost use Rattle.std.specs.Prelude.{◌≡◌, [], ℕ, List, None, Some, cond, OnOk, OnErr};
ghost use Rattle.std.specs.Map.{lookup};
ghost use Rattle.std.specs.Str.{bytes_eq};

use indexmap::IndexMap;
use ncq_base::{Bytes, Copied};
use std::alloc::{AllocError, Global};
use std::hash::RandomState;
use std::marker::Model;

/// The install numbers of names, each found by the hash of the name. Contracts see the pairs.
pub(crate) struct Names {
    installs: IndexMap<Bytes, u64, RandomState>,
}

impl Drop for Names {
    fn drop(self) {
        let Names { installs } = self;
        drop(installs);
    }
}

impl Model for Names {
    ghost use Rattle.std.specs.Prelude.{List, ℕ};

    ghost Value = { List (List ℕ × ℕ) };

    ghost view = { λ n. n.installs.entries };
}

impl Names {
    /// No names. It takes no memory.
    pub(crate) fn new(alloc: Global, seed: RandomState) -> Names
        ensures { result ≡ [] }
    {
        Names {
            installs: IndexMap::with_hasher(alloc, seed),
        }
    }

    /// The install number of the name, if it is there.
    pub(crate) fn find(&self, name: &Bytes) -> Option<u64>
        ensures { result ≡ lookup (bytes_eq name.now) self.now }
    {
        self.installs.get(name).copied()
    }

    /// Puts the install number under the name.
    pub(crate) fn put(
        &mut self,
        alloc: Global,
        name: &Bytes,
        install: u64,
    ) -> Result<(), AllocError>
        ensures ok { OnOk result ((other : List ℕ) → lookup (bytes_eq other) self.new
            ≡ cond (bytes_eq name.now other) (Some install) (lookup (bytes_eq other) self.old)) }
        ensures err { OnErr result (self.new ≡ self.old) }
    {
        let name = name.copy(alloc)?;
        self.installs.insert(name, install)?;
        Ok(())
    }

    /// Frees the name. It takes no memory.
    pub(crate) fn free(&mut self, name: &Bytes)
        ensures { (other : List ℕ) → lookup (bytes_eq other) self.new
            ≡ cond (bytes_eq name.now other) None (lookup (bytes_eq other) self.old) }
    {
        let _install = self.installs.swap_remove(name);
    }
}
