//! Names in the order in which they came.
ghost use Rattle.std.specs.Prelude.{◌≡◌, ◌++◌, ◌∷◌, [], ◌<◌, length, OnOk, OnErr, IfSome, position};
ghost use Rattle.std.specs.Prelude.{is_some, false};
ghost use Rattle.std.specs.List.{list_any};
ghost use Rattle.std.specs.Str.{bytes_eq};

use indexmap::IndexSet;
use std::alloc::{AllocError, Global};
use std::hash::RandomState;
use std::marker::Model;

/// Among so many names a look at each is cheaper than a hash.
const FEW: usize = 8;

/// Names, each once, that are found by their bytes.
pub(crate) struct Names {
    names: IndexSet<Vec<u8>, RandomState>,
}

impl Drop for Names {
    fn drop(self) {
        let Names { names } = self;
        drop(names);
    }
}

impl Model for Names {
    ghost use Rattle.std.specs.Prelude.{List, ℕ, map};

    ghost Value = { List (List ℕ) };

    ghost view = { λ n. map (λ v. v.items) n.names.keys };
}

impl Names {
    /// No names.
    pub(crate) fn new(alloc: Global, seed: RandomState) -> Names
        ensures { result ≡ [] }
    {
        Names {
            names: IndexSet::with_hasher(alloc, seed),
        }
    }

    /// The place of the name, without memory.
    pub(crate) fn find(&self, name: &[u8]) -> Option<usize>
        ensures place { result ≡ position (bytes_eq name.now) self.now }
        ensures there { is_some result ≡ list_any (bytes_eq name.now) self.now }
        ensures within { IfSome result (λ at. at < length self.now) }
    {
        if self.names.len() <= FEW {
            return place_among(self.names.as_slice(), name);
        }
        self.names.get_index_of(name)
    }

    /// One more name, which is not there yet.
    pub(crate) fn push(&mut self, alloc: Global, name: &[u8]) -> Result<(), AllocError>
        requires { list_any (bytes_eq name.now) self.old ≡ false }
        ensures ok { OnOk result (self.new ≡ self.old ++ name.now ∷ []) }
        ensures err { OnErr result (self.new ≡ self.old) }
    {
        let name = Vec::from_slice(alloc, name)?;
        self.names.insert(name)?;
        Ok(())
    }
}

/// The place of the name among these.
fn place_among(names: &[Vec<u8>], name: &[u8]) -> Option<usize>
    ensures place { result ≡ position (λ v. bytes_eq name.now v.items) names.now }
    ensures within { IfSome result (λ at. at < length names.now) }
{
    names.iter().position(|known| name == known.as_slice())
}
