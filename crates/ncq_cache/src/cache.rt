//! Entries that were told lately.
ghost use Rattle.std.specs.Prelude.{◌≡◌, ◌≤◌, ◌⊎◌, [], length, IfOk};
ghost use Rattle.ncq_cache.specs.Cached.{found, left, with_pair};

use crate::key::NoticeKey;
use lru::LruCache;
use ncq_callback::Entries;
use std::alloc::{AllocError, Global};
use std::marker::Model;
use std::num::NonZeroUsize;

/// Entries by what they were made of, at most 64. Contracts see the pairs, the one that was used
/// most lately first.
pub struct NoticeCache {
    pairs: LruCache<NoticeKey, Entries>,
    served: u64,
}

impl Drop for NoticeCache {
    fn drop(self) {
        let NoticeCache { pairs, served: _ } = self;
        drop(pairs);
    }
}

impl Model for NoticeCache {
    ghost use Rattle.std.specs.Prelude.{◌≡◌, List};
    ghost use Rattle.ncq_cache.specs.Cached.{Cached, cached_code, most_cached};

    ghost Value = { List Cached };

    ghost coded = { cached_code };

    ghost view = { λ c. c.pairs.entries };

    ghost invariant = { λ c. c.pairs.cap ≡ most_cached };
}

impl NoticeCache {
    /// How many pairs there can be.
    pub const MOST: usize = 64;

    /// A cache without pairs. Its keys are placed without a seed: a look-up passes 64 pairs at
    /// most, wherever they are placed.
    pub fn new(alloc: Global) -> Result<NoticeCache, AllocError>
        ensures { IfOk result (λ cache. cache ≡ []) }
    {
        let Some(most) = NonZeroUsize::new(NoticeCache::MOST) else {
            unreachable!();
        };
        Ok(NoticeCache {
            pairs: LruCache::new(alloc, most)?,
            served: 0,
        })
    }

    /// Takes out the entries of the equal key, if there is one. It takes no memory.
    pub fn take(&mut self, key: &NoticeKey) -> Option<Entries>
        ensures found { result ≡ found key.now self.old }
        ensures left { self.new ≡ left key.now self.old }
    {
        let entries = self.pairs.pop(key);
        if entries.is_some() {
            self.served = self.served.saturating_add(1);
        }
        entries
    }

    /// Puts the entries under the key, in front. Where there are 64 pairs, the last goes. A pair
    /// that finds no memory is let go, and the others stay.
    pub fn put(&mut self, key: NoticeKey, entries: Entries)
        ensures { (self.new ≡ self.old) ⊎ (self.new ≡ with_pair key entries self.old) }
    {
        match self.pairs.put(key, entries) {
            Ok(_old) => {}
            Err(_pair) => {}
        }
    }

    /// How many pairs there are.
    pub fn len(&self) -> usize
        ensures count { result ≡ length self.now }
        ensures few { result ≤ 64 }
    {
        self.pairs.len()
    }

    /// How often entries were taken out since the cache was made, 2^64 - 1 at most. No clause says
    /// that entries are found: this tells it.
    pub fn served(&self) -> u64 {
        self.served
    }

    /// Lets all pairs go. It takes no memory.
    pub fn clear(&mut self)
        ensures { self.new ≡ [] }
    {
        self.pairs.clear();
    }
}
