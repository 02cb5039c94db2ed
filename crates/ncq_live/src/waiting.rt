//! Files of few rows that lost some of them, and are let alone for a while.
use indexmap::IndexMap;
use std::alloc::{AllocError, Global};

/// So many rows that went out of the files that wait are let stand in all.
const LET_STAND: u64 = 512;

/// The files that wait, each with how many of its rows went out. Which file is looked at when
/// changes no answer, so the contracts say nothing of it.
pub(crate) struct Waiting {
    losses: IndexMap<u64, u64>,
    all: u64,
    turn: usize,
}

impl Drop for Waiting {
    fn drop(self) {
        let Waiting {
            losses,
            all: _,
            turn: _,
        } = self;
        drop(losses);
    }
}

impl Waiting {
    /// No file waits. It takes no memory.
    pub(crate) fn new(alloc: Global) -> Waiting {
        Waiting {
            losses: IndexMap::new(alloc),
            all: 0,
            turn: 0,
        }
    }

    /// How many files wait.
    pub(crate) fn len(&self) -> usize {
        self.losses.len()
    }

    /// The file waits, and so many of its rows went out.
    pub(crate) fn put(&mut self, file: u64, losses: u64) -> Result<(), AllocError> {
        let before = self.losses.insert(file, losses)?.unwrap_or(0);
        self.all = self.all.saturating_sub(before).saturating_add(losses);
        Ok(())
    }

    /// The file does not wait any more. It takes no memory.
    pub(crate) fn take(&mut self, file: u64) {
        if let Some(losses) = self.losses.swap_remove(&file) {
            self.all = self.all.saturating_sub(losses);
        }
    }

    /// A file that waits no more, since more rows went out of those that wait than are let stand.
    /// Each has its turn. It takes no memory.
    pub(crate) fn next(&mut self) -> Option<u64> {
        if self.all <= LET_STAND {
            return None;
        }
        if self.turn >= self.losses.len() {
            self.turn = 0;
        }
        let (file, losses) = self.losses.swap_remove_index(self.turn)?;
        self.turn = self.turn.saturating_add(1);
        self.all = self.all.saturating_sub(losses);
        Some(file)
    }
}
