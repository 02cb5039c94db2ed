//! The numbers of the files that have something to do, each once.
ghost use Rattle.std.specs.Prelude.{◌≡◌, ◌<◌, ◌^◌, ◌∷◌, [], ℕ, true, ◌||◌, map, nat_eq};
ghost use Rattle.std.specs.Prelude.{OnOk, IfSome, IfNone};
ghost use Rattle.ncq_feed.specs.Runs.{is_among};

use crate::falling::Falling;
use ncq_base::{FileId, Sequence};
use std::alloc::{AllocError, Global};
use std::collections::BTreeSet;
use std::marker::Model;

/// How many numbers stand in a list before a tree is made of them.
const MOST_FEW: usize = 512;

/// How the numbers are kept: a few in a list, many in a tree.
#[derive(Drop)]
pub(crate) enum Kept {
    Few(Falling),
    Many(BTreeSet<u64>),
}

/// The numbers of files. Contracts see them rising.
#[derive(Drop)]
pub(crate) struct Pending {
    kept: Kept,
    alloc: Global,
}

impl Model for Pending {
    ghost use Rattle.std.specs.Prelude.{List, ℕ};
    ghost use Rattle.std.specs.Coded.{coded_list, coded_ℕ};
    ghost use Rattle.ncq_feed.specs.Pending.{numbers_in};

    ghost Value = { List ℕ };

    ghost coded = { coded_list coded_ℕ };

    ghost view = { λ p. numbers_in p.kept };
}

impl Pending {
    /// No numbers.
    pub(crate) fn new(alloc: Global) -> Pending
        ensures { result ≡ [] }
    {
        Pending {
            kept: Kept::Few(Falling::new(alloc)),
            alloc,
        }
    }

    /// One number more, unless it is there.
    pub(crate) fn note(&mut self, number: u64) -> Result<(), AllocError>
        ensures { OnOk result ((other : ℕ) → is_among other self.new
            ≡ (nat_eq other number || is_among other self.old)) }
    {
        match &mut self.kept {
            Kept::Few(few) => {
                if few.len() < MOST_FEW {
                    return few.note(number);
                }
                self.kept = Kept::Many(few.tree_with(self.alloc, number)?);
            }
            Kept::Many(many) => {
                many.insert(number)?;
            }
        }
        Ok(())
    }

    /// These numbers more, those that are not there.
    pub(crate) fn note_all(&mut self, numbers: &[u64]) -> Result<(), AllocError>
        ensures { OnOk result ((other : ℕ) → is_among other self.new
            ≡ (is_among other numbers.now || is_among other self.old)) }
    {
        for number in numbers {
            self.note(*number)?;
        }
        Ok(())
    }

    /// The numbers of these files more, those that are not there.
    pub(crate) fn note_files(&mut self, files: Sequence<FileId>) -> Result<(), AllocError>
        ensures { OnOk result ((other : ℕ) → is_among other self.new
            ≡ (is_among other (map (λ file. file.0) files) || is_among other self.old)) }
    {
        for file in files.into_vec() {
            self.note(file.0)?;
        }
        Ok(())
    }

    /// Takes the least number away.
    pub(crate) fn take_first(&mut self) -> Option<u64>
        ensures some { IfSome result (λ number. self.old ≡ number ∷ self.new) }
        ensures above { IfSome result (λ number. (other : ℕ)
            → is_among other self.new ≡ true → number < other) }
        ensures small { IfSome result (λ number. number < 2 ^ 64) }
        ensures none { IfNone result (self.old ≡ []) }
    {
        match &mut self.kept {
            Kept::Few(few) => few.take_first(),
            Kept::Many(many) => many.pop_first(),
        }
    }
}
