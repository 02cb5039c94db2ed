//! Intervals that a slot lies in.
ghost use Rattle.std.specs.Prelude.{◌≡◌, ◌++◌, ◌∷◌, [], length, IfOk, IfSome, IfNone};
ghost use Rattle.std.specs.Prelude.{OnOk, OnErr, None, map};
ghost use Rattle.std.specs.List.Sorted.{IsNonDecreasingBy};
ghost use Rattle.std.specs.List.{IsDistinct};
ghost use Rattle.std.specs.Map.{lookup, keys_of};
ghost use Rattle.ncq_base.specs.Counts.{SameCounts};
ghost use Rattle.ncq_consttab.specs.Ranges.{is_interval, is_held_by, holders};

use crate::tree::{Tree, lone};
use indexmap::IndexMap;
use ncq_base::{Atom, FileId, Interval, Sequence};
use std::alloc::{AllocError, Global};
use std::hash::RandomState;
use std::marker::Model;

/// Numbers of files in order.
pub type Files = Sequence<FileId>;

/// The files of intervals. An interval is found by its hash under a seed, and by a value in it in a
/// tree that has the same intervals and files.
pub struct RangeTable {
    files: IndexMap<Interval, FileId, RandomState>,
    tree: Tree,
    alloc: Global,
}

impl Drop for RangeTable {
    fn drop(self) {
        let RangeTable {
            files,
            tree,
            alloc: _,
        } = self;
        drop(files);
        drop(tree);
    }
}

impl Model for RangeTable {
    ghost use Rattle.std.specs.Prelude.{List};
    ghost use Rattle.std.specs.Coded.{coded_list, coded×};
    ghost use Rattle.ncq_base.specs.declared.atom.FileId.{FileId};
    ghost use Rattle.ncq_base.specs.declared.interval.Interval.{Interval};
    ghost use Rattle.ncq_base.specs.contracts.atom.FileId.{the_row as file_row};
    ghost use Rattle.ncq_base.specs.contracts.interval.Interval.{the_row as interval_row};
    ghost use Rattle.ncq_base.specs.Counts.{SameCounts};

    ghost Value = { List (Interval × FileId) };

    ghost coded = { coded_list (coded× interval_row.coded file_row.coded) };

    ghost view = { λ t. t.files.entries };

    ghost invariant = { λ t. SameCounts t.tree t.files.entries };
}

impl RangeTable {
    /// A table without intervals, which are placed by the seed.
    pub fn new(alloc: Global, seed: RandomState) -> RangeTable
        ensures { result ≡ [] }
    {
        RangeTable {
            files: IndexMap::with_hasher(alloc, seed),
            tree: Tree::new(),
            alloc,
        }
    }

    /// How many intervals there are. None stands twice.
    pub fn len(&self) -> usize
        ensures len { result ≡ length self.now }
        ensures once { IsDistinct is_interval (keys_of self.now) }
    {
        self.files.len()
    }

    /// The file of the interval.
    pub fn find(&self, constant: &Interval) -> Option<FileId>
        ensures { result ≡ lookup (is_interval constant.now) self.now }
    {
        self.files.get(constant).copied()
    }

    /// Adds an interval that is not there, behind the others.
    pub fn insert(&mut self, constant: Interval, file: FileId) -> Result<(), AllocError>
        requires { lookup (is_interval constant) self.old ≡ None }
        ensures ok { OnOk result (self.new ≡ self.old ++ (constant, file) ∷ []) }
        ensures err { OnErr result (self.new ≡ self.old) }
    {
        let more = lone(self.alloc, constant, file)?;
        self.files.insert(constant, file)?;
        self.tree = self.tree.take().with(more);
        Ok(())
    }

    /// Takes the interval away, if it is there, and tells its file. All other intervals stay.
    pub fn remove(&mut self, constant: &Interval) -> Option<FileId>
        ensures file { result ≡ lookup (is_interval constant.now) self.old }
        ensures gone { lookup (is_interval constant.now) self.new ≡ None }
        ensures others { IfSome result (λ file.
            SameCounts self.old ((constant.now, file) ∷ self.new)) }
        ensures none { IfNone result (self.new ≡ self.old) }
    {
        let file = self.files.swap_remove(constant)?;
        let (_, rest) = self.tree.take().without(&(*constant, file));
        self.tree = rest;
        Some(file)
    }

    /// The files of all intervals that hold the value, by rising number.
    pub fn takers(&self, alloc: Global, value: &Atom) -> Result<Files, AllocError>
        ensures counts { IfOk result (λ files. SameCounts files (holders value.now self.now)) }
        ensures rising { IfOk result (λ files. IsNonDecreasingBy (λ f. f.0) files) }
    {
        let mut files = Vec::new(alloc);
        self.tree.push_takers(value, &mut files)?;
        files.sort_unstable();
        Ok(Files::from_vec(files))
    }

    /// Whether some interval holds the value. It takes no memory.
    pub fn holds(&self, value: &Atom) -> bool
        ensures { result ≡ is_held_by (keys_of self.now) value.now }
    {
        self.tree.holds(value)
    }

    /// The files in the order of their intervals. It takes no memory.
    pub fn files(&self) -> &[FileId]
        ensures { result.now ≡ map (λ p. p.1) self.now }
    {
        self.files.values().as_slice()
    }

    /// The intervals in order. It takes no memory.
    pub fn intervals(&self) -> &[Interval]
        ensures { result.now ≡ keys_of self.now }
    {
        self.files.keys().as_slice()
    }
}
