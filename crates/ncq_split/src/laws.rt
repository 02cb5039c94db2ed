//! The law of splits: the function's contract is the law, and it does nothing.
ghost use Rattle.std.specs.Prelude.{◌≡◌, ℕ, List, [], ◌∷◌, filter, Some};
ghost use Rattle.std.specs.FinMap.{FinMap, get};
ghost use Rattle.ncq_base.specs.Atoms.{atom_cmp, same_atom};
ghost use Rattle.ncq_base.specs.Counts.{SameCounts};
ghost use Rattle.ncq_base.specs.Intervals.{in_interval};
ghost use Rattle.ncq_base.specs.declared.atom.Atom.{Atom};
ghost use Rattle.ncq_base.specs.declared.atom.FileId.{FileId};
ghost use Rattle.ncq_base.specs.declared.interval.Interval.{Interval};
ghost use Rattle.ncq_row.specs.Values.{atom_at};
ghost use Rattle.ncq_consttab.specs.Ranges.{holders};
ghost use Rattle.ncq_midfile.specs.declared.signed.SignedRow.{SignedRow};
ghost use Rattle.ncq_split.specs.Splits.{files_equal, files_holding, parcels_of};
ghost use Rattle.ncq_split.specs.Splits.{rows_for, intervals_of};

/// A file of one constant alone gets exactly the rows whose atom in the slot is the constant, and a
/// file of one interval alone those whose atom lies in it, each in the rows' order. The files of
/// the intervals that hold an atom are those by rising number, each as often.
pub fn files_get_what_they_select()
    ensures equal { (table : FinMap atom_cmp FileId) (slot : ℕ) (rows : List SignedRow)
        (constant : Atom) (file : FileId) → get table constant ≡ Some file
        → ((other : Atom) → get table other ≡ Some file → other ≡ constant)
        → rows_for file (parcels_of (files_equal table) slot rows)
        ≡ filter (λ r. same_atom (atom_at r.row slot) constant) rows }
    ensures range { (table : List (Interval × FileId)) (slot : ℕ) (rows : List SignedRow)
        (interval : Interval) (file : FileId) → intervals_of file table ≡ (interval, file) ∷ []
        → rows_for file (parcels_of (files_holding table) slot rows)
        ≡ filter (λ r. in_interval interval (atom_at r.row slot)) rows }
    ensures counts { (table : List (Interval × FileId)) (atom : Atom)
        → SameCounts (files_holding table atom) (holders atom table) }
{}
