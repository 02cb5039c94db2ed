//! The law of what is passed on: the function's contract is the law, and it does nothing.
ghost use Rattle.std.specs.Prelude.{◌≡◌, ℕ, List, [], filter};
ghost use Rattle.ncq_base.specs.Atoms.{same_atom};
ghost use Rattle.ncq_base.specs.declared.atom.Atom.{Atom};
ghost use Rattle.ncq_base.specs.declared.interval.Interval.{Interval};
ghost use Rattle.ncq_row.specs.Values.{atom_at};
ghost use Rattle.ncq_midfile.specs.Views.{is_within, of_rows};
ghost use Rattle.ncq_midfile.specs.declared.signed.SignedRow.{SignedRow};
ghost use Rattle.ncq_readers.specs.Passed.{AreTables, ReadOnce, parcels_in, rows_to, held_in};
ghost use Rattle.ncq_readers.specs.Passed.{held_at};
ghost use Rattle.ncq_readers.specs.Readings.Reading.{equal, range};
ghost use Rattle.ncq_readers.specs.ReaderTables.{ReaderTables, IsReader};

/// Where no file reads in two ways, a selection by a constant gets exactly the rows that it takes,
/// in their order; what does not select so gets none. Of the rows that are held at its slot a
/// selection by an interval has exactly those that it takes, in their order; at a slot of no
/// interval none is held.
pub fn selections_get_what_they_take()
    ensures taken { (tables : ReaderTables) (rows : List SignedRow) (slot : ℕ) (constant : Atom)
        (number : ℕ) → AreTables tables → ReadOnce tables
        → IsReader tables (equal slot constant) number
        → rows_to number (parcels_in tables rows)
        ≡ filter (λ r. same_atom (atom_at r.row slot) constant) rows }
    ensures others { (tables : ReaderTables) (rows : List SignedRow) (number : ℕ)
        → AreTables tables
        → ((slot : ℕ) (constant : Atom) → IsReader tables (equal slot constant) number → ⊥)
        → rows_to number (parcels_in tables rows) ≡ [] }
    ensures held { (tables : ReaderTables) (rows : List SignedRow) (slot : ℕ)
        (interval : Interval) (number : ℕ) → AreTables tables
        → IsReader tables (range slot interval) number
        → of_rows (is_within slot interval) (held_at slot (held_in tables rows))
        ≡ of_rows (is_within slot interval) rows }
    ensures unheld { (tables : ReaderTables) (rows : List SignedRow) (slot : ℕ)
        → AreTables tables
        → ((interval : Interval) (number : ℕ) → IsReader tables (range slot interval) number → ⊥)
        → held_at slot (held_in tables rows) ≡ [] }
{}
