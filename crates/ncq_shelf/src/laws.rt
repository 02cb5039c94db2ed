//! The law of held rows: the function's contract is the law, and it does nothing.
ghost use Rattle.std.specs.Prelude.{◌≡◌, ℕ, List, []};
ghost use Rattle.ncq_midfile.specs.declared.signed.SignedRow.{SignedRow};
ghost use Rattle.ncq_readers.specs.Passed.{held_at};
ghost use Rattle.ncq_readers.specs.declared.ranges.HeldRows.{HeldRows};
ghost use Rattle.ncq_shelf.specs.KeptFiles.{Files};
ghost use Rattle.ncq_shelf.specs.Ranges.{AreHeldOf, HaveTheirRows, AllAreHeld, NoneSelects};

/// Of the rows that are held at a slot each selection by an interval of it has what it has of all;
/// each of them is taken by one; and where no file selects so, none is held.
pub fn held_rows_are_the_takers()
    ensures taken { (files : Files) (input slot : ℕ) (rows : List SignedRow)
        (held : List HeldRows) → AreHeldOf files input rows held
        → HaveTheirRows files input slot rows (held_at slot held) }
    ensures each { (files : Files) (input slot : ℕ) (rows : List SignedRow)
        (held : List HeldRows) → AreHeldOf files input rows held
        → AllAreHeld files input slot (held_at slot held) }
    ensures none { (files : Files) (input slot : ℕ) (rows : List SignedRow)
        (held : List HeldRows) → AreHeldOf files input rows held → NoneSelects files input slot
        → held_at slot held ≡ [] }
{}
