//! Laws of what a block says. The functions do nothing: each is its contract.
ghost use Rattle.std.specs.Prelude.{◌≡◌, ◌↔◌, List, ℕ, Result};
ghost use Rattle.ncq_pyx.specs.declared.error.PyxError.{PyxError};
ghost use Rattle.ncq_source.specs.declared.change.Section.{Section};
ghost use Rattle.ncq_script.specs.Batches.{batch_of};
ghost use Rattle.ncq_script.specs.SpellsBatch.{ReadsBatch, SpellsBatch};

/// What `batch_of` says of the lines of a block is right, and nothing else is: the sections that
/// they spell, or their first fault, whose line is counted over the whole block. So lines spell at
/// most one list of sections: they are parted at those that begin with `@`, and nowhere else.
pub fn batches_are_exact()
    ensures exact { (limit : ℕ) (lines : List (List ℕ)) (answer : Result (List Section) PyxError)
        → (batch_of limit lines ≡ answer) ↔ ReadsBatch limit lines answer }
    ensures once { (limit : ℕ) (lines : List (List ℕ)) (a b : List Section)
        → SpellsBatch limit lines a → SpellsBatch limit lines b → a ≡ b }
{}
