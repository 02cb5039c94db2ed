//! The laws that tie counts to bags.
ghost use Rattle.std.specs.Prelude.{◌≡◌, List, ℕ, map};
ghost use Rattle.std.specs.Str.{bytes_eq};
ghost use Rattle.ncq_bag.specs.Bags.{IsTally, difference, differences};
ghost use Rattle.ncq_bag.specs.Counts.{AreCountsOf, TellsDistinct, each_once, each_once_by};

/// Counts that say how much more often each byte string stands in one list than in another leave
/// the difference of the two bags.
pub fn tallies_decide()
    ensures { (counts : _) (now before : List (List ℕ)) → IsTally counts now before
        → differences counts ≡ difference now before }
{}

/// Counts of the list before, with the difference of two lists, tell the difference of the two with
/// each byte string once, and become the counts of the list now.
pub fn counts_tell_what_is_distinct()
    ensures { (counts : _) (now before : List (List ℕ)) → AreCountsOf counts before
        → TellsDistinct counts now before }
{}

/// Where items of one text are one, the texts of the items, each item once, are the texts, each
/// text once.
pub fn texts_are_once<T>()
    ensures { (text : T → List ℕ) (items : List T)
        → map text (each_once_by (λ a b. bytes_eq (text a) (text b)) items)
        ≡ each_once (map text items) }
{}
