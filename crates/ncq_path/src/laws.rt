//! Laws of paths and states. The functions do nothing: each is its contract.
ghost use Rattle.std.specs.Prelude.{◌≡◌, ◌↔◌, ◌++◌, [], true, List, ℕ};
ghost use Rattle.ncq_path.specs.declared.path.Path.{Path};
ghost use Rattle.ncq_path.specs.After.{IsAfter};
ghost use Rattle.ncq_path.specs.Deciding.{in_path};
ghost use Rattle.ncq_path.specs.Formed.{IsWellFormed, is_formed};
ghost use Rattle.ncq_path.specs.Paths.{InPath};

/// There is one state behind a list of names.
pub fn one_state()
    ensures { (path : Path) (tags : List (List ℕ)) (a b : List ℕ) → IsAfter path tags a
        → IsAfter path tags b → a ≡ b }
{}

/// Behind a state without positions nothing is in the path.
pub fn no_position_leads_nowhere()
    ensures { (path : Path) (tags more : List (List ℕ)) → IsAfter path tags []
        → InPath path (tags ++ more) → ⊥ }
{}

/// The tests say which names are in a path, and which paths are well formed.
pub fn paths_are_decided()
    ensures names { (path : Path) (tags : List (List ℕ))
        → (in_path path tags ≡ true) ↔ InPath path tags }
    ensures formed { (path : Path) → (is_formed path ≡ true) ↔ IsWellFormed path }
{}
