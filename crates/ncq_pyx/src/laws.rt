//! Laws of what lines spell and of what is written. The functions do nothing: each is its contract.
ghost use Rattle.std.specs.Prelude.{◌≡◌, ◌∷◌, [], ◌≤◌, List, ℕ, Result, true};
ghost use Rattle.std.specs.List.{list_all};
ghost use Rattle.ncq_tree.specs.declared.model.Node.{Node};
ghost use Rattle.ncq_tree.specs.declared.model.Node.TheVariants.{Element as element_node};
ghost use Rattle.ncq_tree.specs.declared.model.Element.{Element};
ghost use Rattle.ncq_pyx.specs.declared.item.Item.{Item};
ghost use Rattle.ncq_pyx.specs.Spells.{Spells, put, Reads, IsAnswer, Gives};
ghost use Rattle.ncq_pyx.specs.Faults.{block_of};
ghost use Rattle.ncq_pyx.specs.declared.error.PyxError.{PyxError};
ghost use Rattle.ncq_pyx.specs.Canonical.{node_lines, canonical, pyx, is_good, is_named, is_proper};
ghost use Rattle.ncq_pyx.specs.Canonical.{depth};
ghost use Rattle.ncq_pyx.specs.Items.{item_is_proper};
ghost use Rattle.ncq_tree.specs.Normal.{node_is_normal};
ghost use Rattle.ncq_pyx.specs.declared.item.Item.TheVariants.{Put};
ghost use Rattle.ncq_base.specs.Escapes.{escaped, unescaped};
ghost use Rattle.ncq_pyx.specs.Joining.{behind_items};
ghost use Rattle.std.specs.Prelude.{Ok, length, ◌++◌, ◌+◌};

/// What is escaped stands for itself.
pub fn escapes_are_undone()
    ensures { (text : List ℕ) → unescaped (escaped text) ≡ text }
{}

/// Lines spell at most one list of items.
pub fn spelled_once()
    ensures { (limit : ℕ) (lines : List (List ℕ)) (a b : List Item) → Spells limit lines a
        → Spells limit lines b → a ≡ b }
{}

/// The canonical lines of an element spell the one put of its normal form.
pub fn written_is_read()
    ensures { (limit : ℕ) (e : Element) → is_good (element_node e) ≡ true
        → depth (element_node e) ≤ limit → Spells limit (node_lines (element_node e)) (put e ∷ []) }
{}

/// Forests are equal where their canonical lines are, or the bytes of these, if all their names are
/// PYX names and no element has two attributes of one name. So it is for proper forests: those that
/// are normal and have PYX names.
pub fn written_once()
    ensures lines { (a b : List Node) → list_all is_good a ≡ true → list_all is_good b ≡ true
        → canonical a ≡ canonical b → a ≡ b }
    ensures bytes { (a b : List Node) → list_all is_good a ≡ true → list_all is_good b ≡ true
        → pyx a ≡ pyx b → a ≡ b }
    ensures proper { (a b : List Node) → is_proper a ≡ true → is_proper b ≡ true → pyx a ≡ pyx b
        → a ≡ b }
{}

/// The canonical lines of a proper element spell the one put of that element.
pub fn proper_is_read()
    ensures { (limit : ℕ) (e : Element) → node_is_normal (element_node e) ≡ true
        → is_named (element_node e) ≡ true → depth (element_node e) ≤ limit
        → Spells limit (node_lines (element_node e)) (Put e ∷ []) }
{}

/// Each element that lines put is proper: it is normal, and all its names are PYX names.
pub fn spelled_is_proper()
    ensures { (limit : ℕ) (lines : List (List ℕ)) (items : List Item) → Spells limit lines items
        → list_all item_is_proper items ≡ true }
{}

/// What `block_of` says of lines is right: the items that they spell, or their first fault. No
/// other answer is, but that memory ran out.
pub fn blocks_are_exact()
    ensures right { (limit : ℕ) (lines : List (List ℕ)) → Reads limit lines (block_of limit lines) }
    ensures only { (limit : ℕ) (lines : List (List ℕ)) (answer : Result (List Item) PyxError)
        → Reads limit lines answer → Gives answer (block_of limit lines) }
{}

/// A block whose first lines spell items spells these and what the lines behind them spell, or has
/// their fault, so many lines further on. And so one after another.
pub fn blocks_are_joined()
    ensures one { (limit : ℕ) (front back : List (List ℕ)) (items : List Item)
        → block_of limit front ≡ Ok items
        → block_of limit (front ++ back) ≡ behind_items items (length front) (block_of limit back) }
    ensures two { (a b : List Item) (m n : ℕ) (r : Result (List Item) PyxError)
        → behind_items a m (behind_items b n r) ≡ behind_items (a ++ b) (m + n) r }
{}
