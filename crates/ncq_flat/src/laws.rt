//! What lines are the element of.
ghost use Rattle.std.specs.Prelude.{◌≡◌, ◌++◌, ◌∷◌, List, ℕ, Bool, true};
ghost use Rattle.ncq_tree.specs.declared.model.Node.{Node};
ghost use Rattle.ncq_pyx.specs.Canonical.{canonical};
ghost use Rattle.ncq_flat.specs.Behind.{behind};
ghost use Rattle.ncq_flat.specs.Checked.{is_checked};
ghost use Rattle.ncq_flat.specs.Insides.{insides, if_wanted};
ghost use Rattle.ncq_tree.specs.declared.model.Node.TheVariants.{Text as text_node};
ghost use Rattle.ncq_tree.specs.declared.model.Node.TheVariants.{Element as element_node};
ghost use Rattle.ncq_tree.specs.declared.model.Element.{Element};
ghost use Rattle.ncq_tree.specs.Normal.{node_is_normal};
ghost use Rattle.ncq_pyx.specs.Canonical.{node_lines, bytes_of_lines, is_named};
ghost use Rattle.ncq_flat.specs.Flat.{element_in};
ghost use Rattle.ncq_tree.specs.Texts.{string_value, texts};
ghost use Rattle.ncq_flat.specs.Said.{string_value_in, texts_in};
ghost use Rattle.ncq_flat.specs.Insides.{inside_of};

/// The element of the canonical lines of a proper element is that element.
pub fn read_as_written()
    ensures { (e : Element) → node_is_normal (element_node e) ≡ true
        → is_named (element_node e) ≡ true
        → element_in (bytes_of_lines (node_lines (element_node e))) ≡ e }
{}

/// Behind the lines of the nodes of an element and the line that closes it stands what follows.
pub fn ends_are_found()
    ensures { (forest : List Node) (name : List ℕ) (more : List (List ℕ))
        → behind 0 (canonical forest ++ (41 ∷ name) ∷ more) ≡ more }
{}

/// On the lines of the nodes of an element one finds the insides of those children that are wanted:
/// of an element its own, if it is wanted, and those behind it; of a text those behind it.
pub fn insides_are_found()
    ensures element { (wanted : List ℕ → Bool) (e : Element) (more : List (List ℕ))
        → insides wanted 0 (node_lines (element_node e) ++ more)
        ≡ if_wanted wanted e more ++ insides wanted 0 more }
    ensures text { (wanted : List ℕ → Bool) (text : List ℕ) (more : List (List ℕ))
        → insides wanted 0 (node_lines (text_node text) ++ more) ≡ insides wanted 0 more }
{}

/// Lines that are checked are the canonical lines of a proper element.
pub fn checked_are_canonical()
    ensures { (lines : List (List ℕ)) → is_checked lines ≡ true
        → (e : Element) × ((lines ≡ node_lines (element_node e))
        × ((node_is_normal (element_node e) ≡ true) × (is_named (element_node e) ≡ true))) }
{}

/// The texts that stand on the lines of an element, from inside it on, are its texts; and so its
/// string value, from its own lines or from inside it on.
pub fn texts_are_found()
    ensures texts { (e : Element) (more : List (List ℕ))
        → texts_in 0 (inside_of e more) ≡ texts e.children }
    ensures inside { (e : Element) (more : List (List ℕ))
        → string_value_in (inside_of e more) ≡ string_value e.children }
    ensures whole { (e : Element)
        → string_value_in (node_lines (element_node e)) ≡ string_value e.children }
{}
