//! Laws of changes, keys and stores: each function's contract is the law, and it does nothing.
ghost use Rattle.std.specs.Prelude.{◌≡◌, ◌↔◌, ◌++◌, ◌∷◌, [], ℕ, Bool, List, Some, None};
ghost use Rattle.std.specs.Prelude.{slice_get, if◌then◌else◌};
ghost use Rattle.std.specs.List.{Contains};
ghost use Rattle.std.specs.FinMap.{get, entries};
ghost use Rattle.ncq_base.specs.Keys.{times};
ghost use Rattle.ncq_pyx.specs.declared.item.Item.{Item};
ghost use Rattle.ncq_tree.specs.declared.model.Element.{Element};
ghost use Rattle.ncq_source.specs.Changes.{prepared, after, store_after, Chains};
ghost use Rattle.ncq_source.specs.Changes.Trial.{Good};
ghost use Rattle.ncq_source.specs.Faults.{batch_fault, fault_in, first_fault};
ghost use Rattle.ncq_source.specs.Sections.{Holding, Holdings, batch_trial, go_on, is_named};
ghost use Rattle.ncq_source.specs.Sections.{items_for};
ghost use Rattle.ncq_source.specs.declared.change.Portion.{Portion};
ghost use Rattle.ncq_source.specs.declared.change.Section.{Section};
ghost use Rattle.ncq_source.specs.Stores.{Source, ShowsEach};
ghost use Rattle.ncq_source.specs.StoreStates.{ArePortionsOf, IsAlike, IsCommitted, StoreState};
ghost use Rattle.ncq_source.specs.StoreStates.{found, names};

/// The entries of items lead to the elements after the items, and each says what its key held.
pub fn entries_are_the_fold()
    ensures { (rule : _) (position : _) (kept : _) (items : List Item) (es : List _)
        → prepared rule position kept items ≡ Good es
        → (after kept es ≡ store_after rule kept items) × Chains kept es }
{}

/// Items have no entries exactly where one of them cannot be applied, and then the first such item
/// decides, seen with the elements as the items before it leave them; so it is with the items of
/// sections, taken one after the other.
pub fn the_first_fault_decides()
    ensures items { (rule : _) (position : _) (kept : _) (items : List Item)
        → fault_in (prepared rule position kept items) ≡ first_fault rule position kept items }
    ensures sections { (position : _) (holdings : Holdings) (sections : List Section)
        → fault_in (batch_trial position holdings sections)
        ≡ batch_fault position holdings sections }
{}

/// A change that was prepared, given room and committed leaves each source with the elements after
/// the items of the sections that name it, and its number as the last of each of these; a source
/// that no section names is as it was. Sections taken in two changes lead where they lead in one,
/// and a change of one section is its items alone.
pub fn changes_are_the_fold()
    ensures applied { (store ready done : StoreState) (change : List Portion)
        (sections : List Section) (at : ℕ) (s t : Source) → ArePortionsOf store sections change
        → IsAlike store ready → IsCommitted ready change done → found store s.name ≡ Some at
        → slice_get store.sources at ≡ Some s → slice_get done.sources at ≡ Some t
        → (t.elements ≡ store_after s.key s.elements (items_for s.name sections))
        × (t.last ≡ (if is_named s.name sections then done.changes else s.last)) }
    ensures parts { (rule : _) (kept : _) (name : _) (first second : List Section)
        → store_after rule kept (items_for name (first ++ second))
        ≡ store_after rule (store_after rule kept (items_for name first))
        (items_for name second) }
    ensures one { (holdings : Holdings) (section : Section) (h : Holding)
        → holdings section.source ≡ Some h
        → go_on (prepared h.rule 1 h.elements section.items) (Good tt)
        ≡ batch_trial 1 holdings (section ∷ []) }
{}

/// The elements that a source shows are those of its map, each key's once: a key holds an element
/// exactly where the two are shown, and every test passes as often among the one as among the
/// other. A name is not found exactly where no source has it.
pub fn stores_show_their_sources()
    ensures pairs { (source : Source) → ShowsEach source → (key : List ℕ) (element : Element)
        → get source.elements key ≡ Some element ↔ Contains source.shown (key, element) }
    ensures counts { (source : Source) → ShowsEach source → (test : List ℕ × Element → Bool)
        → times test (entries source.elements) ≡ times test source.shown }
    ensures names { (store : StoreState) (name : List ℕ)
        → found store name ≡ None ↔ (Contains (names store) name → ⊥) }
{}
