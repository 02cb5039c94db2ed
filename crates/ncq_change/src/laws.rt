//! Laws of changes: each function's contract is the law, and it does nothing.
ghost use Rattle.std.specs.Prelude.{◌≡◌, List, ℕ};
ghost use Rattle.ncq_source.specs.declared.change.Entry.{Entry};
ghost use Rattle.ncq_source.specs.Changes.{Chains};
ghost use Rattle.ncq_source.specs.Changes as changes;
ghost use Rattle.ncq_source.specs.declared.change.Portion.{Portion};
ghost use Rattle.ncq_source.specs.declared.change.Section.{Section};
ghost use Rattle.ncq_source.specs.Held.{Kept};
ghost use Rattle.ncq_source.specs.StoreStates.{ArePortionsOf, StoreState};
ghost use Rattle.ncq_plan.specs.declared.expr.Expr.{Expr};
ghost use Rattle.ncq_plan.specs.Exprs.{rows_in};
ghost use Rattle.ncq_plan.specs.Totals.{LeadsTo};
ghost use Rattle.ncq_plan.specs.Deltas.{delta_of, ScansLead};
ghost use Rattle.ncq_change.specs.Entries.{scans_of, world_of, IsChange, of_source, after_in};
ghost use Rattle.ncq_change.specs.Stores.{entries_in, kept_in, world_in, Applies};

/// Entries that say what their keys held lead each scan, and so each expression, from its rows
/// before to its rows after, also where both sides of a join are one expression. Entries of one
/// source are a change.
pub fn changes_lead()
    ensures source { (before : List ℕ → Kept) (name : List ℕ) (entries : List Entry)
        → Chains (before name) entries
        → IsChange before (after_in before name entries) (of_source name entries) }
    ensures scans { (before after : List ℕ → Kept) (entries : List ℕ → List Entry)
        → IsChange before after entries
        → ScansLead (world_of before) (world_of after) (scans_of entries) }
    ensures exprs { (before after : List ℕ → Kept) (entries : List ℕ → List Entry) (expr : Expr)
        → IsChange before after entries
        → LeadsTo (rows_in expr (world_of before))
        (delta_of (world_of before) (world_of after) (scans_of entries) expr)
        (rows_in expr (world_of after)) }
{}

/// A change that was prepared, given room and committed leaves each source of the store with the
/// elements after the change's entries for it, and so leads each expression from its rows in the
/// store before to those in the store after. What was prepared of sections says of each source what
/// its keys held.
pub fn commits_lead()
    ensures elements { (before ready after : StoreState) (change : List Portion) (source : List ℕ)
        → Applies before ready after change
        → kept_in after source ≡ changes.after (kept_in before source)
        (entries_in before change source) }
    ensures change { (before ready after : StoreState) (change : List Portion)
        → Applies before ready after change
        → IsChange (kept_in before) (kept_in after) (entries_in before change) }
    ensures exprs { (before ready after : StoreState) (change : List Portion) (expr : Expr)
        → Applies before ready after change
        → LeadsTo (rows_in expr (world_in before))
        (delta_of (world_in before) (world_in after) (scans_of (entries_in before change)) expr)
        (rows_in expr (world_in after)) }
    ensures prepared { (store : StoreState) (sections : List Section) (change : List Portion)
        → ArePortionsOf store sections change
        → (name : List ℕ) → Chains (kept_in store name) (entries_in store change name) }
{}
