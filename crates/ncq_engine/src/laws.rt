//! Laws of histories: each function's contract is the law, and it does nothing.
ghost use Rattle.std.specs.Prelude.{◌≡◌, ◌↔◌, ◌++◌, ◌∷◌, ℕ, List, []};
ghost use Rattle.ncq_plan.specs.declared.expr.Expr.{Expr};
ghost use Rattle.ncq_plan.specs.ExprLists.{AreApart, IsIn};
ghost use Rattle.ncq_script.specs.declared.command.Command.{Command};
ghost use Rattle.ncq_script.specs.declared.command.Command.TheVariants.{Batch, Delta};
ghost use Rattle.ncq_shelf.specs.Parts.{IsPartOfOne};
ghost use Rattle.ncq_source.specs.declared.change.Section.{Section};
ghost use Rattle.ncq_engine.specs.Alone.{notes, only};
ghost use Rattle.ncq_engine.specs.Firing.{fires, mark};
ghost use Rattle.ncq_engine.specs.History.{History, Subscription, sources};
ghost use Rattle.ncq_engine.specs.Marks.{IsRising, mark_from, noted};
ghost use Rattle.ncq_engine.specs.Notices.{Language};
ghost use Rattle.ncq_engine.specs.Output.{output};
ghost use Rattle.ncq_engine.specs.Plannings.{live_plans};
ghost use Rattle.ncq_engine.specs.Reports.{closure};

/// The notices of one name are what they are without the creates and deletes of all others.
pub fn subscribers_are_apart()
    ensures { (language : Language) (name : List ℕ) (commands : List Command)
        → notes language name [] commands ≡ notes language name [] (only name commands) }
{}

/// Where no command moves the clock back, a change-based subscription's mark is the greatest of the
/// number at its first firing and the last changes of its sources: no change has to write it.
pub fn marks_follow()
    ensures { (s : Subscription) (history : History) → IsRising history
        → mark s history ≡ mark_from (noted s history) s history }
{}

/// A batch fires the same subscriptions as a delta of its sections and gets the same answer, and it
/// leaves the sources as its sections do, taken one after the other.
pub fn batches_are_deltas()
    ensures alike { (s : Subscription) (before : History) (changed : List Section)
        → fires s before (Batch changed) ≡ fires s before (Delta changed) }
    ensures written { (language : Language) (history : History) (number : ℕ)
        (changed : List Section) → output language history number (Batch changed)
        ≡ output language history number (Delta changed) }
    ensures parts { (history : History) (first second : List Section)
        → sources (Batch (first ++ second) ∷ history)
        ≡ sources (Delta second ∷ Delta first ∷ history) }
{}

/// The closure of a history has each part of a live plan, no other expression, and none twice.
pub fn closures_are_the_parts()
    ensures parts { (language : Language) (history : History) (expr : Expr)
        → IsIn expr (closure language history) ↔ IsPartOfOne expr (live_plans language history) }
    ensures once { (language : Language) (history : History)
        → AreApart (closure language history) }
{}
