//! Files for an expression and its parts, bottom up.
ghost use Rattle.std.specs.Prelude.{◌≡◌, ℕ, ◌+◌, ◌<◌, ◌≤◌, ◌^◌, List, length};
ghost use Rattle.std.specs.Prelude.{OnOk, OnErr, IfOk, None, Some};
ghost use Rattle.std.specs.FinMap.{get};
ghost use Rattle.std.specs.List.{AllByRecursion};
ghost use Rattle.ncq_change.specs.Stores.{world_in};
ghost use Rattle.ncq_plan.specs.declared.expr.Expr.{Expr as an_expr};
ghost use Rattle.ncq_plan.specs.Exprs.{operators, rows_in};
ghost use Rattle.ncq_plan.specs.WellFormed.{IsWellFormedExpr};
ghost use Rattle.ncq_shelf.specs.KeptFiles.{EachFile};
ghost use Rattle.ncq_shelf.specs.Parts.{IsInput};
ghost use Rattle.ncq_shelf.specs.Stands.{Stands};
ghost use Rattle.ncq_shelf.specs.Inputs.{AreInputs};
ghost use Rattle.ncq_feed.specs.Feeds.{AreReady};
ghost use Rattle.ncq_count.specs.Counted.{AreCounted};
ghost use Rattle.ncq_group.specs.Closure.{IsKept};
ghost use Rattle.ncq_group.specs.Grown.{HasMade, IsAdded, IsGrown, IsPut, OnlyUnread};

use crate::filed::Filed;
use ncq_base::Steps;
use ncq_fill::first_rows;
use ncq_midfile::MidFile;
use ncq_plan::Expr;
use ncq_shelf::{Inputs, Shelf};
use ncq_source::Store;
use std::alloc::{AllocError, Global};
use std::hash::RandomState;
use std::sync::ledger::Ledger;

/// The number of the expression's file; where there is none, one is made, and one for each of its
/// parts that has none.
#[cycle(placing)]
pub(crate) fn place<L: Ledger>(
    alloc: Global,
    seed: RandomState,
    filed: &mut Filed,
    expr: &Expr,
    store: &Store,
    steps: &mut Steps<L>,
) -> Result<u64, AllocError>
    requires ready { AreReady store.now.changes (world_in store.now) filed.old.shelf }
    requires counted { AreCounted filed.old.shelf filed.old.groups }
    requires below { EachFile filed.old.shelf (λ number file. number < filed.old.next) }
    requires formed { IsWellFormedExpr expr.now }
    requires room { filed.old.next + operators expr.now < 2 ^ 64 }
    ensures grown { IsGrown expr.now store.now.changes (world_in store.now)
        filed.old.shelf filed.old.next filed.new.shelf filed.new.next }
    ensures counted { AreCounted filed.new.shelf filed.new.groups }
    ensures stands { IfOk result (λ number. Stands filed.new.shelf expr.now number) }
    ensures unread { OnOk result (OnlyUnread (λ e. e ≡ expr.now) filed.old.next filed.new.shelf) }
    ensures cost { (made : List an_expr)
        × HasMade expr.now (world_in store.now) filed.old.shelf made steps.old steps.new
        × OnOk result (AllByRecursion (IsKept filed.new.shelf) made) }
{
    let inputs = place_inputs(alloc, seed, filed, expr, store, steps)?;
    if let Some(number) = filed.shelf.find(expr) {
        return Ok(number);
    }
    let number = put(alloc, seed, filed, expr, inputs, store, steps)?;
    Ok(number)
}

/// The numbers of the files of the expression's inputs.
#[cycle(placing)]
fn place_inputs<L: Ledger>(
    alloc: Global,
    seed: RandomState,
    filed: &mut Filed,
    expr: &Expr,
    store: &Store,
    steps: &mut Steps<L>,
) -> Result<Inputs, AllocError>
    requires ready { AreReady store.now.changes (world_in store.now) filed.old.shelf }
    requires counted { AreCounted filed.old.shelf filed.old.groups }
    requires below { EachFile filed.old.shelf (λ number file. number < filed.old.next) }
    requires formed { IsWellFormedExpr expr.now }
    requires room { filed.old.next + operators expr.now < 2 ^ 64 }
    ensures grown { IsGrown expr.now store.now.changes (world_in store.now)
        filed.old.shelf filed.old.next filed.new.shelf filed.new.next }
    ensures counted { AreCounted filed.new.shelf filed.new.groups }
    ensures room { filed.new.next + 1 ≤ filed.old.next + operators expr.now }
    ensures inputs { IfOk result (λ inputs. AreInputs filed.new.shelf expr.now inputs) }
    ensures unread { OnOk result (OnlyUnread (λ e. IsInput e expr.now)
        filed.old.next filed.new.shelf) }
    ensures cost { (made : List an_expr)
        × HasMade expr.now (world_in store.now) filed.old.shelf made steps.old steps.new
        × OnOk result (AllByRecursion (IsKept filed.new.shelf) made) }
{
    match expr {
        Expr::Scan { .. } => Ok(Inputs::Nothing),
        Expr::EqSel { input, .. } => {
            let number = place(alloc, seed, filed, input.get(), store, steps)?;
            Ok(Inputs::One(number))
        }
        Expr::RangeSel { input, .. } => {
            let number = place(alloc, seed, filed, input.get(), store, steps)?;
            Ok(Inputs::One(number))
        }
        Expr::Join { left, right, .. } => {
            let first = place(alloc, seed, filed, left.get(), store, steps)?;
            let second = place(alloc, seed, filed, right.get(), store, steps)?;
            Ok(Inputs::Two(first, second))
        }
    }
}

/// A file for an expression that has none.
fn put<L: Ledger>(
    alloc: Global,
    seed: RandomState,
    filed: &mut Filed,
    expr: &Expr,
    inputs: Inputs,
    store: &Store,
    steps: &mut Steps<L>,
) -> Result<u64, AllocError>
    requires ready { AreReady store.now.changes (world_in store.now) filed.old.shelf }
    requires counted { AreCounted filed.old.shelf filed.old.groups }
    requires below { EachFile filed.old.shelf (λ number file. number < filed.old.next) }
    requires new { (number : ℕ) → Stands filed.old.shelf expr.now number → ⊥ }
    requires inputs { AreInputs filed.old.shelf expr.now inputs }
    requires formed { IsWellFormedExpr expr.now }
    requires room { filed.old.next + 1 < 2 ^ 64 }
    ensures ok { IfOk result (λ number.
        IsPut filed.old number expr.now store.now.changes (world_in store.now) filed.new) }
    ensures err { OnErr result (filed.new ≡ filed.old) }
    ensures counted { AreCounted filed.new.shelf filed.new.groups }
    ensures cost { steps.new ≤ steps.old + length (rows_in expr.now (world_in store.now)) }
{
    let number = filed.next;
    add_file(
        alloc,
        seed,
        &mut filed.shelf,
        number,
        expr,
        inputs,
        store,
        steps,
    )?;
    if let Err(refused) = filed.groups.count_in(&filed.shelf, number) {
        let _inputs = filed.shelf.remove(number);
        return Err(refused);
    }
    filed.next = number + 1;
    Ok(number)
}

/// One more file, with the rows of the expression over the sources as they stand: those of a
/// selection by an interval are shared with others, and what they lack is added there.
fn add_file<L: Ledger>(
    alloc: Global,
    seed: RandomState,
    shelf: &mut Shelf,
    number: u64,
    expr: &Expr,
    inputs: Inputs,
    store: &Store,
    steps: &mut Steps<L>,
) -> Result<(), AllocError>
    requires absent { get shelf.old number ≡ None }
    requires ready { AreReady store.now.changes (world_in store.now) shelf.old }
    requires new { (other : ℕ) → Stands shelf.old expr.now other → ⊥ }
    requires inputs { AreInputs shelf.old expr.now inputs }
    requires formed { IsWellFormedExpr expr.now }
    ensures ok { OnOk result
        (IsAdded shelf.old number expr.now store.now.changes (world_in store.now) shelf.new) }
    ensures err { OnErr result (shelf.new ≡ shelf.old) }
    ensures cost { steps.new ≤ steps.old + length (rows_in expr.now (world_in store.now)) }
{
    if let Expr::RangeSel { .. } = expr {
        return shelf.add_ranged(alloc, number, expr, inputs, store.changes(), steps);
    }
    let rows = first_rows(alloc, shelf, expr, inputs, store, steps)?;
    let content = MidFile::new(alloc, seed, store.changes(), rows)?;
    shelf.add(alloc, number, expr, inputs, content)
}
