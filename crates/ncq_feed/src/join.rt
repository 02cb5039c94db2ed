//! What a change makes of the file of a join.
ghost use Rattle.std.specs.Prelude.{◌≡◌, ◌+◌, ◌≤◌, ℕ, List, length, IfOk, OnOk, IfSome, IfNone};
ghost use Rattle.std.specs.List.{AllByRecursion};
ghost use Rattle.ncq_row.specs.declared.pair.Pair.{Pair};
ghost use Rattle.ncq_plan.specs.declared.expr.Expr.{Expr as an_expr};
ghost use Rattle.ncq_delta.specs.Joins.{left_slots, right_slots};
ghost use Rattle.ncq_shelf.specs.Stands.{IsThere, Stands};
ghost use Rattle.ncq_shelf.specs.Readers.{JoinsFrom};
ghost use Rattle.ncq_feed.specs.Runs.{Run, IsUnderWay, IsFor, JoinGetsFrom, count_in, due, news_in};
ghost use Rattle.ncq_feed.specs.JoinFeeds.{IsJoined, AreKnown, IsJoinFile};

use crate::append::append_all;
use ncq_base::Steps;
use ncq_delta::join_delta;
use ncq_midfile::{Places, SignedRows};
use ncq_plan::Expr;
use ncq_row::Pairs;
use ncq_shelf::{Inputs, Shelf};
use std::alloc::{AllocError, Global};
use std::sync::ledger::Ledger;

/// Gives a join what its inputs' rows of the change make of it. Another file stays as it is.
pub(crate) fn feed_join<L: Ledger>(
    alloc: Global,
    shelf: &mut Shelf,
    at: u64,
    now: u64,
    steps: &mut Steps<L>,
) -> Result<(), AllocError>
    ghost run: { Run }
    requires now { now ≡ run.store.changes }
    requires under { IsUnderWay run shelf.old }
    requires there { IsThere run.files at }
    requires known { AreKnown run at shelf.old }
    requires few { count_in run shelf.old at ≤ due run at }
    ensures under { IsUnderWay run shelf.new }
    ensures joined { OnOk result (IsJoined run at shelf.old shelf.new) }
    ensures cost { steps.new + count_in run shelf.old at ≤ steps.old + due run at }
    ensures spent { OnOk result
        (steps.new + count_in run shelf.old at ≤ steps.old + count_in run shelf.new at) }
{
    let Some((left, right)) = sides_of(shelf, at) else {
        return Ok(());
    };
    index_sides(alloc, shelf, at, left, right)?;
    let rows = joined(alloc, shelf, at, left, right, now, steps)?;
    append_all(shelf, at, rows)?;
    Ok(())
}

/// The files that a join joins; where the file is that of no join, none.
fn sides_of(shelf: &Shelf, at: u64) -> Option<(u64, u64)>
    requires { IsThere shelf.now at }
    ensures some { IfSome result (λ sides. JoinsFrom shelf.now at sides.0 sides.1) }
    ensures none { IfNone result ((left right : ℕ) → JoinsFrom shelf.now at left right → ⊥) }
{
    let Expr::Join { .. } = shelf.expr(at) else {
        return None;
    };
    match shelf.inputs(at) {
        Inputs::Two(left, right) => Some((left, right)),
        Inputs::One(both) => Some((both, both)),
        Inputs::Nothing => unreachable!(),
    }
}

/// Makes sure that the rows of both sides are found by the slots that the join compares.
fn index_sides(
    alloc: Global,
    shelf: &mut Shelf,
    at: u64,
    left: u64,
    right: u64,
) -> Result<(), AllocError>
    ghost run: { Run }
    requires under { IsUnderWay run shelf.old }
    requires joins { JoinsFrom run.files at left right }
    ensures { shelf.new ≡ shelf.old }
{
    let lefts = left_slots(alloc, pairs_of(shelf, at))?;
    let rights = right_slots(alloc, pairs_of(shelf, at))?;
    shelf.ensure_index(alloc, left, lefts.as_slice())?;
    shelf.ensure_index(alloc, right, rights.as_slice())?;
    Ok(())
}

/// The slots of the pairs on the left.
fn left_slots(alloc: Global, pairs: &Pairs) -> Result<Places, AllocError>
    ensures { IfOk result (λ slots. slots ≡ left_slots pairs.now) }
{
    let mut slots = Places::new(alloc);
    for pair in pairs.as_slice() {
        slots.push(pair.left)?;
    }
    Ok(slots)
}

/// The slots of the pairs on the right.
fn right_slots(alloc: Global, pairs: &Pairs) -> Result<Places, AllocError>
    ensures { IfOk result (λ slots. slots ≡ right_slots pairs.now) }
{
    let mut slots = Places::new(alloc);
    for pair in pairs.as_slice() {
        slots.push(pair.right)?;
    }
    Ok(slots)
}

/// The pairs that a join compares.
fn pairs_of(shelf: &Shelf, at: u64) -> &Pairs
    requires { IsJoinFile shelf.now at }
    ensures { (first second : an_expr) (pairs : List Pair)
        → Stands shelf.now (Expr.Join first second pairs) at → result.now ≡ pairs }
{
    match shelf.expr(at) {
        Expr::Join { pairs, .. } => pairs,
        _ => unreachable!(),
    }
}

/// What the inputs' rows of the change make of the join.
fn joined<L: Ledger>(
    alloc: Global,
    shelf: &Shelf,
    at: u64,
    left: u64,
    right: u64,
    now: u64,
    steps: &mut Steps<L>,
) -> Result<SignedRows, AllocError>
    ghost run: { Run }
    requires now { now ≡ run.store.changes }
    requires under { IsUnderWay run shelf.now }
    requires known { AreKnown run at shelf.now }
    requires joins { JoinsFrom run.files at left right }
    ensures rows { IfOk result (JoinGetsFrom run at
        (news_in run.store.changes shelf.now left)
        (news_in run.store.changes shelf.now right)) }
    ensures fits { IfOk result (AllByRecursion (IsFor run at)) }
    ensures cost { steps.new ≤ steps.old + due run at }
    ensures spent { IfOk result (λ rows. steps.new ≤ steps.old + length rows) }
{
    let rows = join_delta(
        alloc,
        &shelf.content(left),
        &shelf.content(right),
        pairs_of(shelf, at),
        now + 1,
        steps,
    )?;
    Ok(rows)
}
