//! The rows of an expression whose inputs have files.
ghost use Rattle.std.specs.Prelude.{◌≡◌, ◌+◌, ◌≤◌, length, IfOk};
ghost use Rattle.std.specs.List.{AllByRecursion};
ghost use Rattle.ncq_base.specs.Counts.{SameCounts};
ghost use Rattle.ncq_plan.specs.Exprs.{rows_in, expr_width};
ghost use Rattle.ncq_plan.specs.WellFormed.{IsWellFormedExpr};
ghost use Rattle.ncq_change.specs.Stores.{world_in};
ghost use Rattle.ncq_shelf.specs.Contents.{AreWide, AreUpTo, Fits};
ghost use Rattle.ncq_shelf.specs.Inputs.{AreInputs};
ghost use Rattle.ncq_shelf.specs.Ranges.{IsRange};

use crate::constant::with_constant;
use crate::numbers::{only, sides};
use crate::scan::scan;
use crate::sides::index_sides;
use ncq_base::Steps;
use ncq_delta::join_whole;
use ncq_plan::Expr;
use ncq_row::Rows;
use ncq_shelf::{Inputs, Shelf};
use ncq_source::Store;
use std::alloc::{AllocError, Global};
use std::sync::ledger::Ledger;

/// The rows of an expression, no selection by an interval, over the sources as they stand, each as
/// often, in an order of the files' own. The files are told by what slots their rows are to be
/// found from now on; nothing that can be seen of them changes. It takes at most one step for each
/// row, whatever it answers. The only error is that memory ran out.
pub fn first_rows<L: Ledger>(
    alloc: Global,
    shelf: &mut Shelf,
    expr: &Expr,
    inputs: Inputs,
    store: &Store,
    steps: &mut Steps<L>,
) -> Result<Rows, AllocError>
    requires own { IsRange expr.now → ⊥ }
    requires inputs { AreInputs shelf.old expr.now inputs }
    requires formed { IsWellFormedExpr expr.now }
    requires wide { AreWide shelf.old }
    requires up_to { AreUpTo store.now.changes shelf.old }
    requires fits { Fits store.now.changes (world_in store.now) shelf.old }
    ensures counts { IfOk result (λ rows. SameCounts rows (rows_in expr.now (world_in store.now))) }
    ensures wide { IfOk result (AllByRecursion (λ row. length row ≡ expr_width expr.now)) }
    ensures same { shelf.new ≡ shelf.old }
    ensures cost { steps.new ≤ steps.old + length (rows_in expr.now (world_in store.now)) }
{
    let now = store.changes();
    match expr {
        Expr::Scan { source, shape } => scan(alloc, source, shape.get(), store, steps),
        Expr::EqSel { slot, constant, .. } => {
            let number = only(inputs);
            shelf.ensure_index(alloc, number, &[*slot])?;
            let file = shelf.content(number);
            with_constant(alloc, &file, *slot, constant, now, steps)
        }
        Expr::RangeSel { .. } => unreachable!(),
        Expr::Join { pairs, .. } => {
            let (left, right) = sides(inputs);
            index_sides(alloc, shelf, left, right, pairs)?;
            let lefts = shelf.content(left);
            let rights = shelf.content(right);
            join_whole(alloc, &lefts, &rights, pairs, now, steps)
        }
    }
}
