//! Whether two expressions are one.
ghost use Rattle.std.specs.Prelude.{◌≡◌, IsTrue, ◌↔◌};

use crate::expr::Expr;
use ncq_base::{End, Interval, same};
use ncq_row::{Pair, same_shape};

/// Whether the two are one expression.
pub fn same_expr(a: &Expr, b: &Expr) -> bool
    ensures { IsTrue result ↔ (a.now ≡ b.now) }
{
    match (a, b) {
        (
            Expr::Scan { source, shape },
            Expr::Scan {
                source: other_source,
                shape: other_shape,
            },
        ) => source == other_source && same_shape(shape.get(), other_shape.get()),
        (
            Expr::EqSel {
                input,
                slot,
                constant,
            },
            Expr::EqSel {
                input: other_input,
                slot: other_slot,
                constant: other_constant,
            },
        ) => {
            slot == other_slot
                && same(constant, other_constant)
                && same_expr(input.get(), other_input.get())
        }
        (
            Expr::RangeSel {
                input,
                slot,
                interval,
            },
            Expr::RangeSel {
                input: other_input,
                slot: other_slot,
                interval: other_interval,
            },
        ) => {
            slot == other_slot
                && same_interval(interval, other_interval)
                && same_expr(input.get(), other_input.get())
        }
        (
            Expr::Join { left, right, pairs },
            Expr::Join {
                left: other_left,
                right: other_right,
                pairs: other_pairs,
            },
        ) => {
            same_pairs(pairs.as_slice(), other_pairs.as_slice())
                && same_expr(left.get(), other_left.get())
                && same_expr(right.get(), other_right.get())
        }
        _ => false,
    }
}

fn same_interval(a: &Interval, b: &Interval) -> bool
    ensures { IsTrue result ↔ (a.now ≡ b.now) }
{
    same_end(a.low, b.low) && same_end(a.high, b.high)
}

fn same_end(a: End, b: End) -> bool
    ensures { IsTrue result ↔ (a ≡ b) }
{
    match (a, b) {
        (End::Unbounded, End::Unbounded) => true,
        (End::Included(m), End::Included(n)) => m == n,
        (End::Excluded(m), End::Excluded(n)) => m == n,
        _ => false,
    }
}

/// Whether the two are the same pairs in the same order.
pub fn same_pairs(a: &[Pair], b: &[Pair]) -> bool
    ensures { IsTrue result ↔ (a.now ≡ b.now) }
{
    if a.len() != b.len() {
        return false;
    }
    for i in 0..a.len() {
        if a[i] != b[i] {
            return false;
        }
    }
    true
}
