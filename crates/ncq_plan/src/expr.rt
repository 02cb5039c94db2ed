//! Expressions over the rows of sources.
use crate::same::same_expr;
use indexmap::Equivalent;
use ncq_base::{Atom, Bytes, Interval, Shared};
use ncq_row::{Pairs, Shape};
use std::hash::{Hash, Hasher};

/// What makes rows.
#[derive(Hash, Drop)]
pub enum Expr {
    /// The rows of the shape in each element of the source.
    Scan {
        source: Bytes,
        shape: Shared<Shape>,
    },
    /// The rows whose slot has the constant's atom.
    EqSel {
        input: Shared<Expr>,
        slot: usize,
        constant: Atom,
    },
    /// The rows whose slot is a number in the interval.
    RangeSel {
        input: Shared<Expr>,
        slot: usize,
        interval: Interval,
    },
    /// Each left row followed by each right row, where each pair has the same atom.
    Join {
        left: Shared<Expr>,
        right: Shared<Expr>,
        pairs: Pairs,
    },
}

impl PartialEq for Expr {
    ghost use Rattle.ncq_base.specs.Exact.{exact, exact_per};
    ghost use Rattle.ncq_plan.specs.contracts.expr.Expr.{the_row};

    ghost eq = { exact the_row.coded };

    ghost laws = { exact_per the_row.coded };

    fn eq(&self, other: &Expr) -> bool {
        same_expr(self, other)
    }
}

impl Eq for Expr {
    ghost use Rattle.ncq_base.specs.Exact.{exact_equiv};
    ghost use Rattle.ncq_plan.specs.contracts.expr.Expr.{the_row};

    ghost laws = { exact_equiv the_row.coded };
}

#[derived]
impl Hash for Expr {
    ghost use Rattle.ncq_base.specs.Exact.{exact_is};
    ghost use Rattle.ncq_plan.specs.contracts.expr.Expr.{the_row};
    ghost use Rattle.std.specs.Prelude.{◌≡◌};

    ghost respects_eq = { λ x y h. let e : x ≡ y = exact_is the_row.coded x y h in Prim.cc };
}

// An expression finds those that share it, without an owner of its own.
impl Equivalent<Shared<Expr>> for &Expr {
    ghost use Rattle.ncq_base.specs.Exact.{exact, exact_equiv, exact_is};
    ghost use Rattle.ncq_plan.specs.contracts.expr.Expr.{the_row};
    ghost use Rattle.std.specs.Prelude.{◌≡◌};

    ghost equivalent = { λ q. exact the_row.coded q.now };

    ghost respects_hash = { λ q k h. let e : q.now ≡ k = exact_is the_row.coded q.now k h in
        Prim.cc };

    ghost respects_eq = { λ q x y. (exact_equiv the_row.coded).congr q.now x y };

    fn equivalent(&self, key: &Shared<Expr>) -> bool {
        same_expr(self, key.get())
    }
}
