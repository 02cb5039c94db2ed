//! Copies of expressions.
use crate::expr::Expr;
use ncq_base::{Copied, Shared};
use std::alloc::{AllocError, Global};

impl Copied for Expr {
    fn copy(&self, alloc: Global) -> Result<Expr, AllocError> {
        match self {
            Expr::Scan { source, shape } => Ok(Expr::Scan {
                source: source.copy(alloc)?,
                shape: shape.share()?,
            }),
            Expr::EqSel {
                input,
                slot,
                constant,
            } => Ok(Expr::EqSel {
                input: input.share()?,
                slot: *slot,
                constant: constant.copy(alloc)?,
            }),
            Expr::RangeSel {
                input,
                slot,
                interval,
            } => Ok(Expr::RangeSel {
                input: input.share()?,
                slot: *slot,
                interval: *interval,
            }),
            Expr::Join { left, right, pairs } => Ok(Expr::Join {
                left: left.share()?,
                right: right.share()?,
                pairs: pairs.copy(alloc)?,
            }),
        }
    }
}
