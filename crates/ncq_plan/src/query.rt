//! Queries in normal form: names are slots, and each condition stands where it can be met first.
use crate::residual::Checks;
use crate::template::SlotTemplate;
use ncq_base::{Atom, Bytes, Copied, Interval, Sequence, Shared};
use ncq_row::{Pairs, Shape};
use std::alloc::{AllocError, Global};

/// A slot has the constant's atom. Such demands are ordered by slot, then by atom.
#[derive(PartialEq, Eq, PartialOrd, Ord, Drop)]
pub struct EqualTo {
    pub slot: usize,
    pub constant: Atom,
}

/// Such demands, in order.
pub type EqualTos = Sequence<EqualTo>;

/// A slot is a number in the interval.
#[derive(Drop)]
pub struct Within {
    pub slot: usize,
    pub interval: Interval,
}

/// Such demands, in order.
pub type Withins = Sequence<Within>;

/// A pattern under the root of a source, by its shape, and what it asks. The slots of `equals` and
/// `ranges` are those of the arm's row. The pairs tie the arm to those before it: the left slot is
/// one of the query, the right slot one of the arm. The first arm has none.
pub struct Arm {
    pub source: Bytes,
    pub shape: Shared<Shape>,
    pub equals: EqualTos,
    pub ranges: Withins,
    pub pairs: Pairs,
}

impl Drop for Arm {
    fn drop(self) {
        let Arm {
            source,
            shape,
            equals,
            ranges,
            pairs,
        } = self;
        drop(source);
        drop(shape);
        drop(equals);
        drop(ranges);
        drop(pairs);
    }
}

/// Arms in order.
pub type Arms = Sequence<Arm>;

/// A query whose variables are slots. A slot of the query is the arm's offset plus a slot of the
/// arm; the offset is the sum of the widths of the arms before.
pub struct NormalQuery {
    pub arms: Arms,
    pub residual: Checks,
    pub template: SlotTemplate,
}

impl Drop for NormalQuery {
    fn drop(self) {
        let NormalQuery {
            arms,
            residual,
            template,
        } = self;
        drop(arms);
        drop(residual);
        drop(template);
    }
}

impl Copied for EqualTo {
    fn copy(&self, alloc: Global) -> Result<EqualTo, AllocError> {
        Ok(EqualTo {
            slot: self.slot,
            constant: self.constant.copy(alloc)?,
        })
    }
}

impl Copied for Within {
    fn copy(&self, _alloc: Global) -> Result<Within, AllocError> {
        Ok(Within {
            slot: self.slot,
            interval: self.interval,
        })
    }
}

impl Copied for Arm {
    fn copy(&self, alloc: Global) -> Result<Arm, AllocError> {
        Ok(Arm {
            source: self.source.copy(alloc)?,
            shape: self.shape.share()?,
            equals: self.equals.copy(alloc)?,
            ranges: self.ranges.copy(alloc)?,
            pairs: self.pairs.copy(alloc)?,
        })
    }
}

impl Copied for NormalQuery {
    fn copy(&self, alloc: Global) -> Result<NormalQuery, AllocError> {
        Ok(NormalQuery {
            arms: self.arms.copy(alloc)?,
            residual: self.residual.copy(alloc)?,
            template: self.template.copy(alloc)?,
        })
    }
}
