//! The places at which rows are joined.
use ncq_base::{Copied, Sequence};
use std::alloc::{AllocError, Global};

/// A slot of the left row and one of the right that have the same atom. Pairs are ordered by the
/// left slot, then by the right one.
#[derive(Clone, Copy, Debug, PartialEq, Eq, PartialOrd, Ord, Hash)]
pub struct Pair {
    pub left: usize,
    pub right: usize,
}

impl Copied for Pair {
    fn copy(&self, _alloc: Global) -> Result<Pair, AllocError> {
        Ok(*self)
    }
}

/// Pairs in order.
pub type Pairs = Sequence<Pair>;
