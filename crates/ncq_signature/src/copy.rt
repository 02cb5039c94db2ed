//! Copies of signatures and of a report's lines.
use crate::group::GroupLine;
use crate::signature::{Signature, join_of};
use ncq_base::Copied;
use std::alloc::{AllocError, Global};

impl Copied for Signature {
    fn copy(&self, alloc: Global) -> Result<Signature, AllocError> {
        match self {
            Signature::Scan { source, shape } => Ok(Signature::Scan {
                source: source.copy(alloc)?,
                shape: shape.copy(alloc)?,
            }),
            Signature::EqOn { input, slot } => Ok(Signature::EqOn {
                input: input.copy(alloc)?,
                slot: *slot,
            }),
            Signature::RangeOn { input, slot } => Ok(Signature::RangeOn {
                input: input.copy(alloc)?,
                slot: *slot,
            }),
            Signature::JoinOf { left, right, pairs } => join_of(alloc, left, right, pairs),
        }
    }
}

impl Copied for GroupLine {
    fn copy(&self, alloc: Global) -> Result<GroupLine, AllocError> {
        Ok(GroupLine {
            text: self.text.copy(alloc)?,
            constants: self.constants,
        })
    }
}
