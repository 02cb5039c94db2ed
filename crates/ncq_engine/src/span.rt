//! Where a notice stands in the output.
use ncq_base::{Bytes, Sequence};

/// The place of one notice in the output that the last answer was appended to.
#[derive(Debug, Drop, PartialEq, Eq)]
pub struct Span {
    /// The name of the subscription that it tells.
    pub name: Bytes,
    /// The place of its first byte.
    pub from: usize,
    /// The place behind its last byte.
    pub to: usize,
}

/// The places of notices, in order.
pub type Spans = Sequence<Span>;
