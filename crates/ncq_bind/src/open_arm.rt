//! Arms of which nothing is asked yet.
use ncq_base::{Bytes, Sequence, Shared};
use ncq_row::Shape;

/// An arm by its source, its shape and its slots: those of the whole query from the offset on, as
/// many as the width.
#[derive(Drop)]
pub struct OpenArm {
    pub source: Bytes,
    pub shape: Shared<Shape>,
    pub offset: usize,
    pub width: usize,
}

/// Arms in reading order.
pub type OpenArms = Sequence<OpenArm>;
