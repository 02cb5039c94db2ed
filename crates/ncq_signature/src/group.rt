//! What a report says of a group.
use ncq_base::{Bytes, Sequence};

/// The text of a group's signature, and how many constants the group has. Lines are ordered by the
/// bytes of the text, then by the number of constants.
#[derive(Debug, PartialEq, Eq, PartialOrd, Ord, Drop)]
pub struct GroupLine {
    pub text: Bytes,
    pub constants: u64,
}

/// Groups, in the order of the report.
pub type GroupLines = Sequence<GroupLine>;
