//! How far a table was at some moment.

/// The change up to which the files stood, and the number that the next new file was to get.
#[derive(Debug, Drop)]
pub struct GroupMark {
    pub number: u64,
    pub next_file: u64,
}
