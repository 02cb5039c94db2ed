//! The numbers of a file's inputs.

/// The numbers of the files that a file reads: a scan reads none, a selection one, a join that of
/// its left and that of its right.
#[derive(Clone, Copy, Debug)]
pub enum Inputs {
    Nothing,
    One(u64),
    Two(u64, u64),
}
