ghost use Rattle.std.specs.Prelude.{◌≡◌, IsTrue, ◌↔◌};
ghost use Rattle.ncq_base.specs.Atoms.{compared, atom_cmp, holds_of};

use crate::bytes::Bytes;
use crate::sequence::Copied;
use std::alloc::{AllocError, Global};
use std::cmp::Ordering;

/// A number in millionths, or a text.
#[derive(Debug, PartialEq, Eq, PartialOrd, Ord, Hash)]
pub enum Atom {
    Num(i128),
    Text(Bytes),
}

impl Drop for Atom {
    fn drop(self) {
        match self {
            Atom::Num(_) => {}
            Atom::Text(text) => drop(text),
        }
    }
}

impl Copied for Atom {
    fn copy(&self, alloc: Global) -> Result<Atom, AllocError> {
        match self {
            Atom::Num(n) => Ok(Atom::Num(*n)),
            Atom::Text(text) => Ok(Atom::Text(text.copy(alloc)?)),
        }
    }
}

/// The number of a file.
#[derive(Clone, Copy, Debug, PartialEq, Eq, PartialOrd, Ord, Hash)]
pub struct FileId(pub u64);

/// A comparison of two atoms.
#[derive(Clone, Copy, Debug, PartialEq, Eq, PartialOrd, Ord, Hash)]
pub enum Op {
    Eq,
    Ne,
    Lt,
    Le,
    Gt,
    Ge,
}

/// Whether both are numbers of one value or both texts of the same bytes.
pub fn same(a: &Atom, b: &Atom) -> bool
    ensures { IsTrue result ↔ (a.now ≡ b.now) }
{
    a == b
}

/// None where the two are not both numbers.
pub fn compare(a: &Atom, b: &Atom) -> Option<Ordering>
    ensures { result ≡ compared a.now b.now }
{
    match (a, b) {
        (Atom::Num(m), Atom::Num(n)) => Some(m.cmp(n)),
        _ => None,
    }
}

/// Numbers before texts, numbers by value, texts by bytes.
pub fn total_order(a: &Atom, b: &Atom) -> Ordering
    ensures { result ≡ atom_cmp a.now b.now }
{
    a.cmp(b)
}

/// Whether the comparison holds of the two.
pub fn holds(op: Op, a: &Atom, b: &Atom) -> bool
    ensures { result ≡ holds_of op a.now b.now }
{
    match op {
        Op::Eq => a == b,
        Op::Ne => a != b,
        Op::Lt => compare(a, b).is_some_and(|o| o.is_lt()),
        Op::Le => compare(a, b).is_some_and(|o| o.is_le()),
        Op::Gt => compare(a, b).is_some_and(|o| o.is_gt()),
        Op::Ge => compare(a, b).is_some_and(|o| o.is_ge()),
    }
}
