//! A total order of forests, and their equality.
ghost use Rattle.std.specs.Prelude.{◌≡◌, List, IsTrue, ◌↔◌};
ghost use Rattle.std.specs.Cmp.Lexicographic.{slice_cmp};

use crate::model::{Forest, Node};
use std::cmp::Ordering;

/// Compares node by node, texts before elements; a forest comes behind each of its beginnings.
pub fn order(a: &Forest, b: &Forest) -> Ordering
    ensures { result ≡ slice_cmp ⟦<Node as Ord>⟧.cmp a.now b.now }
{
    a.cmp(b)
}

/// Whether the two forests are equal.
pub fn is_same(a: &Forest, b: &Forest) -> bool
    ensures { IsTrue result ↔ (a.now ≡ b.now) }
{
    a == b
}
