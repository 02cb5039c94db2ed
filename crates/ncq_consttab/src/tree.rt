//! Intervals with their files in a tree that skips what cannot hold a value.
ghost use Rattle.std.specs.Prelude.{◌≡◌, ◌++◌, ◌∷◌, [], cond};
ghost use Rattle.std.specs.Prelude.{IfOk, IfSome, IfNone, OnOk};
ghost use Rattle.std.specs.List.{list_any};
ghost use Rattle.ncq_base.specs.Counts.{SameCounts};
ghost use Rattle.ncq_base.specs.Intervals.{in_interval};
ghost use Rattle.ncq_consttab.specs.Ranges.{holders};
ghost use Rattle.ncq_consttab.specs.Trees.{fork_entries, node_entries, IsSpanned, IsWithin, Spans};
ghost use Rattle.ncq_consttab.specs.Trees.{IsTaken, is_entry};

use crate::hull::hull;
use ncq_base::{Atom, End, FileId, Interval, in_interval};
use std::alloc::{AllocError, Global};
use std::marker::Model;
use std::mem;

/// Intervals with their files, the lesser low end first, and at one low end the lesser high end.
#[cycle(tree)]
#[derive(Drop)]
pub(crate) struct Tree {
    node: Node,
}

#[cycle(tree)]
#[derive(Drop)]
pub(crate) enum Node {
    Leaf,
    Inner(Box<Fork>),
}

/// An interval with its file between those before and those behind, with the height of the tree,
/// and an interval round all of its intervals.
#[cycle(tree)]
#[derive(Drop)]
pub(crate) struct Fork {
    pub(crate) left: Tree,
    pub(crate) entry: (Interval, FileId),
    pub(crate) right: Tree,
    pub(crate) span: Interval,
    pub(crate) height: u64,
}

impl Model for Tree {
    ghost use Rattle.std.specs.Prelude.{List, length};
    ghost use Rattle.std.specs.Coded.{coded_list, coded×};
    ghost use Rattle.ncq_base.specs.declared.atom.FileId.{FileId};
    ghost use Rattle.ncq_base.specs.declared.interval.Interval.{Interval};
    ghost use Rattle.ncq_base.specs.contracts.atom.FileId.{the_row as file_row};
    ghost use Rattle.ncq_base.specs.contracts.interval.Interval.{the_row as interval_row};

    ghost Value = { List (Interval × FileId) };

    ghost coded = { coded_list (coded× interval_row.coded file_row.coded) };

    ghost use Rattle.ncq_consttab.specs.Trees.{node_entries, IsSpanned};

    ghost view = { λ t. node_entries t.node };

    ghost invariant = { λ t. IsSpanned t.node };

    ghost size = { length };

    ghost use Rattle.ncq_consttab.specs.TreeFalls.{depth_of_node};

    ghost size_decreases = { λ t h. depth_of_node t.node };
}

impl Tree {
    pub(crate) fn new() -> Tree
        ensures { result ≡ [] }
    {
        Tree { node: Node::Leaf }
    }

    /// The tree itself; nothing is left of it.
    pub(crate) fn take(&mut self) -> Tree
        ensures tree { result ≡ self.old }
        ensures rest { self.new ≡ [] }
    {
        mem::replace(self, Tree::new())
    }

    /// How many levels the tree has.
    pub(crate) fn height(&self) -> u64 {
        match &self.node {
            Node::Leaf => 0,
            Node::Inner(fork) => fork.height,
        }
    }

    /// An interval round this one and all in the tree.
    fn span_with(&self, own: Interval) -> Interval
        ensures own { IsWithin own result }
        ensures all { Spans result self.now }
    {
        match &self.node {
            Node::Leaf => own,
            Node::Inner(fork) => hull(own, fork.span),
        }
    }

    /// Adds the files of the intervals that hold the value, in the tree's order.
    pub(crate) fn push_takers(
        &self,
        value: &Atom,
        found: &mut Vec<FileId>,
    ) -> Result<(), AllocError>
        ensures { OnOk result (found.new.items ≡ found.old.items ++ holders value.now self.now) }
    {
        let Node::Inner(fork) = &self.node else {
            return Ok(());
        };
        if !in_interval(&fork.span, value) {
            return Ok(());
        }
        fork.left.push_takers(value, found)?;
        push_if(found, fork.entry.1, in_interval(&fork.entry.0, value))?;
        fork.right.push_takers(value, found)
    }

    /// Whether some interval holds the value. It takes no memory.
    pub(crate) fn holds(&self, value: &Atom) -> bool
        ensures { result ≡ list_any (λ e. in_interval e.0 value.now) self.now }
    {
        let Node::Inner(fork) = &self.node else {
            return false;
        };
        if !in_interval(&fork.span, value) {
            return false;
        }
        in_interval(&fork.entry.0, value) || fork.left.holds(value) || fork.right.holds(value)
    }

    /// The tree with one entry more, which comes as a fork of its own.
    pub(crate) fn with(self, more: Box<Fork>) -> Tree
        requires left { more.value.left ≡ [] }
        requires right { more.value.right ≡ [] }
        ensures { SameCounts result (more.value.entry ∷ self) }
    {
        let Node::Inner(mut fork) = self.node else {
            return closed(more);
        };
        if is_before(&more.entry, &fork.entry) {
            fork.left = fork.left.take().with(more);
            return balanced(fork);
        }
        fork.right = fork.right.take().with(more);
        balanced(fork)
    }

    /// The tree without the entry, and whether it was there. It is looked for first where the order
    /// has it.
    pub(crate) fn without(self, entry: &(Interval, FileId)) -> (bool, Tree)
        ensures { IsTaken result.0 entry.now self result.1 }
    {
        let Node::Inner(mut fork) = self.node else {
            return (false, Tree::new());
        };
        if is_entry(&fork.entry, entry) {
            return (true, joined(fork));
        }
        if is_before(entry, &fork.entry) {
            let (found, left) = fork.left.take().without(entry);
            fork.left = left;
            if found {
                return (true, balanced(fork));
            }
            let (found, right) = fork.right.take().without(entry);
            fork.right = right;
            return (found, balanced(fork));
        }
        let (found, right) = fork.right.take().without(entry);
        fork.right = right;
        if found {
            return (true, balanced(fork));
        }
        let (found, left) = fork.left.take().without(entry);
        fork.left = left;
        (found, balanced(fork))
    }

    /// The first entry, and the tree without it.
    fn split_first(self) -> Option<((Interval, FileId), Tree)>
        ensures some { IfSome result (λ p. self ≡ p.0 ∷ p.1) }
        ensures none { IfNone result (self ≡ []) }
    {
        let Node::Inner(mut fork) = self.node else {
            return None;
        };
        match fork.left.take().split_first() {
            None => Some((fork.entry, fork.right.take())),
            Some((first, rest)) => {
                fork.left = rest;
                Some((first, balanced(fork)))
            }
        }
    }
}

/// A fork of one entry.
pub(crate) fn lone(alloc: Global, interval: Interval, file: FileId) -> Result<Box<Fork>, AllocError>
    ensures left { IfOk result (λ fork. fork.value.left ≡ []) }
    ensures entry { IfOk result (λ fork. fork.value.entry ≡ (interval, file)) }
    ensures right { IfOk result (λ fork. fork.value.right ≡ []) }
{
    let fork = Fork {
        left: Tree::new(),
        entry: (interval, file),
        right: Tree::new(),
        span: interval,
        height: 1,
    };
    Ok(Box::new(alloc, fork)?)
}

/// Adds the file, where it is wanted.
fn push_if(found: &mut Vec<FileId>, file: FileId, wanted: bool) -> Result<(), AllocError>
    ensures { OnOk result (found.new.items ≡ found.old.items ++ cond wanted (file ∷ []) []) }
{
    if wanted {
        found.push(file)?;
    }
    Ok(())
}

/// The two sides of a fork without its entry.
fn joined(mut fork: Box<Fork>) -> Tree
    ensures { result ≡ fork.value.left ++ fork.value.right }
{
    match fork.right.take().split_first() {
        None => fork.left.take(),
        Some((first, rest)) => {
            fork.entry = first;
            fork.right = rest;
            balanced(fork)
        }
    }
}

/// The tree of the fork, with the span and the height that its sides make.
fn closed(mut fork: Box<Fork>) -> Tree
    ensures { result ≡ fork_entries fork.value }
{
    fork.span = fork.left.span_with(fork.right.span_with(fork.entry.0));
    fork.height = fork
        .left
        .height()
        .max(fork.right.height())
        .saturating_add(1);
    Tree {
        node: Node::Inner(fork),
    }
}

/// The tree of the fork, turned where one side is two levels higher than the other.
fn balanced(mut fork: Box<Fork>) -> Tree
    ensures { result ≡ fork_entries fork.value }
{
    let (left, right) = (fork.left.height(), fork.right.height());
    if left > right.saturating_add(1) {
        fork.left = leaning_left(fork.left.take());
        return turned_right(fork);
    }
    if right > left.saturating_add(1) {
        fork.right = leaning_right(fork.right.take());
        return turned_left(fork);
    }
    closed(fork)
}

/// The tree, turned where its right side is the higher one.
fn leaning_left(tree: Tree) -> Tree
    ensures { result ≡ tree }
{
    let Node::Inner(fork) = tree.node else {
        return Tree::new();
    };
    if fork.left.height() < fork.right.height() {
        return turned_left(fork);
    }
    closed(fork)
}

/// The tree, turned where its left side is the higher one.
fn leaning_right(tree: Tree) -> Tree
    ensures { result ≡ tree }
{
    let Node::Inner(fork) = tree.node else {
        return Tree::new();
    };
    if fork.right.height() < fork.left.height() {
        return turned_right(fork);
    }
    closed(fork)
}

/// The tree of the fork, with its left side's entry on top.
fn turned_right(mut fork: Box<Fork>) -> Tree
    ensures { result ≡ fork_entries fork.value }
{
    let Node::Inner(mut top) = fork.left.take().node else {
        return closed(fork);
    };
    fork.left = top.right.take();
    top.right = closed(fork);
    closed(top)
}

/// The tree of the fork, with its right side's entry on top.
fn turned_left(mut fork: Box<Fork>) -> Tree
    ensures { result ≡ fork_entries fork.value }
{
    let Node::Inner(mut top) = fork.right.take().node else {
        return closed(fork);
    };
    fork.right = top.left.take();
    top.left = closed(fork);
    closed(top)
}

/// Whether the two are one interval with one file.
fn is_entry(a: &(Interval, FileId), b: &(Interval, FileId)) -> bool
    ensures { result ≡ is_entry a.now b.now }
{
    a.0 == b.0 && a.1 == b.1
}

/// Whether the first comes before the second: by the low ends, the high ends and the files.
fn is_before(a: &(Interval, FileId), b: &(Interval, FileId)) -> bool {
    rank(a) < rank(b)
}

/// Numbers that are ordered as the entries are: each end as a number, and its place beside those
/// at the same number.
fn rank(entry: &(Interval, FileId)) -> (i128, u8, i128, u8, u64) {
    let (low, behind) = match entry.0.low {
        End::Unbounded => (i128::MIN, 0),
        End::Included(n) => (n, 1),
        End::Excluded(n) => (n, 2),
    };
    let (high, before) = match entry.0.high {
        End::Excluded(n) => (n, 0),
        End::Included(n) => (n, 1),
        End::Unbounded => (i128::MAX, 2),
    };
    (low, behind, high, before, entry.1.0)
}
