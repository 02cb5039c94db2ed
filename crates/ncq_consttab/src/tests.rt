//! Files of constants, by values worked out by hand.
ghost use Rattle.std.specs.Prelude.{◌<◌};

use crate::tree::{Tree, lone};
use crate::{EqTable, RangeTable};
use ncq_base::{Atom, End, FileId, Interval, bytes_of, in_interval};
use std::alloc::{AllocError, Global};
use std::hash::RandomState;
use std::process::Abort;
use std::test::Fail;

/// The intervals of the files 1, 2, 3 and so on. An end that is not there is `-`.
const INTERVALS: &[(char, i128, i128, char)] = &[
    ('(', 10, 20, ']'),
    ('[', 15, 0, '-'),
    // The ends at one number: only where both are included it is in the interval.
    ('[', 10, 10, ']'),
    ('[', 10, 10, ')'),
    ('(', 10, 10, ']'),
    ('(', 10, 10, ')'),
    // One end alone, and none.
    ('-', 0, 10, ')'),
    ('-', 0, 10, ']'),
    ('-', 0, 0, '-'),
    // Nothing lies between these.
    ('(', 20, 10, ')'),
    ('[', 20, 10, ']'),
];

/// A value, and the files that take it.
const TAKERS: &[(i128, &[u64])] = &[
    (-9, &[7, 8, 9]),
    (9, &[7, 8, 9]),
    (10, &[3, 8, 9]),
    (11, &[1, 9]),
    (15, &[1, 2, 9]),
    (20, &[1, 2, 9]),
    (21, &[2, 9]),
];

/// And with the first two intervals alone.
const FEWER: &[(i128, &[u64])] = &[(10, &[]), (15, &[1, 2]), (20, &[1, 2]), (21, &[2])];

fn end(mark: char, n: i128) -> End {
    match mark {
        '[' | ']' => End::Included(n),
        '(' | ')' => End::Excluded(n),
        _ => End::Unbounded,
    }
}

fn interval(row: (char, i128, i128, char)) -> Interval {
    Interval {
        low: end(row.0, row.1),
        high: end(row.3, row.2),
    }
}

/// Adds the interval, where it is not there.
fn put(table: &mut RangeTable, interval: Interval, file: u64) -> Result<(), AllocError> {
    if table.find(&interval).is_some() {
        return Ok(());
    }
    table.insert(interval, FileId(file))
}

/// Whether these are the files.
fn are_files(files: &[FileId], want: &[u64]) -> bool {
    if files.len() != want.len() {
        return false;
    }
    for i in 0..want.len() {
        if files[i].0 != want[i] {
            return false;
        }
    }
    true
}

/// Whether these are the files that take the value.
fn are_takers(
    alloc: Global,
    table: &RangeTable,
    value: &Atom,
    want: &[u64],
) -> Result<bool, AllocError> {
    let files = table.takers(alloc, value)?;
    Ok(are_files(files.as_slice(), want))
}

/// The files of each row take its number.
fn expect_takers(
    rt: &impl Abort,
    alloc: Global,
    table: &RangeTable,
    rows: &[(i128, &[u64])],
) -> Result<(), AllocError> {
    for (n, want) in rows {
        assert!(rt; are_takers(alloc, table, &Atom::Num(*n), want)?, "{n}");
    }
    Ok(())
}

/// Whether no file takes the text.
fn takes_no_text(alloc: Global, table: &RangeTable, text: &[u8]) -> Result<bool, AllocError> {
    let text = text_atom(alloc, text)?;
    are_takers(alloc, table, &text, &[])
}

fn text_atom(alloc: Global, text: &[u8]) -> Result<Atom, AllocError> {
    let text = bytes_of(alloc, text)?;
    Ok(Atom::Text(text))
}

/// The table of all the intervals, the last one first.
fn table(alloc: Global, seed: RandomState) -> Result<RangeTable, AllocError> {
    let mut table = RangeTable::new(alloc, seed);
    let mut file = INTERVALS.len() as u64;
    for row in INTERVALS.iter().rev() {
        put(&mut table, interval(*row), file)?;
        file = file.saturating_sub(1);
    }
    Ok(table)
}

/// Takes the intervals away, and each a second time: it is there once.
fn expect_removed(rt: &impl Abort, table: &mut RangeTable, rows: &[(char, i128, i128, char)]) {
    for row in rows {
        assert!(rt; table.remove(&interval(*row)).is_some());
        assert!(rt; table.remove(&interval(*row)).is_none());
    }
}

fn expect_intervals(
    rt: &impl Abort,
    alloc: Global,
    table: &mut RangeTable,
) -> Result<(), AllocError> {
    assert!(rt; table.len() == 11);
    expect_takers(rt, alloc, table, TAKERS)?;
    expect_removed(rt, table, &INTERVALS[2..]);
    assert!(rt; table.len() == 2);
    expect_takers(rt, alloc, table, FEWER)?;
    assert!(rt; takes_no_text(alloc, table, b"15")?);
    Ok(())
}

#[test]
fn an_interval_takes_the_numbers_between_its_ends(rt: HostRuntime) -> Result<(), Fail> {
    let mut table = table(rt.alloc(), RandomState::new(&rt)?)?;
    expect_intervals(&rt, rt.alloc(), &mut table)?;
    Ok(())
}

/// The file of a number.
fn file_of(table: &EqTable, n: i128) -> Option<FileId> {
    table.find(&Atom::Num(n))
}

/// The file of a text.
fn file_of_text(alloc: Global, table: &EqTable, text: &[u8]) -> Result<Option<FileId>, AllocError> {
    let text = text_atom(alloc, text)?;
    Ok(table.find(&text))
}

/// Adds the number, where it is not there.
fn put_number(table: &mut EqTable, n: i128, file: u64) -> Result<(), AllocError> {
    if table.find(&Atom::Num(n)).is_some() {
        return Ok(());
    }
    table.insert(Atom::Num(n), FileId(file))
}

/// Takes the number away: the file that it had.
fn take_number(table: &mut EqTable, n: i128) -> Option<FileId> {
    table.remove(&Atom::Num(n))
}

/// Takes the text away: the file that it had.
fn take_text(
    alloc: Global,
    table: &mut EqTable,
    text: &[u8],
) -> Result<Option<FileId>, AllocError> {
    let text = text_atom(alloc, text)?;
    Ok(table.remove(&text))
}

fn expect_atoms(rt: &impl Abort, alloc: Global, table: &mut EqTable) -> Result<(), AllocError> {
    assert!(rt; file_of(table, 100).is_none());
    assert!(rt; file_of_text(alloc, table, b"100 ")?.is_none());
    put_number(table, 100, 7)?;
    assert!(rt; file_of(table, 100) == Some(FileId(7)) && table.len() == 1);
    assert!(rt; file_of_text(alloc, table, b"100 ")?.is_none());
    assert!(rt; take_text(alloc, table, b"100 ")?.is_none());
    assert!(rt; table.len() == 1);
    assert!(rt; take_number(table, 100) == Some(FileId(7)));
    assert!(rt; file_of(table, 100).is_none() && table.len() == 0);
    Ok(())
}

#[test]
fn an_atom_has_the_file_that_it_was_put_in_with(rt: HostRuntime) -> Result<(), Fail> {
    let mut table = EqTable::new(rt.alloc(), RandomState::new(&rt)?)?;
    expect_atoms(&rt, rt.alloc(), &mut table)?;
    Ok(())
}

/// How many of the intervals hold the value.
fn count(intervals: &[Interval], value: &Atom) -> usize {
    let mut count: usize = 0;
    for interval in intervals {
        if in_interval(interval, value) {
            count = count.saturating_add(1);
        }
    }
    count
}

/// Whether of the value the table tells as many files as the intervals that hold it.
fn is_told(
    alloc: Global,
    table: &RangeTable,
    intervals: &[Interval],
    value: &Atom,
) -> Result<bool, AllocError> {
    let files = table.takers(alloc, value)?;
    Ok(files.len() == count(intervals, value))
}

/// Whether of each value up to 1,100 the table tells as many files as the intervals that hold it.
fn are_told(alloc: Global, table: &RangeTable, intervals: &[Interval]) -> Result<bool, AllocError> {
    for n in 0..1100u32 {
        if !is_told(alloc, table, intervals, &Atom::Num(n as i128))? {
            return Ok(false);
        }
    }
    Ok(true)
}

/// One of a thousand intervals, in no order.
fn mixed(i: u32) -> Interval
    requires { i < 1000 }
{
    let low = (i * 389 % 997) as i128;
    Interval {
        low: End::Included(low),
        high: End::Excluded(low + (i % 50) as i128),
    }
}

/// The table of the thousand.
fn filled(alloc: Global, seed: RandomState) -> Result<RangeTable, AllocError> {
    let mut table = RangeTable::new(alloc, seed);
    for i in 0..1000u32 {
        put(&mut table, mixed(i), i as u64)?;
    }
    Ok(table)
}

/// Each third of the thousand, or each of them.
fn listed(alloc: Global, thirds: bool) -> Result<Vec<Interval>, AllocError> {
    let mut list = Vec::new(alloc);
    for i in 0..1000u32 {
        if !thirds || i % 3 == 0 {
            list.push(mixed(i))?;
        }
    }
    Ok(list)
}

/// Whether the table tells what the list tells.
fn is_told_as_listed(alloc: Global, table: &RangeTable, thirds: bool) -> Result<bool, AllocError> {
    let list = listed(alloc, thirds)?;
    are_told(alloc, table, list.as_slice())
}

/// Leaves each third in the table. Whether each of the others was there with its file.
fn thin_out(table: &mut RangeTable) -> bool {
    for i in 0..1000u32 {
        if i % 3 != 0 && table.remove(&mixed(i)) != Some(FileId(i as u64)) {
            return false;
        }
    }
    true
}

fn expect_thousand(
    rt: &impl Abort,
    alloc: Global,
    table: &mut RangeTable,
) -> Result<(), AllocError> {
    assert!(rt; table.len() == 1000);
    assert!(rt; is_told_as_listed(alloc, table, false)?);
    assert!(rt; thin_out(table));
    assert!(rt; table.len() == 334);
    assert!(rt; is_told_as_listed(alloc, table, true)?);
    Ok(())
}

#[test]
fn a_thousand_intervals_are_told_as_a_plain_list_tells_them(rt: HostRuntime) -> Result<(), Fail> {
    let mut table = filled(rt.alloc(), RandomState::new(&rt)?)?;
    expect_thousand(&rt, rt.alloc(), &mut table)?;
    Ok(())
}

/// An interval of a thousand: in rising order, in falling order, in none, and with one low end.
fn ordered(order: u32, i: u32) -> Interval
    requires { i < 1000 }
{
    match order {
        0 => interval(('[', i as i128, 9, ']')),
        1 => interval(('[', -(i as i128), 9, ']')),
        2 => mixed(i),
        _ => interval(('-', 0, i as i128, ')')),
    }
}

/// The tree of a thousand.
fn grown(alloc: Global, order: u32) -> Result<Tree, AllocError> {
    let mut tree = Tree::new();
    for i in 0..1000u32 {
        tree = tree.with(lone(alloc, ordered(order, i), FileId(i as u64))?);
    }
    Ok(tree)
}

/// The tree without the first 900.
fn cut(tree: Tree, order: u32) -> Tree {
    let mut left = tree;
    for i in 0..900u32 {
        let (_, rest) = left.without(&(ordered(order, i), FileId(i as u64)));
        left = rest;
    }
    left
}

/// How many levels a tree of a thousand has, and how many it has without the first 900.
fn levels(alloc: Global, order: u32) -> Result<(u64, u64), AllocError> {
    let tree = grown(alloc, order)?;
    let whole = tree.height();
    Ok((whole, cut(tree, order).height()))
}

#[test]
fn a_tree_of_a_thousand_has_at_most_14_levels(rt: HostRuntime) -> Result<(), Fail> {
    for order in 0..4u32 {
        let (whole, rest) = levels(rt.alloc(), order)?;
        assert!(rt;
            10 <= whole && whole <= 14 && 7 <= rest && rest <= 9,
            "{order}"
        );
    }
    Ok(())
}
