//! Changes that are fed to a table of shared files, and a file that is compacted after each.
//!
//! `feed` and `compact` of a table succeed only where those of the counted shelf, of the shelf and
//! of its files do, and what they call: all of them have ample memory here.
ghost use Rattle.std.specs.Prelude.{◌≡◌, ◌<◌, IfOk, OnOk};
ghost use Rattle.ncq_plan.specs.WellFormed.{IsWellFormed};
ghost use Rattle.ncq_feed.specs.Feeds.{IsPreparedFrom};
ghost use Rattle.ncq_shelf.specs.Stands.{IsThere};
ghost use Rattle.ncq_source.specs.StoreStates.{AreDeclared};
ghost use Rattle.ncq_tests_group.specs.Tables.{StandsFor};

use super::queries::sources;
use ncq_base::{FileId, Lines, Steps, bytes_of, is_line};
use ncq_bind::bind;
use ncq_flat::{Items, read_flat_block};
use ncq_group::GroupTable;
use ncq_plan::{NormalQuery, Predicates, plan};
use ncq_source::{Change, Section, Sections, Store};
use ncq_xmlql::parse_statement;
use std::alloc::Global;
use std::hash::RandomState;
use std::marker::Brand;
use std::process::Abort;
use std::sync::ledger::{Blank, Ledger};
use std::test::Fail;

/// The quotes of `INTC`, each with the companies of its area. Files get their numbers from the
/// left, inputs first: 0 has all quotes, 1 those of `INTC`, 2 the companies, 3 the pairs.
const JOINED: &str = "create j where \
    <Quotes><Quote><Symbol>INTC</><Area>$a</></></> in quotes, \
    <Companies><Company><Area>$a</></></> in companies construct <r/> do print";

/// The sections of a change, each a source and the lines of its items, parted by slashes; the files
/// that get rows, how many rows each file has left then, and the file that is compacted.
type Turn = (&'static [Asked], &'static [u64], [usize; 4], u64);

/// A source, and what is asked of it.
type Asked = (&'static str, &'static str);

/// One source after the other.
const TURNS: &[Turn] = &[
    // A quote of INTC comes; there is no company yet.
    (
        &[(
            "quotes",
            "(Quote/(Symbol/-INTC/)Symbol/(Area/-Chips/)Area/)Quote",
        )],
        &[0, 1],
        [1, 1, 0, 0],
        1,
    ),
    // Two companies come; the first has the area of the quote.
    (
        &[(
            "companies",
            "(Company/(Symbol/-A/)Symbol/(Area/-Chips/)Area/)Company/\
             (Company/(Symbol/-B/)Symbol/(Area/-Code/)Area/)Company",
        )],
        &[2, 3],
        [1, 1, 2, 1],
        3,
    ),
    // Another quote is none of INTC.
    (
        &[(
            "quotes",
            "(Quote/(Symbol/-MSFT/)Symbol/(Area/-Code/)Area/)Quote",
        )],
        &[0],
        [2, 1, 2, 1],
        0,
    ),
    // The quote of INTC goes, and its pair with it.
    (&[("quotes", "!INTC")], &[0, 1, 3], [1, 0, 2, 0], 3),
];

/// Both sources at once: each pair comes once and goes once.
const TOGETHER: &[Turn] = &[
    // A quote of INTC comes, and two companies; the first has the area of the quote.
    (
        &[
            (
                "quotes",
                "(Quote/(Symbol/-INTC/)Symbol/(Area/-Chips/)Area/)Quote",
            ),
            (
                "companies",
                "(Company/(Symbol/-A/)Symbol/(Area/-Chips/)Area/)Company/\
                 (Company/(Symbol/-B/)Symbol/(Area/-Code/)Area/)Company",
            ),
        ],
        &[0, 1, 2, 3],
        [1, 1, 2, 1],
        1,
    ),
    // INTC moves to the area of B, A goes, and C comes there: the pair with A goes, and those with
    // B and C come. The second section of the quotes brings one that is none of INTC.
    (
        &[
            (
                "quotes",
                "(Quote/(Symbol/-INTC/)Symbol/(Area/-Code/)Area/)Quote",
            ),
            (
                "companies",
                "!A/(Company/(Symbol/-C/)Symbol/(Area/-Code/)Area/)Company",
            ),
            (
                "quotes",
                "(Quote/(Symbol/-MSFT/)Symbol/(Area/-Code/)Area/)Quote",
            ),
        ],
        &[0, 1, 2, 3],
        [2, 1, 2, 2],
        3,
    ),
    // The companies of both pairs go, and so does the quote.
    (
        &[("companies", "!B/!C"), ("quotes", "!INTC")],
        &[0, 1, 2, 3],
        [1, 0, 0, 0],
        2,
    ),
];

/// The items that the lines, parted by slashes, spell.
fn items_of(rt: &impl Abort, alloc: Global, text: &str) -> Result<Items, Fail> {
    let mut lines = Lines::new(alloc);
    for line in text.split('/') {
        assert!(rt; is_line(line.as_bytes()));
        lines.push(line.as_bytes())?;
    }
    Ok(read_flat_block(alloc, &lines)?)
}

/// The sections that are asked.
fn sections_of(rt: &impl Abort, alloc: Global, asked: &[Asked]) -> Result<Sections, Fail> {
    let mut sections = Sections::new(alloc);
    for (source, text) in asked {
        let source = bytes_of(alloc, source.as_bytes())?;
        let items = items_of(rt, alloc, text)?;
        sections.push(Section { source, items })?;
    }
    Ok(sections)
}

/// The change that the sections ask for.
fn change_of(rt: &impl Abort, alloc: Global, store: &Store, asked: &[Asked]) -> Result<Change, Fail>
    ensures prepared { IfOk result (IsPreparedFrom store.now) }
    ensures declared { IfOk result (AreDeclared store.now) }
{
    let sections = sections_of(rt, alloc, asked)?;
    Ok(store.prepare(alloc, &sections)?)
}

/// The normal query of a statement.
fn query_of(alloc: Global, store: &Store, text: &str) -> Result<NormalQuery, Fail>
    ensures { IfOk result IsWellFormed }
{
    let statement = parse_statement(alloc, text.as_bytes())?;
    let predicates = Predicates::new(alloc);
    Ok(bind(alloc, &statement, store, &predicates)?)
}

/// The store has no change yet.
fn expect_start(rt: &impl Abort, store: &Store)
    ensures { store.now.changes ≡ 0 }
{
    assert!(rt; store.changes() == 0);
}

/// The store has few changes.
fn expect_few(rt: &impl Abort, store: &Store)
    ensures { store.now.changes < 100 }
{
    assert!(rt; store.changes() < 100);
}

/// A table with the files of the statement's plan.
fn table_of<L: Ledger>(
    rt: &impl Abort,
    alloc: Global,
    seed: RandomState,
    store: &Store,
    text: &str,
    steps: &mut Steps<L>,
) -> Result<GroupTable, Fail>
    ensures { IfOk result (StandsFor store.now) }
{
    let query = query_of(alloc, store, text)?;
    let plan = plan(alloc, &query)?;
    let mut table = GroupTable::new(alloc, seed);
    expect_start(rt, store);
    let file = table.install(alloc, &plan, store, steps)?;
    assert!(rt; file == FileId(3));
    Ok(table)
}

/// Feeds the change and commits it; these files get rows.
fn feed<L: Ledger>(
    rt: &impl Abort,
    alloc: Global,
    table: &mut GroupTable,
    store: &mut Store,
    change: Change,
    named: &[u64],
    steps: &mut Steps<L>,
) -> Result<(), Fail>
    requires stands { StandsFor store.old table.old }
    requires prepared { IsPreparedFrom store.old change }
    requires declared { AreDeclared store.old change }
    ensures { OnOk result (StandsFor store.new table.new) }
{
    expect_few(rt, store);
    let fed = table.feed(alloc, &change, store, steps)?;
    assert!(rt; fed.as_slice() == named);
    store.reserve(&change)?;
    store.commit(change);
    Ok(())
}

/// The table has a file of this number.
fn expect_there(rt: &impl Abort, table: &GroupTable, store: &Store, file: u64)
    requires { StandsFor store.now table.now }
    ensures { IsThere table.now.files file }
{
    assert!(rt; file < table.next_file());
}

/// How many rows the file has left.
fn rows_left(
    rt: &impl Abort,
    alloc: Global,
    table: &GroupTable,
    store: &Store,
    file: u64,
) -> Result<usize, Fail>
    requires { StandsFor store.now table.now }
{
    expect_there(rt, table, store, file);
    table.facts();
    let left = table.file(FileId(file)).content_at(alloc, table.number())?;
    Ok(left.len())
}

/// Each file has as many rows left.
fn expect_rows(
    rt: &impl Abort,
    alloc: Global,
    table: &GroupTable,
    store: &Store,
    want: &[usize],
) -> Result<(), Fail>
    requires { StandsFor store.now table.now }
{
    for (file, count) in want.iter().enumerate() {
        let left = rows_left(rt, alloc, table, store, file as u64)?;
        assert_eq!(rt; left, *count, "file {file}");
    }
    Ok(())
}

/// Makes the last change the base of the file.
fn compact(
    rt: &impl Abort,
    alloc: Global,
    table: &mut GroupTable,
    store: &Store,
    file: u64,
) -> Result<(), Fail>
    requires { StandsFor store.now table.old }
    ensures { OnOk result (StandsFor store.now table.new) }
{
    expect_there(rt, table, store, file);
    table.facts();
    table.compact(alloc, FileId(file), table.number())?;
    Ok(())
}

/// The last change is the base of the file.
fn expect_base(rt: &impl Abort, table: &GroupTable, store: &Store, file: u64)
    requires { StandsFor store.now table.now }
{
    expect_there(rt, table, store, file);
    assert!(rt; table.file(FileId(file)).base() == table.number());
}

/// Feeds a change and compacts a file; both leave each file with as many rows as were worked out.
fn take_turn<L: Ledger>(
    rt: &impl Abort,
    alloc: Global,
    table: &mut GroupTable,
    store: &mut Store,
    turn: &Turn,
    steps: &mut Steps<L>,
) -> Result<(), Fail>
    requires { StandsFor store.old table.old }
    ensures { OnOk result (StandsFor store.new table.new) }
{
    let (asked, named, rows, file) = turn;
    let change = change_of(rt, alloc, store, asked)?;
    feed(rt, alloc, table, store, change, named, steps)?;
    expect_rows(rt, alloc, table, store, rows)?;
    compact(rt, alloc, table, store, *file)?;
    expect_base(rt, table, store, *file);
    expect_rows(rt, alloc, table, store, rows)?;
    Ok(())
}

/// Takes the turns one after the other.
fn take_each<L: Ledger>(
    rt: &impl Abort,
    alloc: Global,
    table: &mut GroupTable,
    store: &mut Store,
    turns: &[Turn],
    steps: &mut Steps<L>,
) -> Result<(), Fail>
    requires { StandsFor store.old table.old }
{
    for turn in turns {
        take_turn(rt, alloc, table, store, turn, steps)?;
    }
    let taken = turns.len() as u64;
    assert!(rt; store.changes() == taken && table.number() == taken);
    Ok(())
}

/// Takes the turns over a new table.
fn take_all<L: Ledger>(
    rt: &impl Abort,
    alloc: Global,
    seed: RandomState,
    store: &mut Store,
    turns: &[Turn],
    steps: &mut Steps<L>,
) -> Result<(), Fail> {
    let mut table = table_of(rt, alloc, seed, store, JOINED, steps)?;
    take_each(rt, alloc, &mut table, store, turns, steps)
}

/// Takes the turns over new sources.
fn take_turns<L: Ledger>(
    rt: &impl Abort,
    host: &HostRuntime,
    seed: RandomState,
    blank: Blank,
    turns: &[Turn],
) -> Result<(), Fail>
    requires name { blank.name ≡ L.name }
    requires parts { blank.parts ≡ L.parts }
    requires some { 0 < L.parts }
{
    let alloc = host.alloc();
    let mut steps = Steps::<L>::new(host, blank);
    let mut store = sources(alloc, seed)?;
    take_all(rt, alloc, seed, &mut store, turns, &mut steps)
}

#[test]
fn a_table_is_fed_and_compacted(rt: HostRuntime) -> Result<(), Fail> {
    take_turns::<Brand>(&rt, &rt, RandomState::new(&rt)?, Blank::new(1), TURNS)
}

#[test]
fn both_sides_of_a_join_are_fed_at_once(rt: HostRuntime) -> Result<(), Fail> {
    take_turns::<Brand>(&rt, &rt, RandomState::new(&rt)?, Blank::new(1), TOGETHER)
}
