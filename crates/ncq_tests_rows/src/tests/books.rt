//! A book of a few subscriptions, by values worked out by hand.
ghost use Rattle.std.specs.Prelude.{◌≡◌, ◌<◌, ◌+◌, [], IfOk, OnOk};
ghost use Rattle.std.specs.List.{AllByRecursion};

use super::plans::{paired_quotes, priced_quotes};
use ncq_base::{Bytes, FileId, Sequence, Shared, bytes_of};
use ncq_book::{Book, Subscription};
use ncq_event::{Firings, Timing};
use ncq_plan::{Arms, Checks, Expr, NormalQuery, SlotTemplate, bare};
use ncq_strategy::Choice;
use std::alloc::{AllocError, Global};
use std::hash::RandomState;
use std::process::Abort;
use std::test::Fail;

/// More subscriptions than that are in no book.
const ROOM: usize = 9;

/// What subscriptions differ in: name; start, every, expiry; the number of the file; the slot that
/// their template gives.
type Row = (&'static str, (u64, u64, Option<u64>), u64, usize);

/// It fires from 10 on, each 10, and changes of its file do not matter.
const TIMER: Row = ("timer", (10, 10, None), 7, 0);

/// It fires at changes, up to 50.
const CHANGES: Row = ("changes", (0, 0, Some(50)), 9, 0);

/// It fires at changes from 30 on, up to 40.
const PENDING: Row = ("pending", (30, 0, Some(40)), 7, 0);

/// It fires at changes of the same file.
const SHARER: Row = ("sharer", (0, 0, None), 7, 0);

/// The last instant, and the last file.
const LAST: Row = (
    "last",
    (18446744073709551615, 0, Some(18446744073709551615)),
    18446744073709551615,
    0,
);

/// It asks by a template.
const ASKER: Row = ("asker", (0, 0, None), 7, 0);

/// It asks alike.
const LIKE: Row = ("like", (0, 0, None), 7, 0);

/// It asks by another template.
const OTHER: Row = ("other", (0, 0, None), 7, 1);

/// It asks as the other.
const LIKE_OTHER: Row = ("like other", (0, 0, None), 7, 1);

/// It asks by the first template, of another file.
const ELSEWHERE: Row = ("elsewhere", (0, 0, None), 9, 0);

/// Install numbers, and what is listed, in that order: install numbers and questions. Those that
/// ask alike, one behind the other, have one question. What is not there is not listed.
const LISTED: &[(&[u64], &[(u64, u64)])] = &[
    (&[], &[]),
    (&[1], &[(1, 1)]),
    (&[1, 2, 3, 4, 5], &[(1, 1), (2, 1), (3, 3), (4, 3), (5, 5)]),
    (&[2, 4, 5], &[(2, 1), (4, 3), (5, 5)]),
    (&[5, 4, 4, 1], &[(5, 5), (4, 3), (4, 3), (1, 1)]),
    (&[0, 2, 6], &[(2, 1)]),
];

/// And once the fourth was taken, and one came that asks as it did.
const LISTED_LATER: &[(&[u64], &[(u64, u64)])] = &[
    (
        &[1, 2, 3, 4, 5, 6],
        &[(1, 1), (2, 1), (3, 3), (5, 5), (6, 3)],
    ),
    (&[4, 6], &[(6, 3)]),
];

/// Files, and whether the last subscription watches one of them.
const LAST_WATCHERS: &[(&[u64], &[u64])] = &[
    (&[18446744073709551614], &[]),
    (&[18446744073709551615], &[18446744073709551615]),
    (
        &[18446744073709551614, 18446744073709551615],
        &[18446744073709551615],
    ),
];

/// The last firing of the last subscription.
const LAST_DUE: &[(u64, &[(u64, u64)])] = &[
    (18446744073709551614, &[]),
    (
        18446744073709551615,
        &[(18446744073709551615, 18446744073709551615)],
    ),
];

/// Files, and who watches one of them: install numbers rise whatever the order of the files, a file
/// that is named twice counts once, and the timer is not told.
const WATCHERS: &[(&[u64], &[u64])] = &[
    (&[7], &[3]),
    (&[9], &[2]),
    (&[7, 9], &[2, 3]),
    (&[9, 7], &[2, 3]),
    (&[9, 9], &[2]),
    (&[7, 9, 7], &[2, 3]),
    (&[8, 9], &[2]),
    (&[], &[]),
    (&[8], &[]),
    (&[0, 10], &[]),
    (&[18446744073709551615], &[]),
];

/// The instant that the clock is moved to, from 0, and who is due.
const DUE: &[(u64, &[(u64, u64)])] = &[
    (0, &[]),
    (9, &[]),
    (10, &[(10, 1)]),
    (29, &[(10, 1)]),
    (30, &[(10, 1), (30, 3)]),
];

/// And from 10.
const DUE_LATER: &[(u64, &[(u64, u64)])] = &[
    (10, &[]),
    (19, &[]),
    (20, &[(20, 1)]),
    (30, &[(20, 1), (30, 3)]),
];

/// An instant, and who has expired.
const EXPIRED: &[(u64, &[u64])] = &[
    (0, &[]),
    (40, &[]),
    (41, &[3]),
    (50, &[3]),
    (51, &[2, 3]),
    (18446744073709551615, &[2, 3]),
];

/// A query whose arms are not looked at.
fn any_query(alloc: Global, slot: usize) -> NormalQuery {
    NormalQuery {
        arms: Arms::new(alloc),
        residual: Checks::new(alloc),
        template: SlotTemplate::Slot(slot),
    }
}

/// The bare plan of two quotes of one price.
fn paired(alloc: Global) -> Result<Shared<Expr>, AllocError> {
    let query = paired_quotes(alloc)?;
    Shared::new(alloc, bare(alloc, &query)?)
}

/// The bare plan of quotes.
fn lone(alloc: Global) -> Result<Shared<Expr>, AllocError> {
    let query = priced_quotes(alloc)?;
    Shared::new(alloc, bare(alloc, &query)?)
}

/// A subscription of this name and install number, and else of the row. Its bare plan is that of
/// two quotes of one price.
fn subscription(
    alloc: Global,
    install: u64,
    name: Bytes,
    row: &Row,
) -> Result<Subscription, AllocError>
    ensures install { IfOk result (λ m. m.install ≡ install) }
    ensures name { IfOk result (λ m. m.name ≡ name) }
{
    let (_, (start, every, expire), file, slot) = *row;
    Ok(Subscription {
        name,
        sources: Sequence::new(alloc),
        query: any_query(alloc, slot),
        bare: paired(alloc)?,
        choice: Choice::SelectFirst,
        file: FileId(file),
        timing: Timing {
            start,
            every,
            expire,
        },
        action: 0,
        argument: Bytes::new(alloc),
        install,
        noted: None,
        distinct: false,
    })
}

/// Whether the subscription came in: its name was free, and there was room.
fn put(alloc: Global, book: &mut Book, install: u64, row: &Row) -> Result<bool, AllocError>
    requires { AllByRecursion (λ m. m.install < install) book.old.subscriptions }
    ensures { AllByRecursion (λ m. m.install < install + 1) book.new.subscriptions }
{
    let name = bytes_of(alloc, row.0.as_bytes())?;
    if book.has(&name) || book.len() > ROOM {
        return Ok(false);
    }
    let subscription = subscription(alloc, install, name, row)?;
    book.add(alloc, subscription)?;
    Ok(true)
}

/// Puts three subscriptions in, under 1, 2 and 3.
fn put_three(alloc: Global, book: &mut Book) -> Result<(), AllocError>
    requires { book.old.subscriptions ≡ [] }
    ensures { OnOk result (AllByRecursion (λ m. m.install < 4) book.new.subscriptions) }
{
    put(alloc, book, 1, &TIMER)?;
    put(alloc, book, 2, &CHANGES)?;
    put(alloc, book, 3, &PENDING)?;
    Ok(())
}

/// The three subscriptions.
fn three(alloc: Global, seed: RandomState) -> Result<Book, AllocError>
    ensures { IfOk result (λ book. AllByRecursion (λ m. m.install < 4) book.subscriptions) }
{
    let mut book = Book::new(alloc, seed);
    put_three(alloc, &mut book)?;
    Ok(book)
}

/// Whether the firings are those of these instants and install numbers.
fn are_firings(firings: &Firings, want: &[(u64, u64)]) -> bool {
    let told = firings.as_slice();
    if told.len() != want.len() {
        return false;
    }
    for i in 0..want.len() {
        if (told[i].instant, told[i].install) != want[i] {
            return false;
        }
    }
    true
}

/// Whether the files are watched by these.
fn are_watchers(
    alloc: Global,
    book: &Book,
    files: &[u64],
    want: &[u64],
) -> Result<bool, AllocError> {
    let told = book.watchers(alloc, files)?;
    Ok(told.as_slice() == want)
}

/// Whether these have expired at this instant.
fn are_expired(alloc: Global, book: &Book, at: u64, want: &[u64]) -> Result<bool, AllocError> {
    let told = book.expired(alloc, at)?;
    Ok(told.as_slice() == want)
}

/// Whether a move to this instant makes these due.
fn are_due(alloc: Global, book: &Book, to: u64, want: &[(u64, u64)]) -> Result<bool, AllocError> {
    let told = book.due(alloc, to)?;
    Ok(are_firings(&told, want))
}

/// What is noted of the subscription, where there is a subscription and a note.
fn note_of(book: &Book, install: u64) -> Option<u64> {
    let Some(subscription) = book.get(install) else {
        return None;
    };
    subscription.noted
}

/// The files of each row are watched by those of the row.
fn expect_watchers(
    rt: &impl Abort,
    alloc: Global,
    book: &Book,
    rows: &[(&[u64], &[u64])],
) -> Result<(), AllocError> {
    for (files, want) in rows {
        assert!(rt; are_watchers(alloc, book, files, want)?, "{files:?}");
    }
    Ok(())
}

/// At each instant of the rows those of its row have expired.
fn expect_expired(
    rt: &impl Abort,
    alloc: Global,
    book: &Book,
    rows: &[(u64, &[u64])],
) -> Result<(), AllocError> {
    for (at, want) in rows {
        assert!(rt; are_expired(alloc, book, *at, want)?, "{at}");
    }
    Ok(())
}

/// Moves to the instants of the rows make those of the row due.
fn expect_due(
    rt: &impl Abort,
    alloc: Global,
    book: &Book,
    rows: &[(u64, &[(u64, u64)])],
) -> Result<(), AllocError> {
    for (to, want) in rows {
        assert!(rt; are_due(alloc, book, *to, want)?, "{to}");
    }
    Ok(())
}

/// Whether a subscription has the name.
fn has(alloc: Global, book: &Book, name: &str) -> Result<bool, AllocError> {
    let name = bytes_of(alloc, name.as_bytes())?;
    Ok(book.has(&name))
}

/// Takes the subscription of the name away, and tells whether it was there.
fn take(alloc: Global, book: &mut Book, name: &str) -> Result<bool, AllocError>
    requires { AllByRecursion (λ m. m.install < 4) book.old.subscriptions }
    ensures { AllByRecursion (λ m. m.install < 4) book.new.subscriptions }
{
    let name = bytes_of(alloc, name.as_bytes())?;
    let Some(install) = book.find(&name) else {
        return Ok(false);
    };
    Ok(book.take(install).is_some())
}

fn expect_named(rt: &impl Abort, alloc: Global, book: &Book) -> Result<(), AllocError> {
    assert!(rt; book.len() == 3);
    assert!(rt; has(alloc, book, "pending")?);
    assert!(rt; !has(alloc, book, "time")?);
    assert!(rt; book.get(3).is_some() && book.get(4).is_none());
    Ok(())
}

fn expect_moved(rt: &impl Abort, alloc: Global, book: &mut Book) -> Result<(), AllocError> {
    expect_due(rt, alloc, book, DUE)?;
    assert!(rt; book.instant() <= 10);
    book.move_to(alloc, 10)?;
    assert!(rt; book.instant() == 10);
    expect_due(rt, alloc, book, DUE_LATER)
}

fn expect_noted(rt: &impl Abort, book: &mut Book) {
    book.note(2, 4);
    book.note(4, 9);
    assert!(rt; note_of(book, 1).is_none() && note_of(book, 3).is_none());
    assert!(rt; note_of(book, 2) == Some(4));
    book.note(2, 0);
    assert!(rt; note_of(book, 2) == Some(0));
    assert!(rt; book.len() == 3);
}

fn expect_gone(rt: &impl Abort, alloc: Global, book: &mut Book) -> Result<(), AllocError>
    requires { AllByRecursion (λ m. m.install < 4) book.old.subscriptions }
    ensures { OnOk result (AllByRecursion (λ m. m.install < 4) book.new.subscriptions) }
{
    assert!(rt; take(alloc, book, "changes")?);
    assert!(rt; !take(alloc, book, "changes")?);
    assert!(rt; book.len() == 2);
    expect_watchers(
        rt,
        alloc,
        book,
        &[(&[7], &[3]), (&[9, 7], &[3]), (&[9], &[])],
    )?;
    expect_expired(rt, alloc, book, &[(51, &[3])])
}

fn expect_new(rt: &impl Abort, alloc: Global, book: &mut Book) -> Result<(), AllocError>
    requires { AllByRecursion (λ m. m.install < 4) book.old.subscriptions }
{
    assert!(rt; put(alloc, book, 4, &CHANGES)?);
    assert!(rt; !put(alloc, book, 5, &CHANGES)?);
    assert!(rt; put(alloc, book, 6, &SHARER)?);
    expect_watchers(rt, alloc, book, &[(&[7], &[3, 6]), (&[9, 7], &[3, 4, 6])])
}

fn expect_removed(rt: &impl Abort, alloc: Global, book: &mut Book) -> Result<(), AllocError>
    requires { AllByRecursion (λ m. m.install < 4) book.old.subscriptions }
{
    expect_gone(rt, alloc, book)?;
    expect_new(rt, alloc, book)
}

/// Takes the subscription of the number away, and tells whether it was there.
fn is_taken(book: &mut Book, install: u64) -> bool {
    book.take(install).is_some()
}

fn expect_taken(rt: &impl Abort, book: &mut Book) {
    for install in &[4, 6, 1] {
        assert!(rt; is_taken(book, *install));
    }
    assert!(rt; !is_taken(book, 2));
}

fn expect_left(rt: &impl Abort, alloc: Global, book: &mut Book) -> Result<(), AllocError> {
    expect_taken(rt, book);
    assert!(rt; book.len() == 1 && book.get(3).is_some());
    expect_watchers(rt, alloc, book, &[(&[7, 9], &[3])])?;
    expect_due(rt, alloc, book, &[(99, &[(30, 3)])])
}

fn expect_last(rt: &impl Abort, alloc: Global, book: &mut Book) -> Result<(), AllocError>
    requires { book.old.subscriptions ≡ [] }
{
    assert!(rt; put(alloc, book, 18446744073709551615, &LAST)?);
    expect_watchers(rt, alloc, book, LAST_WATCHERS)?;
    expect_due(rt, alloc, book, LAST_DUE)?;
    expect_expired(rt, alloc, book, &[(18446744073709551615, &[])])
}

fn expect_found(rt: &impl Abort, alloc: Global, book: &mut Book) -> Result<(), AllocError> {
    expect_named(rt, alloc, book)?;
    expect_watchers(rt, alloc, book, WATCHERS)?;
    expect_expired(rt, alloc, book, EXPIRED)?;
    expect_moved(rt, alloc, book)?;
    expect_noted(rt, book);
    Ok(())
}

fn expect_fewer(rt: &impl Abort, alloc: Global, book: &mut Book) -> Result<(), AllocError>
    requires { AllByRecursion (λ m. m.install < 4) book.old.subscriptions }
{
    expect_removed(rt, alloc, book)?;
    expect_left(rt, alloc, book)
}

/// Whether so many subscriptions have the bare plan of two quotes of one price, and none that of
/// quotes.
fn are_alike(alloc: Global, book: &Book, want: u64) -> Result<bool, AllocError> {
    let paired = paired(alloc)?;
    let lone = lone(alloc)?;
    Ok(book.alike(&paired) == want && book.alike(&lone) == 0)
}

/// What stands below in the plan of this query, where its bare plan is that of two quotes of one
/// price.
fn choice(alloc: Global, book: &Book, query: &NormalQuery) -> Result<Choice, AllocError> {
    let (choice, _) = book.choose(query, paired(alloc)?)?;
    Ok(choice)
}

fn expect_choice(
    rt: &impl Abort,
    alloc: Global,
    book: &Book,
    query: &NormalQuery,
    want: Choice,
) -> Result<(), AllocError> {
    let told = choice(alloc, book, query)?;
    assert!(rt; told == want);
    Ok(())
}

/// All three have one bare plan, so the next query of two arms joins first, and one of one arm not.
/// When one of them is gone, nobody joins first.
fn expect_alike(rt: &impl Abort, alloc: Global, book: &mut Book) -> Result<(), AllocError> {
    let pairs = paired_quotes(alloc)?;
    let quotes = priced_quotes(alloc)?;
    assert!(rt; are_alike(alloc, book, 3)?);
    expect_choice(rt, alloc, book, &pairs, Choice::JoinFirst)?;
    expect_choice(rt, alloc, book, &quotes, Choice::SelectFirst)?;
    assert!(rt; is_taken(book, 2));
    assert!(rt; are_alike(alloc, book, 2)?);
    expect_choice(rt, alloc, book, &pairs, Choice::SelectFirst)
}

#[test]
fn subscriptions_of_one_bare_plan_are_counted(rt: HostRuntime) -> Result<(), Fail> {
    let seed = RandomState::new(&rt)?;
    let mut book = three(rt.alloc(), seed)?;
    expect_alike(&rt, rt.alloc(), &mut book)?;
    Ok(())
}

/// Puts five in, under 1 to 5.
fn put_askers(alloc: Global, book: &mut Book) -> Result<(), AllocError>
    requires { book.old.subscriptions ≡ [] }
    ensures { OnOk result (AllByRecursion (λ m. m.install < 6) book.new.subscriptions) }
{
    put(alloc, book, 1, &ASKER)?;
    put(alloc, book, 2, &LIKE)?;
    put(alloc, book, 3, &OTHER)?;
    put(alloc, book, 4, &LIKE_OTHER)?;
    put(alloc, book, 5, &ELSEWHERE)?;
    Ok(())
}

/// Takes the fourth away, and puts one in that asks as it did.
fn renew(alloc: Global, book: &mut Book) -> Result<bool, AllocError>
    requires { AllByRecursion (λ m. m.install < 6) book.old.subscriptions }
{
    let _taken = book.take(4);
    put(alloc, book, 6, &LIKE_OTHER)
}

/// Whether these are listed for the install numbers, by install number and question.
fn are_listed(
    alloc: Global,
    book: &Book,
    installs: &[u64],
    want: &[(u64, u64)],
) -> Result<bool, AllocError> {
    let list = book.listed(alloc, installs)?;
    let told = list.as_slice();
    if told.len() != want.len() {
        return Ok(false);
    }
    for i in 0..want.len() {
        if (told[i].subscription.install, told[i].question) != want[i] {
            return Ok(false);
        }
    }
    Ok(true)
}

/// For the install numbers of each row what is listed is that of the row.
fn expect_listed(
    rt: &impl Abort,
    alloc: Global,
    book: &Book,
    rows: &[(&[u64], &[(u64, u64)])],
) -> Result<(), AllocError> {
    for (installs, want) in rows {
        assert!(rt; are_listed(alloc, book, installs, want)?, "{installs:?}");
    }
    Ok(())
}

fn expect_askers(rt: &impl Abort, alloc: Global, book: &mut Book) -> Result<(), AllocError>
    requires { book.old.subscriptions ≡ [] }
{
    put_askers(alloc, book)?;
    expect_listed(rt, alloc, book, LISTED)?;
    assert!(rt; renew(alloc, book)?);
    expect_listed(rt, alloc, book, LISTED_LATER)
}

#[test]
fn those_that_ask_alike_are_listed_with_one_question(rt: HostRuntime) -> Result<(), Fail> {
    let seed = RandomState::new(&rt)?;
    let mut book = Book::new(rt.alloc(), seed);
    expect_askers(&rt, rt.alloc(), &mut book)?;
    Ok(())
}

#[test]
fn subscriptions_are_found(rt: HostRuntime) -> Result<(), Fail> {
    let seed = RandomState::new(&rt)?;
    let mut book = three(rt.alloc(), seed)?;
    expect_found(&rt, rt.alloc(), &mut book)?;
    Ok(())
}

#[test]
fn removed_subscriptions_are_not_found(rt: HostRuntime) -> Result<(), Fail> {
    let seed = RandomState::new(&rt)?;
    let mut book = three(rt.alloc(), seed)?;
    expect_fewer(&rt, rt.alloc(), &mut book)?;
    Ok(())
}

#[test]
fn the_last_numbers_are_found(rt: HostRuntime) -> Result<(), Fail> {
    let seed = RandomState::new(&rt)?;
    let mut book = Book::new(rt.alloc(), seed);
    expect_last(&rt, rt.alloc(), &mut book)?;
    Ok(())
}
