//! Texts of notices worked out by hand. The entries are of rows that come and go, and a template
//! answers their lines.
ghost use Rattle.std.specs.Prelude.{◌≡◌, ◌∷◌, [], codes, true, false};
ghost use Rattle.ncq_callback.specs.Texts.{render};

use super::forests::template_of_lines;
use super::gathered::{are_entries, take_times};
use super::making::some_row;
use ncq_base::bytes_of;
use ncq_callback::{
    Entries, Gather, Handlers, Kind, Notice, count_notice, mail_notice, print_notice,
};
use ncq_row::Row;
use std::alloc::{AllocError, Global};
use std::process::Abort;
use std::test::Fail;

/// So many rows come or go, each of which answers these lines.
fn take(
    alloc: Global,
    gather: &mut Gather,
    row: &Row,
    entry: &(bool, u64, &str),
) -> Result<(), AllocError> {
    let (gain, count, text) = entry;
    let template = template_of_lines(alloc, text)?;
    take_times(alloc, gather, &template, row, *count, *gain)
}

/// The entries of rows that answer these lines.
fn entries(alloc: Global, row: &Row, differs: &[(bool, u64, &str)]) -> Result<Entries, AllocError> {
    let mut gather = Gather::new(alloc);
    for entry in differs {
        take(alloc, &mut gather, row, entry)?;
    }
    gather.finish(alloc)
}

const QUOTE: &str = "(Quote\n(Symbol\n-INTC\n)Symbol\n(Price\n-1\n)Price\n)Quote\n";

/// The handler, the argument, what differs for `w` at 5, and the text.
const NOTICES: &[(&str, &str, &[(bool, u64, &str)], &str)] = &[
    (
        "mailto",
        "ops desk",
        &[(true, 1, QUOTE)],
        "mail w 5 ops desk\ngain 1\n(Quote\n(Symbol\n-INTC\n)Symbol\n(Price\n-1\n)Price\n)Quote\n\
            end\n",
    ),
    (
        "count",
        "",
        &[(true, 1, QUOTE)],
        "count w 5 gain 1 lose 0\n",
    ),
    (
        "print",
        "",
        &[(false, 1, "-95.5\n"), (true, 2, "-96\n")],
        "notice w 5\nlose 1\n-95.5\ngain 2\n-96\nend\n",
    ),
    // a tab, a backslash and LF in the argument, and no argument
    ("mailto", "a\tb\\c\n", &[], "mail w 5 a\\tb\\\\c\\n\nend\n"),
    (
        "mailto",
        "",
        &[(false, 3, "-a\n")],
        "mail w 5 \nlose 3\n-a\nend\n",
    ),
    // nothing differs
    ("print", "", &[], "notice w 5\nend\n"),
    ("count", "", &[], "count w 5 gain 0 lose 0\n"),
    // sums of four entries
    (
        "count",
        "",
        &[
            (true, 300, "-a\n"),
            (false, 200, "-b\n"),
            (true, 300, "-c\n"),
            (false, 7, "-d\n"),
        ],
        "count w 5 gain 600 lose 207\n",
    ),
];

/// Sums past 2^64. So many rows never come, so this is of the text that handlers are proved to
/// write.
fn sums_past_2_64()
    ensures { render Kind.Count (codes "") (codes "w") 5
        (record { gain = true; count = 18446744073709551615; bytes = codes "-a\n" }
        ∷ record { gain = false; count = 18446744073709551615; bytes = codes "-b\n" }
        ∷ record { gain = true; count = 18446744073709551615; bytes = codes "-c\n" }
        ∷ record { gain = false; count = 7; bytes = codes "-d\n" } ∷ [])
        ≡ codes "count w 5 gain 36893488147419103230 lose 18446744073709551622\n" }
{}

/// The notice for `w` at 5.
fn notice(alloc: Global, row: &Row, differs: &[(bool, u64, &str)]) -> Result<Notice, AllocError> {
    let entries = entries(alloc, row, differs)?;
    let name = bytes_of(alloc, b"w")?;
    Ok(Notice {
        name,
        instant: 5,
        entries,
    })
}

/// Calls the handler of the name, where there is one.
fn call(
    handlers: &Handlers,
    name: &str,
    argument: &str,
    notice: &Notice,
    out: &mut Vec<u8>,
) -> Result<(), AllocError> {
    match handlers.find(name.as_bytes()) {
        Some(at) => handlers.call(at, argument.as_bytes(), notice, out),
        None => Ok(()),
    }
}

/// What the handler of the name writes behind a dot.
fn written(
    alloc: Global,
    handlers: &Handlers,
    name: &str,
    argument: &str,
    notice: &Notice,
) -> Result<Vec<u8>, AllocError> {
    let mut out = vec![in alloc; b'.']?;
    call(handlers, name, argument, notice, &mut out)?;
    Ok(out)
}

/// Whether the handler of the name writes the text behind a dot.
fn writes(
    alloc: Global,
    handlers: &Handlers,
    name: &str,
    argument: &str,
    notice: &Notice,
    want: &str,
) -> Result<bool, AllocError> {
    let out = written(alloc, handlers, name, argument, notice)?;
    Ok(out.first() == Some(&b'.') && out.get(1..) == Some(want.as_bytes()))
}

/// The handler of the name writes the text behind what is there, before and after its entries are
/// written down, and after they are once more.
fn expect_text(
    rt: &impl Abort,
    alloc: Global,
    handlers: &Handlers,
    row: &Row,
    case: &(&str, &str, &[(bool, u64, &str)], &str),
) -> Result<(), AllocError> {
    let (name, argument, differs, text) = case;
    let mut notice = notice(alloc, row, differs)?;
    assert!(rt; are_entries(&notice.entries, differs), "{name} {text}");
    for _ in 0..3 {
        assert!(rt;
            writes(alloc, handlers, name, argument, &notice, text)?,
            "{name} {text}"
        );
        notice.entries.write_down(alloc, notice.instant)?;
    }
    Ok(())
}

/// Each notice has its text, by these handlers.
pub fn expect_texts(
    rt: &impl Abort,
    alloc: Global,
    handlers: &Handlers,
    row: &Row,
) -> Result<(), AllocError> {
    for case in NOTICES {
        expect_text(rt, alloc, handlers, row, case)?;
    }
    Ok(())
}

const DIFFERS: &[(bool, u64, &str)] = &[(false, 1, "-95.5\n"), (true, 2, "-96\n")];

/// Two differences, told at two instants: the kind, the instant, and the text.
const TELLINGS: &[(Kind, u64, &str)] = &[
    (
        Kind::Print,
        5,
        "notice w 5\nlose 1\n-95.5\ngain 2\n-96\nend\n",
    ),
    (
        Kind::MailTo,
        5,
        "mail w 5 ops desk\nlose 1\n-95.5\ngain 2\n-96\nend\n",
    ),
    (
        Kind::Print,
        120,
        "notice w 120\nlose 1\n-95.5\ngain 2\n-96\nend\n",
    ),
    (
        Kind::MailTo,
        120,
        "mail w 120 ops desk\nlose 1\n-95.5\ngain 2\n-96\nend\n",
    ),
    (Kind::Count, 120, "count w 120 gain 2 lose 1\n"),
];

/// The instants for which they are written down before, one after the other.
const WRITTEN_DOWN: &[&[u64]] = &[&[], &[5], &[120], &[5, 120], &[120, 5], &[77]];

/// Appends the text of the kind.
fn write_as(kind: Kind, notice: &Notice, out: &mut Vec<u8>) -> Result<(), AllocError> {
    match kind {
        Kind::Print => print_notice(b"ops desk", notice, out),
        Kind::Count => count_notice(b"ops desk", notice, out),
        Kind::MailTo => mail_notice(b"ops desk", notice, out),
    }
}

/// Whether the kind writes the text behind a dot.
fn is_told(alloc: Global, kind: Kind, notice: &Notice, want: &str) -> Result<bool, AllocError> {
    let mut out = vec![in alloc; b'.']?;
    write_as(kind, notice, &mut out)?;
    Ok(out.first() == Some(&b'.') && out.get(1..) == Some(want.as_bytes()))
}

/// Each telling is its text, twice in a row, where the entries were written down for these
/// instants.
fn expect_tellings(
    rt: &impl Abort,
    alloc: Global,
    row: &Row,
    instants: &[u64],
) -> Result<(), AllocError> {
    let mut notice = notice(alloc, row, DIFFERS)?;
    assert!(rt; are_entries(&notice.entries, DIFFERS));
    for instant in instants {
        notice.entries.write_down(alloc, *instant)?;
    }
    for (kind, instant, text) in TELLINGS {
        notice.instant = *instant;
        for _ in 0..2 {
            assert!(rt; is_told(alloc, *kind, &notice, text)?, "{text}");
        }
    }
    Ok(())
}

#[test]
fn entries_are_told_at_each_instant_alike(rt: HostRuntime) -> Result<(), Fail> {
    let row = some_row(&rt)?;
    for instants in WRITTEN_DOWN {
        expect_tellings(&rt, rt.alloc(), &row, instants)?;
    }
    Ok(())
}
