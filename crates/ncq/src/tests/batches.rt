//! `batch`: several sources changed as one, and each subscription is told once, of all of it.

use super::{Case, Parts, SOURCE, expect_each, expect_parts};
use std::test::Fail;

const COMPANIES: &str = "source companies root Companies key Symbol\n";

/// Installs the join of quotes and companies by their symbols.
const JOIN: &str = "create j WHERE <Quotes><Quote><Symbol>$s</><Price>$p</></></> IN quotes, \
    <Companies><Company><Symbol>$s</><Area>$a</></></> IN companies \
    CONSTRUCT <hit a=$a p=$p/> DO print\n.\n";

const QUOTE_95: &str = "(Quote\n(Symbol\n-INTC\n)Symbol\n(Price\n-95.5\n)Price\n)Quote\n";

const QUOTE_96: &str = "(Quote\n(Symbol\n-INTC\n)Symbol\n(Price\n-96\n)Price\n)Quote\n";

const CHIPS: &str = "(Company\n(Symbol\n-INTC\n)Symbol\n(Area\n-Chips\n)Area\n)Company\n";

const TOOLS: &str = "(Company\n(Symbol\n-INTC\n)Symbol\n(Area\n-Tools\n)Area\n)Company\n";

/// "A `batch` changes several sources as one change: each subscription that asks one of them is
/// told once, of all of it." So nobody is told of the price in the old area, nor of the old price
/// in the new one.
const TOGETHER: &[Parts<'_>] = &[(
    &[
        SOURCE,
        COMPANIES,
        JOIN,
        "batch\n@quotes\n",
        QUOTE_95,
        "@companies\n",
        CHIPS,
        ".\n",
        "batch\n@companies\n",
        TOOLS,
        "@quotes\n",
        QUOTE_96,
        ".\n",
        "batch\n@quotes\n!INTC\n@companies\n!INTC\n.\n",
    ],
    &[
        "1 ok\n2 ok\n3 ok\n",
        "4 ok\nnotice j 0\ngain 1\n(hit\nAa Chips\nAp 95.5\n)hit\nend\n",
        "5 ok\nnotice j 0\nlose 1\n(hit\nAa Chips\nAp 95.5\n)hit\n",
        "gain 1\n(hit\nAa Tools\nAp 96\n)hit\nend\n",
        "6 ok\nnotice j 0\nlose 1\n(hit\nAa Tools\nAp 96\n)hit\nend\n",
    ],
)];

#[test]
fn a_batch_is_one_change_of_all_its_sources(rt: HostRuntime) -> Result<(), Fail> {
    expect_parts(&rt, &rt, TOGETHER)
}

/// The source, and the query of all its symbols, told by counts.
const COUNTED: Case<'_> = (
    "source quotes root Quotes key Symbol\n\
     create n WHERE <Quotes><Q><Symbol>$s</></></> IN quotes CONSTRUCT $s DO count\n.\n",
    "1 ok\n2 ok\n",
);

/// "The sections are applied in order, item by item, all of them or none. A source may have several
/// sections: a later one sees what an earlier one has left." Two sections tell one notice.
const IN_ORDER: &[Case<'_>] = &[
    (
        "batch\n@quotes\n(Q\n(Symbol\n-A\n)Symbol\n)Q\n@quotes\n(Q\n(Symbol\n-B\n)Symbol\n)Q\n.\n",
        "3 ok\ncount n 0 gain 2 lose 0\n",
    ),
    // What a section puts a later one deletes, and nobody is told.
    (
        "batch\n@quotes\n(Q\n(Symbol\n-A\n)Symbol\n)Q\n@quotes\n!A\n.\ndelta quotes\n!A\n.\n",
        "3 ok\n4 refused 7 no-key 1\n",
    ),
    // What a section deletes a later one puts again.
    (
        "delta quotes\n(Q\n(Symbol\n-A\n)Symbol\n)Q\n.\n\
         batch\n@quotes\n!A\n@quotes\n(Q\n(Symbol\n-A\n)Symbol\n)Q\n.\n",
        "3 ok\ncount n 0 gain 1 lose 0\n4 ok\n",
    ),
    // A refused batch keeps nothing of its first section.
    (
        "batch\n@quotes\n(Q\n(Symbol\n-A\n)Symbol\n)Q\n@quotes\n!B\n.\ndelta quotes\n!A\n.\n",
        "3 refused 7 no-key 2\n4 refused 7 no-key 1\n",
    ),
];

#[test]
fn sections_are_applied_in_order_or_not_at_all(rt: HostRuntime) -> Result<(), Fail> {
    expect_each(&rt, &rt, COUNTED, IN_ORDER)
}

/// Refusals, behind the declared source: "A bad line's number counts all lines of the block, and an
/// item's position all items of the batch."
const REFUSED: &[Case<'_>] = &[
    ("batch x\n.\n", "2 refused 1 command\n"),
    ("batch\n@quotes\n", "2 refused 16 unfinished\n"),
    ("batch\n(a\n.\n", "2 refused 5 pyx 1\n"),
    ("batch\n!A\n@quotes\n.\n", "2 refused 5 pyx 1\n"),
    ("batch\n@\n.\n", "2 refused 5 pyx 1\n"),
    ("batch\n@quotes x\n.\n", "2 refused 5 pyx 1\n"),
    ("batch\n@quotes\n(a\n@quotes\n.\n", "2 refused 5 pyx 3\n"),
    ("batch\n@quotes\n(a\n.\n", "2 refused 5 pyx 3\n"),
    ("batch\n@quotes\n@quotes\n)a\n.\n", "2 refused 5 pyx 3\n"),
    ("batch\n@none\n.\n", "2 refused 4 no-source\n"),
    // A bad line comes first, then a source that is not there, then an item.
    ("batch\n@none\n(a\n.\n", "2 refused 5 pyx 3\n"),
    ("batch\n@quotes\n!A\n@none\n.\n", "2 refused 4 no-source\n"),
    (
        "batch\n@quotes\n(Q\n(Symbol\n-A\n)Symbol\n)Q\n@quotes\n(Q\n)Q\n!B\n.\n",
        "2 refused 6 key 2\n",
    ),
];

#[test]
fn a_batch_is_refused_for_its_first_fault(rt: HostRuntime) -> Result<(), Fail> {
    expect_each(&rt, &rt, (SOURCE, "1 ok\n"), REFUSED)
}

/// What is no fault: no section at all, lines that are skipped before the first, an empty section,
/// blanks behind the `@` and a carriage return at a line's end.
const ACCEPTED: &[Case<'_>] = &[
    ("batch\n.\n", "2 ok\n"),
    ("batch\n?x\n\n- \n@quotes\n.\n", "2 ok\n"),
    ("BATCH\n@ quotes\n@quotes\t\n.\n", "2 ok\n"),
    (
        "batch\r\n@quotes\r\n(Q\r\n(Symbol\r\n-A\r\n)Symbol\r\n)Q\r\n.\r\n",
        "2 ok\n",
    ),
];

#[test]
fn a_batch_may_be_empty(rt: HostRuntime) -> Result<(), Fail> {
    expect_each(&rt, &rt, (SOURCE, "1 ok\n"), ACCEPTED)
}

/// "A batch without a section is accepted; it counts as a change and fires nobody." A timer fires
/// where one of its sources has had a section since.
const FIRINGS: &[Parts<'_>] = &[
    (
        &[SOURCE, "batch\n.\nbatch\n@quotes\n.\nreport\n"],
        &[
            "1 ok\n2 ok\n3 ok\n4 ok\n",
            "queries 0\nsources 1\nchanges 2\nfiles 0\ngroups 0\nend\n",
        ],
    ),
    (
        &[
            SOURCE,
            COMPANIES,
            "create t WHERE <Quotes><Quote><Symbol>$s</></></> IN quotes CONSTRUCT $s DO print \
             EVERY 10\n.\n",
            "batch\n@companies\n",
            CHIPS,
            "@quotes\n",
            QUOTE_95,
            ".\nclock 10\nbatch\n@companies\n!INTC\n.\nclock 20\n",
        ],
        &["1 ok\n2 ok\n3 ok\n4 ok\n5 ok\nnotice t 10\ngain 1\n-INTC\nend\n6 ok\n7 ok\n"],
    ),
];

#[test]
fn who_fires_at_a_batch_asks_one_of_its_sources(rt: HostRuntime) -> Result<(), Fail> {
    expect_parts(&rt, &rt, FIRINGS)
}
