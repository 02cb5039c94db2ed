//! Which queries join first: those of two arms or more that come where three live ones or more have
//! the same plan but for equalities and ranges.
//!
//! `Q` is the scan of the quotes and `C` that of the companies. The query of an area that selects
//! first has the companies of its area and the join of `Q` with them; one that joins first has the
//! join of `Q` with `C`, and the rows of its area in that.

use super::{Parts, SOURCE, expect_parts};
use std::test::Fail;

/// Declares the source `companies`.
const COMPANIES: &str = "source companies root Companies key Symbol\n";

/// What a create has behind its name, before its area; and behind that.
const ASK: &str = " WHERE <Quotes><Quote><Symbol>$s</></></> IN \"quotes\", \
    <Companies><Company><Symbol>$s</><Area>";

const TELL: &str = "</></></> IN \"companies\" CONSTRUCT <hit>$s</> DO print\n.\n";

/// The selections of areas over the join, and over the companies.
const OVER_JOIN: &str =
    " eq(join(scan(quotes,Quote(Symbol=)),scan(companies,Company(Symbol=,Area=)),0=0),2)\n";

const OVER_SCAN: &str = " eq(scan(companies,Company(Symbol=,Area=)),1)\n";

/// The join of `Q` with the companies of an area, on both sides of the area.
const WITH: &str =
    "group 0 join(scan(quotes,Quote(Symbol=)),eq(scan(companies,Company(Symbol=,Area=)),1,\"";

const BY: &str = "\"),0=0)\n";

/// The join of `Q` with `C`, then `C`, `Q` and the end of the report.
const JOIN: &str =
    "group 0 join(scan(quotes,Quote(Symbol=)),scan(companies,Company(Symbol=,Area=)),0=0)\n";

const SCANS: &str = "group 0 scan(companies,Company(Symbol=,Area=))\n\
    group 0 scan(quotes,Quote(Symbol=))\nend\n";

/// The fourth query of one join joins first, and those behind it share its join. The first three
/// keep what they have.
const FOUR_AND_FIVE: &[Parts<'_>] = &[(
    &[
        SOURCE,
        COMPANIES,
        "create a0",
        ASK,
        "A0",
        TELL,
        "create a1",
        ASK,
        "A1",
        TELL,
        "create a2",
        ASK,
        "A2",
        TELL,
        "report\ncreate a3",
        ASK,
        "A3",
        TELL,
        "report\ncreate a4",
        ASK,
        "A4",
        TELL,
        "report\n",
    ],
    &[
        "1 ok\n2 ok\n3 ok\n4 ok\n5 ok\n6 ok\n",
        "queries 3\nsources 2\nchanges 0\nfiles 8\ngroups 6\ngroup 3",
        OVER_SCAN,
        WITH,
        "A0",
        BY,
        WITH,
        "A1",
        BY,
        WITH,
        "A2",
        BY,
        SCANS,
        "7 ok\n8 ok\nqueries 4\nsources 2\nchanges 0\nfiles 10\ngroups 8\ngroup 1",
        OVER_JOIN,
        "group 3",
        OVER_SCAN,
        WITH,
        "A0",
        BY,
        WITH,
        "A1",
        BY,
        WITH,
        "A2",
        BY,
        JOIN,
        SCANS,
        "9 ok\n10 ok\nqueries 5\nsources 2\nchanges 0\nfiles 11\ngroups 8\ngroup 2",
        OVER_JOIN,
        "group 3",
        OVER_SCAN,
        WITH,
        "A0",
        BY,
        WITH,
        "A1",
        BY,
        WITH,
        "A2",
        BY,
        JOIN,
        SCANS,
    ],
)];

#[test]
fn the_fourth_query_of_a_join_joins_first(rt: HostRuntime) -> Result<(), Fail> {
    expect_parts(&rt, &rt, FOUR_AND_FIVE)
}

/// Those that are live count, whichever plans they have.
const DELETED: &[Parts<'_>] = &[
    // One of four goes: three are left, so the next joins first.
    // Two more go: the two that are left join first, and the next selects first, over the
    // companies.
    // With it there are three again.
    (
        &[
            SOURCE,
            COMPANIES,
            "create a0",
            ASK,
            "A0",
            TELL,
            "create a1",
            ASK,
            "A1",
            TELL,
            "create a2",
            ASK,
            "A2",
            TELL,
            "create a3",
            ASK,
            "A3",
            TELL,
            "delete a0\ncreate a4",
            ASK,
            "A4",
            TELL,
            "report\ndelete a1\ndelete a2\ncreate a5",
            ASK,
            "A5",
            TELL,
            "report\ncreate a6",
            ASK,
            "A6",
            TELL,
            "report\n",
        ],
        &[
            "1 ok\n2 ok\n3 ok\n4 ok\n5 ok\n6 ok\n7 ok\n8 ok\n",
            "9 ok\nqueries 4\nsources 2\nchanges 0\nfiles 9\ngroups 7\ngroup 2",
            OVER_JOIN,
            "group 2",
            OVER_SCAN,
            WITH,
            "A1",
            BY,
            WITH,
            "A2",
            BY,
            JOIN,
            SCANS,
            "10 ok\n11 ok\n12 ok\n",
            "13 ok\nqueries 3\nsources 2\nchanges 0\nfiles 7\ngroups 6\ngroup 2",
            OVER_JOIN,
            "group 1",
            OVER_SCAN,
            WITH,
            "A5",
            BY,
            JOIN,
            SCANS,
            "14 ok\n15 ok\nqueries 4\nsources 2\nchanges 0\nfiles 8\ngroups 6\ngroup 3",
            OVER_JOIN,
            "group 1",
            OVER_SCAN,
            WITH,
            "A5",
            BY,
            JOIN,
            SCANS,
        ],
    ),
    // All go, and with them all that they had: one that comes behind them selects first.
    (
        &[
            SOURCE,
            COMPANIES,
            "create a0",
            ASK,
            "A0",
            TELL,
            "create a1",
            ASK,
            "A1",
            TELL,
            "create a2",
            ASK,
            "A2",
            TELL,
            "create a3",
            ASK,
            "A3",
            TELL,
            "delete a3\ndelete a1\ndelete a0\ndelete a2\nreport\ncreate a4",
            ASK,
            "A4",
            TELL,
            "report\n",
        ],
        &[
            "1 ok\n2 ok\n3 ok\n4 ok\n5 ok\n6 ok\n7 ok\n8 ok\n9 ok\n10 ok\n",
            "11 ok\nqueries 0\nsources 2\nchanges 0\nfiles 0\ngroups 0\nend\n",
            "12 ok\n13 ok\nqueries 1\nsources 2\nchanges 0\nfiles 4\ngroups 4\ngroup 1",
            OVER_SCAN,
            WITH,
            "A4",
            BY,
            SCANS,
        ],
    ),
    // One expires.
    (
        &[
            SOURCE,
            COMPANIES,
            "create a0",
            ASK,
            "A0</></></> IN \"companies\" CONSTRUCT <hit>$s</> DO print EXPIRE 4\n.\n",
            "create a1",
            ASK,
            "A1",
            TELL,
            "create a2",
            ASK,
            "A2",
            TELL,
            "clock 5\ncreate a3",
            ASK,
            "A3",
            TELL,
            "report\n",
        ],
        &[
            "1 ok\n2 ok\n3 ok\n4 ok\n5 ok\n6 ok\nexpired a0\n7 ok\n",
            "8 ok\nqueries 3\nsources 2\nchanges 0\nfiles 8\ngroups 6\ngroup 3",
            OVER_SCAN,
            WITH,
            "A1",
            BY,
            WITH,
            "A2",
            BY,
            WITH,
            "A3",
            BY,
            SCANS,
        ],
    ),
];

#[test]
fn those_that_are_live_count(rt: HostRuntime) -> Result<(), Fail> {
    expect_parts(&rt, &rt, DELETED)
}

/// Creates that are refused: for their name, their action and their expiry.
const REFUSED: &[Parts<'_>] = &[(
    &[
        SOURCE,
        COMPANIES,
        "create a0",
        ASK,
        "A0",
        TELL,
        "create a1",
        ASK,
        "A1",
        TELL,
        "create a0",
        ASK,
        "A2",
        TELL,
        "create b",
        ASK,
        "A2</></></> IN \"companies\" CONSTRUCT <hit>$s</> DO shout\n.\nclock 5\n",
        "create b",
        ASK,
        "A2</></></> IN \"companies\" CONSTRUCT <hit>$s</> DO print EXPIRE 4\n.\n",
        "create a2",
        ASK,
        "A2",
        TELL,
        "report\ncreate a3",
        ASK,
        "A3",
        TELL,
        "report\n",
    ],
    &[
        "1 ok\n2 ok\n3 ok\n4 ok\n5 refused 8 name-taken\n6 refused 13 action\n7 ok\n",
        "8 refused 14 times\n9 ok\n",
        "10 ok\nqueries 3\nsources 2\nchanges 0\nfiles 8\ngroups 6\ngroup 3",
        OVER_SCAN,
        WITH,
        "A0",
        BY,
        WITH,
        "A1",
        BY,
        WITH,
        "A2",
        BY,
        SCANS,
        "11 ok\n12 ok\nqueries 4\nsources 2\nchanges 0\nfiles 10\ngroups 8\ngroup 1",
        OVER_JOIN,
        "group 3",
        OVER_SCAN,
        WITH,
        "A0",
        BY,
        WITH,
        "A1",
        BY,
        WITH,
        "A2",
        BY,
        JOIN,
        SCANS,
    ],
)];

#[test]
fn a_refused_create_does_not_count(rt: HostRuntime) -> Result<(), Fail> {
    expect_parts(&rt, &rt, REFUSED)
}

/// Which queries are of one join.
const OF_ONE_JOIN: &[Parts<'_>] = &[
    // What is made of the rows, when it is told, and a `!=` make no difference.
    (
        &[
            SOURCE,
            COMPANIES,
            "create a0",
            ASK,
            "A0</></></> IN \"companies\" CONSTRUCT DISTINCT <hit/> DO print\n.\n",
            "create a1",
            ASK,
            "A1</></></> IN \"companies\", $s != INTC CONSTRUCT <r>$s</> DO count\n.\n",
            "create a2",
            ASK,
            "A2</></></> IN \"companies\" CONSTRUCT $s DO print START 4 EVERY 10\n.\n",
            "create a3",
            ASK,
            "A3",
            TELL,
            "report\n",
        ],
        &[
            "1 ok\n2 ok\n3 ok\n4 ok\n5 ok\n6 ok\n",
            "7 ok\nqueries 4\nsources 2\nchanges 0\nfiles 10\ngroups 8\ngroup 1",
            OVER_JOIN,
            "group 3",
            OVER_SCAN,
            WITH,
            "A0",
            BY,
            WITH,
            "A1",
            BY,
            WITH,
            "A2",
            BY,
            JOIN,
            SCANS,
        ],
    ),
    // One with its arms in the other order is of another join.
    (
        &[
            SOURCE,
            COMPANIES,
            "create a0",
            ASK,
            "A0",
            TELL,
            "create a1",
            ASK,
            "A1",
            TELL,
            "create b WHERE <Companies><Company><Symbol>$s</><Area>A9</></></> IN \"companies\", \
             <Quotes><Quote><Symbol>$s</></></> IN \"quotes\" CONSTRUCT <hit>$s</> DO print\n.\n",
            "create a2",
            ASK,
            "A2",
            TELL,
            "report\n",
        ],
        &[
            "1 ok\n2 ok\n3 ok\n4 ok\n5 ok\n6 ok\n",
            "7 ok\nqueries 4\nsources 2\nchanges 0\nfiles 10\ngroups 7\ngroup 4",
            OVER_SCAN,
            "group 0 join(eq(scan(companies,Company(Symbol=,Area=)),1,\"A9\"),\
             scan(quotes,Quote(Symbol=)),0=0)\n",
            WITH,
            "A0",
            BY,
            WITH,
            "A1",
            BY,
            WITH,
            "A2",
            BY,
            SCANS,
        ],
    ),
];

#[test]
fn constants_and_what_is_told_make_no_other_join(rt: HostRuntime) -> Result<(), Fail> {
    expect_parts(&rt, &rt, OF_ONE_JOIN)
}

/// Queries that ask for all pairs of a quote and its company; one for those of a day, a band and an
/// area.
const PAIRS: &str = " WHERE <Quotes><Quote><Symbol>$s</><Price>$p</><Day>$d</></></> IN quotes, \
    <Companies><Company><Symbol>$s</><Area>$a</></></> IN companies CONSTRUCT <hit>$s</> DO print\
\n.\n";

const SELECTED: &str = "create d WHERE <Quotes><Quote><Symbol>$s</><Price>$p</><Day>Mon</></></> \
    IN quotes, <Companies><Company><Symbol>$s</><Area>A3</></></> IN companies, $p > 10, $p <= 20 \
    CONSTRUCT <hit>$s</> DO print\n.\n";

/// The equalities stand below the range, and those of the quote below that of the company.
const IN_ORDER: &[Parts<'_>] = &[(
    &[
        SOURCE, COMPANIES, "create a", PAIRS, "create b", PAIRS, "create c", PAIRS, SELECTED,
        "report\n",
    ],
    &[
        "1 ok\n2 ok\n3 ok\n4 ok\n5 ok\n6 ok\n",
        "7 ok\nqueries 4\nsources 2\nchanges 0\nfiles 6\ngroups 6\n",
        "group 1 eq(eq(join(scan(quotes,Quote(Symbol=,Price=,Day=)),\
         scan(companies,Company(Symbol=,Area=)),0=0),2,\"Mon\"),4)\n",
        "group 1 eq(join(scan(quotes,Quote(Symbol=,Price=,Day=)),\
         scan(companies,Company(Symbol=,Area=)),0=0),2)\n",
        "group 0 join(scan(quotes,Quote(Symbol=,Price=,Day=)),\
         scan(companies,Company(Symbol=,Area=)),0=0)\n",
        "group 1 range(eq(eq(join(scan(quotes,Quote(Symbol=,Price=,Day=)),\
         scan(companies,Company(Symbol=,Area=)),0=0),2,\"Mon\"),4,\"A3\"),1)\n",
        "group 0 scan(companies,Company(Symbol=,Area=))\n",
        "group 0 scan(quotes,Quote(Symbol=,Price=,Day=))\nend\n",
    ],
)];

#[test]
fn selections_stand_above_the_join_in_order(rt: HostRuntime) -> Result<(), Fail> {
    expect_parts(&rt, &rt, IN_ORDER)
}

/// A query of one arm has no join, and selects over its scan, however many are like it.
const ONE_ARM: &str = " WHERE <Companies><Company><Symbol>$s</><Area>";

const OF_ONE_ARM: &[Parts<'_>] = &[(
    &[
        COMPANIES,
        "create a0",
        ONE_ARM,
        "A0",
        TELL,
        "create a1",
        ONE_ARM,
        "A1",
        TELL,
        "create a2",
        ONE_ARM,
        "A2",
        TELL,
        "create a3",
        ONE_ARM,
        "A3",
        TELL,
        "create a4",
        ONE_ARM,
        "A4",
        TELL,
        "report\n",
    ],
    &[
        "1 ok\n2 ok\n3 ok\n4 ok\n5 ok\n6 ok\n",
        "7 ok\nqueries 5\nsources 1\nchanges 0\nfiles 6\ngroups 2\ngroup 5",
        OVER_SCAN,
        "group 0 scan(companies,Company(Symbol=,Area=))\nend\n",
    ],
)];

#[test]
fn a_query_of_one_arm_selects_over_its_scan(rt: HostRuntime) -> Result<(), Fail> {
    expect_parts(&rt, &rt, OF_ONE_ARM)
}
