//! When a subscription fires, until when it is live, and in which order notices stand.

use super::{
    DELETE, LOST_95, PUT_95, PUT_96, Parts, SOURCE, TOLD_95, TOLD_96, WATCH, expect_parts,
};
use std::test::Fail;

/// The query of `WATCH` up to its times, and the end of its block.
const TIMED: &str =
    "create w WHERE <Quotes><Quote><Symbol>INTC</></> ELEMENT_AS $g</> IN \"quotes\" CONSTRUCT $g \
     DO print ";

const DOT: &str = "\n.\n";

/// The symbols of the quotes; the name stands between the two, and the times behind them.
const CREATE: &str = "create ";

const SYMBOLS: &str =
    " WHERE <Quotes><Quote><Symbol>$s</></></> IN \"quotes\" CONSTRUCT $s DO print ";

const PUT_A: &str = "delta quotes\n(Quote\n(Symbol\n-A\n)Symbol\n(Price\n-1\n)Price\n)Quote\n.\n";

const DELETE_A: &str = "delta quotes\n!A\n.\n";

/// The lines of a notice behind its first one.
const GAIN_95: &str =
    "gain 1\n(Quote\n(Symbol\n-INTC\n)Symbol\n(Price\n-95.5\n)Price\n)Quote\nend\n";

const GAIN_96: &str = "gain 1\n(Quote\n(Symbol\n-INTC\n)Symbol\n(Price\n-96\n)Price\n)Quote\nend\n";

const FROM_95_TO_96: &str =
    "lose 1\n(Quote\n(Symbol\n-INTC\n)Symbol\n(Price\n-95.5\n)Price\n)Quote\ngain 1\n(Quote\n\
     (Symbol\n-INTC\n)Symbol\n(Price\n-96\n)Price\n)Quote\nend\n";

/// "The start is the written one or now, whichever is later."
const STARTS: &[Parts<'_>] = &[
    // A change before the start is told at the start, and a change at that instant is told at once.
    (
        &[
            SOURCE,
            TIMED,
            "START 5",
            DOT,
            PUT_95,
            "clock 4\n",
            "clock 9\n",
            PUT_96,
        ],
        &[
            "1 ok\n2 ok\n3 ok\n4 ok\n5 ok\nnotice w 5\n",
            GAIN_95,
            "6 ok\nnotice w 9\n",
            FROM_95_TO_96,
        ],
    ),
    (
        &[SOURCE, PUT_95, "clock 4\n", TIMED, "START 3", DOT],
        &["1 ok\n2 ok\n3 ok\n4 ok\nnotice w 4\n", GAIN_95],
    ),
    (
        &[
            SOURCE,
            PUT_95,
            "clock 4\n",
            TIMED,
            "START 5",
            DOT,
            "clock 4\n",
            "clock 5\n",
        ],
        &["1 ok\n2 ok\n3 ok\n4 ok\n5 ok\n6 ok\nnotice w 5\n", GAIN_95],
    ),
];

/// A timer fires at its instants where a source has changed since.
const TIMERS: &[Parts<'_>] = &[
    // It fires at 10 with an empty difference; at 20 no source has changed since.
    (
        &[
            SOURCE,
            CREATE,
            "t",
            SYMBOLS,
            "START 10 EVERY 10",
            DOT,
            "clock 3\n",
            PUT_A,
            "clock 7\n",
            DELETE_A,
            "clock 10\n",
            "clock 20\n",
        ],
        &["1 ok\n2 ok\n3 ok\n4 ok\n5 ok\n6 ok\n7 ok\n8 ok\n"],
    ),
    // The least of many instants is taken.
    (
        &[
            SOURCE,
            CREATE,
            "t",
            SYMBOLS,
            "EVERY 1",
            DOT,
            PUT_A,
            "clock 9223372036854775807\n",
        ],
        &["1 ok\n2 ok\n3 ok\n4 ok\nnotice t 1\ngain 1\n-A\nend\n"],
    ),
    // What changes between two instants is told at the later one.
    (
        &[
            SOURCE,
            TIMED,
            "EVERY 10",
            DOT,
            PUT_95,
            "clock 10\n",
            PUT_96,
            "clock 19\n",
            "clock 20\n",
            "clock 40\n",
        ],
        &[
            "1 ok\n2 ok\n3 ok\n4 ok\nnotice w 10\n",
            GAIN_95,
            "5 ok\n6 ok\n7 ok\nnotice w 20\n",
            FROM_95_TO_96,
            "8 ok\n",
        ],
    ),
    (
        &[SOURCE, TIMED, "EVERY 10", DOT, PUT_95, PUT_96, "clock 30\n"],
        &["1 ok\n2 ok\n3 ok\n4 ok\n5 ok\nnotice w 10\n", GAIN_96],
    ),
    // Who asks the same since another instant, or shows it otherwise, is told otherwise.
    (
        &[
            SOURCE,
            CREATE,
            "a",
            SYMBOLS,
            "EVERY 10",
            DOT,
            CREATE,
            "b",
            SYMBOLS,
            "EVERY 20",
            DOT,
            CREATE,
            "c",
            " WHERE <Quotes><Quote><Symbol>$s</></></> IN \"quotes\" CONSTRUCT <x>$s</> DO print ",
            "EVERY 20",
            DOT,
            PUT_A,
            "clock 10\n",
            PUT_95,
            "clock 20\n",
        ],
        &[
            "1 ok\n2 ok\n3 ok\n4 ok\n5 ok\n6 ok\nnotice a 10\ngain 1\n-A\nend\n7 ok\n8 ok\n",
            "notice a 20\ngain 1\n-INTC\nend\n",
            "notice b 20\ngain 1\n-A\ngain 1\n-INTC\nend\n",
            "notice c 20\ngain 1\n(x\n-A\n)x\ngain 1\n(x\n-INTC\n)x\nend\n",
        ],
    ),
    // It fires at its create too.
    (
        &[SOURCE, PUT_95, TIMED, "EVERY 10", DOT, DELETE, "clock 15\n"],
        &[
            "1 ok\n2 ok\n3 ok\nnotice w 0\n",
            GAIN_95,
            "4 ok\n5 ok\nnotice w 10\nlose 1\n(Quote\n(Symbol\n-INTC\n)Symbol\n(Price\n-95.5\n\
             )Price\n)Quote\nend\n",
        ],
    ),
];

#[test]
fn a_subscription_fires_at_its_instants(rt: HostRuntime) -> Result<(), Fail> {
    expect_parts(&rt, &rt, STARTS)?;
    expect_parts(&rt, &rt, TIMERS)
}

/// "Every subscription whose expiry is below the instant is deleted", behind the notices of the
/// move.
const EXPIRIES: &[Parts<'_>] = &[
    (
        &[
            SOURCE,
            TIMED,
            "START 5 EXPIRE 5",
            DOT,
            PUT_95,
            "clock 6\n",
            "delete w\n",
        ],
        &[
            "1 ok\n2 ok\n3 ok\n4 ok\nnotice w 5\n",
            GAIN_95,
            "expired w\n5 refused 9 no-name\n",
        ],
    ),
    (
        &[SOURCE, TIMED, "EXPIRE 4 START 5", DOT],
        &["1 ok\n2 refused 14 times\n"],
    ),
    // Below now, and at now.
    (
        &[
            SOURCE,
            "clock 5\n",
            TIMED,
            "EXPIRE 4",
            DOT,
            TIMED,
            "START 1 EXPIRE 5",
            DOT,
        ],
        &["1 ok\n2 ok\n3 refused 14 times\n4 ok\n"],
    ),
    // At its expiry a subscription is live. Its name is free behind it, and its old answers are
    // told anew.
    (
        &[
            SOURCE,
            TIMED,
            "EXPIRE 5",
            DOT,
            "clock 5\n",
            PUT_95,
            "clock 6\n",
            PUT_96,
            WATCH,
        ],
        &[
            "1 ok\n2 ok\n3 ok\n4 ok\nnotice w 5\n",
            GAIN_95,
            "5 ok\nexpired w\n6 ok\n7 ok\nnotice w 6\n",
            GAIN_96,
        ],
    ),
    // They stand in the order of their creates, and not in that of their expiries.
    (
        &[
            SOURCE,
            CREATE,
            "b",
            SYMBOLS,
            "EXPIRE 3",
            DOT,
            CREATE,
            "c",
            SYMBOLS,
            "EXPIRE 4",
            DOT,
            CREATE,
            "a",
            SYMBOLS,
            "EXPIRE 2",
            DOT,
            "clock 4\n",
        ],
        &["1 ok\n2 ok\n3 ok\n4 ok\n5 ok\nexpired b\nexpired a\n"],
    ),
];

/// A deleted subscription is told nothing more, and a later one of its name begins anew.
const DELETES: &[Parts<'_>] = &[
    (
        &[SOURCE, WATCH, PUT_95, "delete w\n", PUT_96, WATCH, DELETE],
        &[
            "1 ok\n2 ok\n3 ok\n",
            TOLD_95,
            "4 ok\n5 ok\n6 ok\nnotice w 0\n",
            GAIN_96,
            "7 ok\nnotice w 0\nlose 1\n(Quote\n(Symbol\n-INTC\n)Symbol\n(Price\n-96\n)Price\n\
             )Quote\nend\n",
        ],
    ),
    (
        &[
            SOURCE,
            TIMED,
            "EVERY 2",
            DOT,
            PUT_95,
            "delete w\n",
            "clock 9\n",
        ],
        &["1 ok\n2 ok\n3 ok\n4 ok\n5 ok\n"],
    ),
    // Another subscription is told as ever.
    (
        &[
            SOURCE,
            CREATE,
            "v",
            SYMBOLS,
            DOT,
            WATCH,
            PUT_95,
            "delete v\n",
            PUT_96,
            DELETE,
        ],
        &[
            "1 ok\n2 ok\n3 ok\n4 ok\nnotice v 0\ngain 1\n-INTC\nend\n",
            TOLD_95,
            "5 ok\n6 ok\n",
            TOLD_96,
            "7 ok\nnotice w 0\nlose 1\n(Quote\n(Symbol\n-INTC\n)Symbol\n(Price\n-96\n)Price\n\
             )Quote\nend\n",
        ],
    ),
    (
        &[SOURCE, PUT_95, WATCH, DELETE, "delete w\n"],
        &["1 ok\n2 ok\n3 ok\n", TOLD_95, "4 ok\n", LOST_95, "5 ok\n"],
    ),
];

#[test]
fn a_subscription_is_live_up_to_its_end(rt: HostRuntime) -> Result<(), Fail> {
    expect_parts(&rt, &rt, EXPIRIES)?;
    expect_parts(&rt, &rt, DELETES)
}

/// "The notices of one command stand by instant, then by install number."
const ORDERS: &[Parts<'_>] = &[
    (
        &[
            SOURCE,
            PUT_A,
            CREATE,
            "c",
            SYMBOLS,
            "START 7",
            DOT,
            CREATE,
            "b",
            SYMBOLS,
            "START 5",
            DOT,
            CREATE,
            "a",
            SYMBOLS,
            "START 5",
            DOT,
            "clock 7\n",
        ],
        &[
            "1 ok\n2 ok\n3 ok\n4 ok\n5 ok\n6 ok\n",
            "notice b 5\ngain 1\n-A\nend\n",
            "notice a 5\ngain 1\n-A\nend\n",
            "notice c 7\ngain 1\n-A\nend\n",
        ],
    ),
    // A name that is created anew stands behind the others.
    (
        &[
            SOURCE,
            CREATE,
            "b",
            SYMBOLS,
            DOT,
            CREATE,
            "a",
            SYMBOLS,
            DOT,
            "delete b\n",
            CREATE,
            "b",
            SYMBOLS,
            DOT,
            PUT_A,
        ],
        &[
            "1 ok\n2 ok\n3 ok\n4 ok\n5 ok\n6 ok\n",
            "notice a 0\ngain 1\n-A\nend\n",
            "notice b 0\ngain 1\n-A\nend\n",
        ],
    ),
];

#[test]
fn notices_stand_by_instant_and_create(rt: HostRuntime) -> Result<(), Fail> {
    expect_parts(&rt, &rt, ORDERS)
}
