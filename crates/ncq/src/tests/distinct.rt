//! DISTINCT: each forest of an answer counts once, so a notice has an entry only where the first of
//! a forest comes or the last goes.

use super::{Parts, SOURCE, expect_parts};
use std::test::Fail;

/// Installs the tags of quotes, each once.
const TAGS: &str = "create r WHERE <Quotes><Quote><Tag>$s</></></> IN quotes \
    CONSTRUCT DISTINCT <r>$s</> DO print\n.\n";

/// The same, told every ten instants.
const SLOW: &str = "create t WHERE <Quotes><Quote><Tag>$s</></></> IN quotes \
    CONSTRUCT DISTINCT <r>$s</> DO print EVERY 10\n.\n";

/// The same tags, each as often as it stands.
const ALL: &str = "create a WHERE <Quotes><Quote><Tag>$s</></></> IN quotes \
    CONSTRUCT <r>$s</> DO print\n.\n";

/// A quote A with the tag x twice, a quote A with it once, and a quote B with it.
const A_TWICE: &str = "(Quote\n(Symbol\n-A\n)Symbol\n(Tag\n-x\n)Tag\n(Tag\n-x\n)Tag\n)Quote\n";

const A_ONCE: &str = "(Quote\n(Symbol\n-A\n)Symbol\n(Tag\n-x\n)Tag\n)Quote\n";

const B_ONCE: &str = "(Quote\n(Symbol\n-B\n)Symbol\n(Tag\n-x\n)Tag\n)Quote\n";

/// Quotes with the tags y and z, and with z and x.
const C_OTHERS: &str = "(Quote\n(Symbol\n-C\n)Symbol\n(Tag\n-z\n)Tag\n(Tag\n-y\n)Tag\n)Quote\n";

const D_OTHERS: &str = "(Quote\n(Symbol\n-D\n)Symbol\n(Tag\n-z\n)Tag\n(Tag\n-x\n)Tag\n)Quote\n";

/// The first x comes, and the last goes.
const CAME: &str = "notice r 0\ngain 1\n(r\n-x\n)r\nend\n";

const WENT: &str = "notice r 0\nlose 1\n(r\n-x\n)r\nend\n";

/// Only the first and the last are told.
const FIRST_AND_LAST: &[Parts<'_>] = &[(
    &[
        SOURCE,
        TAGS,
        "delta quotes\n",
        A_TWICE,
        ".\ndelta quotes\n",
        B_ONCE,
        ".\ndelta quotes\n!A\n.\ndelta quotes\n!B\n.\n",
    ],
    &["1 ok\n2 ok\n3 ok\n", CAME, "4 ok\n5 ok\n6 ok\n", WENT],
)];

#[test]
fn the_first_of_a_forest_and_the_last_are_told(rt: HostRuntime) -> Result<(), Fail> {
    expect_parts(&rt, &rt, FIRST_AND_LAST)
}

/// What a delta does in all counts, and not its steps.
const WITHIN_ONE_DELTA: &[Parts<'_>] = &[
    // From one to two, to one and to none.
    (
        &[
            SOURCE,
            TAGS,
            "delta quotes\n",
            A_ONCE,
            ".\ndelta quotes\n",
            B_ONCE,
            "!A\n!B\n.\n",
        ],
        &["1 ok\n2 ok\n3 ok\n", CAME, "4 ok\n", WENT],
    ),
    // From none to one and back, and from one to none and back: nobody is told.
    (
        &[
            SOURCE,
            TAGS,
            "delta quotes\n",
            B_ONCE,
            "!B\n.\ndelta quotes\n",
            A_ONCE,
            ".\ndelta quotes\n!A\n",
            A_TWICE,
            ".\n",
        ],
        &["1 ok\n2 ok\n3 ok\n4 ok\n", CAME, "5 ok\n"],
    ),
    // Several forests, rising: y and z come, then z stays and y goes, and x comes.
    (
        &[
            SOURCE,
            TAGS,
            "delta quotes\n",
            C_OTHERS,
            ".\ndelta quotes\n!C\n",
            D_OTHERS,
            ".\n",
        ],
        &[
            "1 ok\n2 ok\n3 ok\nnotice r 0\ngain 1\n(r\n-y\n)r\ngain 1\n(r\n-z\n)r\nend\n",
            "4 ok\nnotice r 0\ngain 1\n(r\n-x\n)r\nlose 1\n(r\n-y\n)r\nend\n",
        ],
    ),
];

#[test]
fn what_a_delta_does_in_all_is_told(rt: HostRuntime) -> Result<(), Fail> {
    expect_parts(&rt, &rt, WITHIN_ONE_DELTA)
}

/// A timer is told what came first and went last since its previous firing.
const TIMER: &[Parts<'_>] = &[(
    &[
        SOURCE,
        SLOW,
        "delta quotes\n",
        A_TWICE,
        ".\nclock 10\ndelta quotes\n",
        B_ONCE,
        "!A\n.\nclock 20\ndelta quotes\n!B\n.\nclock 25\ndelta quotes\n",
        A_ONCE,
        ".\nclock 30\ndelta quotes\n!A\n.\nclock 40\n",
    ],
    &[
        "1 ok\n2 ok\n3 ok\n4 ok\nnotice t 10\ngain 1\n(r\n-x\n)r\nend\n",
        "5 ok\n6 ok\n7 ok\n8 ok\n9 ok\n10 ok\n",
        "11 ok\n12 ok\nnotice t 40\nlose 1\n(r\n-x\n)r\nend\n",
    ],
)];

#[test]
fn a_timer_is_told_what_is_distinct_since_it_fired(rt: HostRuntime) -> Result<(), Fail> {
    expect_parts(&rt, &rt, TIMER)
}

/// Those that ask for all, for what is distinct, and for that every ten instants have one file, and
/// each has counts of its own.
const TOGETHER: &[Parts<'_>] = &[(
    &[
        SOURCE,
        ALL,
        TAGS,
        SLOW,
        "delta quotes\n",
        A_TWICE,
        ".\ndelta quotes\n!A\n.\nclock 10\ndelta quotes\n",
        B_ONCE,
        ".\nclock 20\n",
    ],
    &[
        "1 ok\n2 ok\n3 ok\n4 ok\n5 ok\nnotice a 0\ngain 2\n(r\n-x\n)r\nend\n",
        CAME,
        "6 ok\nnotice a 0\nlose 2\n(r\n-x\n)r\nend\n",
        WENT,
        "7 ok\n8 ok\nnotice a 10\ngain 1\n(r\n-x\n)r\nend\n",
        "notice r 10\ngain 1\n(r\n-x\n)r\nend\n",
        "9 ok\nnotice t 20\ngain 1\n(r\n-x\n)r\nend\n",
    ],
)];

#[test]
fn each_subscription_has_counts_of_its_own(rt: HostRuntime) -> Result<(), Fail> {
    expect_parts(&rt, &rt, TOGETHER)
}

/// The other actions tell the same entries.
const ACTIONS: &[Parts<'_>] = &[(
    &[
        SOURCE,
        "create n WHERE <Quotes><Quote><Tag>$s</></></> IN quotes \
         CONSTRUCT distinct $s DO count\n.\n",
        "create m WHERE <Quotes><Quote><Tag>$s</></></> IN quotes \
         CONSTRUCT Distinct $s DO mailto \"ops desk\"\n.\n",
        "delta quotes\n",
        A_TWICE,
        C_OTHERS,
        ".\ndelta quotes\n!C\n",
        B_ONCE,
        ".\n",
    ],
    &[
        "1 ok\n2 ok\n3 ok\n4 ok\ncount n 0 gain 3 lose 0\n",
        "mail m 0 ops desk\ngain 1\n-x\ngain 1\n-y\ngain 1\n-z\nend\n",
        "5 ok\ncount n 0 gain 0 lose 2\n",
        "mail m 0 ops desk\nlose 1\n-y\nlose 1\n-z\nend\n",
    ],
)];

#[test]
fn counts_and_mails_tell_what_is_distinct(rt: HostRuntime) -> Result<(), Fail> {
    expect_parts(&rt, &rt, ACTIONS)
}

/// A query that is deleted and left again under its name begins anew: it is told each forest once.
const ANEW: &[Parts<'_>] = &[(
    &[
        SOURCE,
        TAGS,
        "delta quotes\n",
        A_TWICE,
        B_ONCE,
        ".\ndelete r\n",
        TAGS,
        "delta quotes\n!A\n.\ndelta quotes\n!B\n.\n",
    ],
    &[
        "1 ok\n2 ok\n3 ok\n",
        CAME,
        "4 ok\n5 ok\n",
        CAME,
        "6 ok\n7 ok\n",
        WENT,
    ],
)];

#[test]
fn a_query_that_is_left_again_counts_anew(rt: HostRuntime) -> Result<(), Fail> {
    expect_parts(&rt, &rt, ANEW)
}
