//! Selections by intervals of one slot of one scan, which share their rows.
//!
//! Each element of the source has a letter and a value, and what is told names the letters.

use super::{Parts, expect_parts};
use std::test::Fail;

const LETTERS: &str = "source s root Es key @id\n";

const TEN: &str =
    "create ten WHERE <Es><E id=$i v=$v/></> IN s, $v > 10 CONSTRUCT $i DO print\n.\n";

const TWENTY: &str =
    "create twenty WHERE <Es><E id=$i v=$v/></> IN s, $v > 20 CONSTRUCT $i DO print\n.\n";

const LOW: &str =
    "create low WHERE <Es><E id=$i v=$v/></> IN s, $v >= 1, $v <= 10 CONSTRUCT $i DO print\n.\n";

const MID: &str =
    "create mid WHERE <Es><E id=$i v=$v/></> IN s, $v > 4, $v < 20 CONSTRUCT $i DO print\n.\n";

const SLOW: &str =
    "create slow WHERE <Es><E id=$i v=$v/></> IN s, $v > 10 CONSTRUCT $i DO print EVERY 10\n.\n";

const ABOVE_0: &str =
    "create above WHERE <Es><E id=$i v=$v/></> IN s, $v > 0 CONSTRUCT $i DO print\n.\n";

const NEAR: &str =
    "create near WHERE <Es><E id=$i v=$v/><E id=$j v=$v/></> IN s, $v > 10, $v < 20, $i != $j \
     CONSTRUCT <p>$i $j</> DO print\n.\n";

const FAR: &str = "create far WHERE <Es><E id=$i v=$v/><E id=$j v=$v/></> IN s, $v > 12, $i != $j \
     CONSTRUCT <p>$i $j</> DO print\n.\n";

const SHARED: &[Parts<'_>] = &[
    // A row that both intervals have is told to both; one at an end is told to those that have it.
    (
        &[
            LETTERS,
            TEN,
            TWENTY,
            "delta s\n(E\nAid a\nAv 30\n)E\n.\n",
            "delta s\n(E\nAid b\nAv 10\n)E\n(E\nAid c\nAv 20\n)E\n(E\nAid d\nAv 20.000001\n)E\n.\n",
            "delta s\n(E\nAid a\nAv 20\n)E\n!d\n.\n",
        ],
        &[
            "1 ok\n2 ok\n3 ok\n",
            "4 ok\nnotice ten 0\ngain 1\n-a\nend\nnotice twenty 0\ngain 1\n-a\nend\n",
            "5 ok\nnotice ten 0\ngain 1\n-c\ngain 1\n-d\nend\nnotice twenty 0\ngain 1\n-d\nend\n",
            "6 ok\nnotice ten 0\nlose 1\n-d\nend\n",
            "notice twenty 0\nlose 1\n-a\nlose 1\n-d\nend\n",
        ],
    ),
    // An interval comes over rows that another has, and goes; each keeps its own.
    (
        &[
            LETTERS,
            LOW,
            "delta s\n(E\nAid a\nAv 1\n)E\n(E\nAid b\nAv 5\n)E\n(E\nAid c\nAv 12\n)E\n(E\nAid d\n\
             Av ab\n)E\n.\n",
            MID,
            "delete low\n",
            "delta s\n(E\nAid b\nAv 3\n)E\n.\n",
            // What went with the interval is there again.
            LOW,
            "delta s\n(E\nAid c\nAv 2\n)E\n.\n",
            "delete mid\ndelete low\n",
            MID,
            "delta s\n(E\nAid e\nAv 10\n)E\n(E\nAid a\nAv 4\n)E\n.\n",
        ],
        &[
            "1 ok\n2 ok\n3 ok\nnotice low 0\ngain 1\n-a\ngain 1\n-b\nend\n",
            "4 ok\nnotice mid 0\ngain 1\n-b\ngain 1\n-c\nend\n5 ok\n",
            "6 ok\nnotice mid 0\nlose 1\n-b\nend\n",
            "7 ok\nnotice low 0\ngain 1\n-a\ngain 1\n-b\nend\n",
            "8 ok\nnotice mid 0\nlose 1\n-c\nend\nnotice low 0\ngain 1\n-c\nend\n",
            "9 ok\n10 ok\n11 ok\n12 ok\nnotice mid 0\ngain 1\n-e\nend\n",
        ],
    ),
    // A timer is told what changed since its own last firing, whatever came and went meanwhile.
    (
        &[
            LETTERS,
            "delta s\n(E\nAid a\nAv 15\n)E\n.\n",
            SLOW,
            "delta s\n(E\nAid b\nAv 30\n)E\n(E\nAid c\nAv 5\n)E\n.\n",
            ABOVE_0,
            "delta s\n(E\nAid a\nAv 7\n)E\n.\n",
            "delete above\n",
            "clock 10\n",
        ],
        &[
            "1 ok\n2 ok\n3 ok\nnotice slow 0\ngain 1\n-a\nend\n4 ok\n",
            "5 ok\nnotice above 0\ngain 1\n-a\ngain 1\n-b\ngain 1\n-c\nend\n6 ok\n7 ok\n",
            "8 ok\nnotice slow 10\nlose 1\n-a\ngain 1\n-b\nend\n",
        ],
    ),
];

#[test]
fn intervals_share_their_rows(rt: HostRuntime) -> Result<(), Fail> {
    expect_parts(&rt, &rt, SHARED)
}

/// The pairs of letters with one value of an interval: joins of an interval's rows with the scan.
const JOINED: &[Parts<'_>] = &[(
    &[
        LETTERS,
        NEAR,
        FAR,
        "delta s\n(E\nAid a\nAv 15\n)E\n(E\nAid b\nAv 15\n)E\n(E\nAid c\nAv 11\n)E\n(E\nAid d\n\
         Av 11\n)E\n.\n",
        "delta s\n(E\nAid c\nAv 15\n)E\n.\n",
        "delete near\n",
        "delta s\n!b\n.\n",
        NEAR,
        "delta s\n(E\nAid d\nAv 13\n)E\n(E\nAid b\nAv 13\n)E\n.\n",
    ],
    &[
        "1 ok\n2 ok\n3 ok\n4 ok\n",
        "notice near 0\ngain 1\n(p\n-ab\n)p\ngain 1\n(p\n-ba\n)p\ngain 1\n(p\n-cd\n)p\ngain 1\n(p\n\
         -dc\n)p\nend\n",
        "notice far 0\ngain 1\n(p\n-ab\n)p\ngain 1\n(p\n-ba\n)p\nend\n",
        "5 ok\nnotice near 0\ngain 1\n(p\n-ac\n)p\ngain 1\n(p\n-bc\n)p\ngain 1\n(p\n-ca\n)p\n\
         gain 1\n(p\n-cb\n)p\nlose 1\n(p\n-cd\n)p\nlose 1\n(p\n-dc\n)p\nend\n",
        "notice far 0\ngain 1\n(p\n-ac\n)p\ngain 1\n(p\n-bc\n)p\ngain 1\n(p\n-ca\n)p\n\
         gain 1\n(p\n-cb\n)p\nend\n",
        "6 ok\n7 ok\nnotice far 0\nlose 1\n(p\n-ab\n)p\nlose 1\n(p\n-ba\n)p\nlose 1\n(p\n-bc\n)p\n\
         lose 1\n(p\n-cb\n)p\nend\n",
        "8 ok\nnotice near 0\ngain 1\n(p\n-ac\n)p\ngain 1\n(p\n-ca\n)p\nend\n",
        "9 ok\nnotice far 0\ngain 1\n(p\n-bd\n)p\ngain 1\n(p\n-db\n)p\nend\n",
        "notice near 0\ngain 1\n(p\n-bd\n)p\ngain 1\n(p\n-db\n)p\nend\n",
    ],
)];

#[test]
fn joins_read_the_rows_of_an_interval(rt: HostRuntime) -> Result<(), Fail> {
    expect_parts(&rt, &rt, JOINED)
}
