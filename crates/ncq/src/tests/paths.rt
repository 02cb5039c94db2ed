//! Paths over tags: a pattern is found in each element that its path leads to, and each element
//! counts once.

use super::{Parts, expect_output, expect_parts, joined, push_notice};
use std::alloc::{AllocError, Global};
use std::process::Abort;
use std::test::Fail;

/// Declares the source `parts`. The key of its elements is their attribute `id`.
const SOURCE: &str = "source parts root Parts key @id\n";

/// What the query `q` has before its patterns, and behind them.
const ASK: &str = "create q WHERE <Parts>";

const TELL: &str = "</> IN \"parts\" CONSTRUCT <p>$n</> DO print\n.\n";

/// A part k of the name y, in which a part j of the name x lies; and the same with z in place of x.
const X_IN_Y: &str = "delta parts\n(part\nAid k\n(part\nAid j\n(name\n-x\n)name\n)part\n\
    (name\n-y\n)name\n)part\n.\n";

const Z_IN_Y: &str = "delta parts\n(part\nAid k\n(part\nAid j\n(name\n-z\n)name\n)part\n\
    (name\n-y\n)name\n)part\n.\n";

/// Patterns beside what is told of x in y.
const FOUND: &[(&str, &str)] = &[
    ("<part+><name>$n</></>", "+1x;+1y;"),
    // Two ways to an element count once.
    ("<(part|part)+><name>$n</></>", "+1x;+1y;"),
    ("<part><part*.part*><name>$n</></></>", "+1x;+1y;"),
    // By no tag at all a part is found at the element of its pattern, and a pattern under the root
    // nowhere.
    ("<part><part*><name>$n</></></>", "+1x;+1y;"),
    ("<part><(part|a)*.name>$n</></>", "+1x;+1y;"),
    ("<part><a* id=$n/></>", "+1k;"),
    ("<part*><name>$n</></>", "+1x;+1y;"),
    ("<a*>$n</>", ""),
    // A name, and names in brackets and in order.
    ("<part><name>$n</></>", "+1y;"),
    ("<(part)><name>$n</></>", "+1y;"),
    ("<part.part><name>$n</></>", "+1x;"),
    ("<(part.part)+><name>$n</></>", "+1x;"),
    ("<part|a><name>$n</></>", "+1y;"),
    ("<a|part><name>$n</></>", "+1y;"),
    ("<part><part.name|name>$n</></>", "+1x;+1y;"),
    ("<part><part+><name>$n</></></>", "+1x;"),
    // A path under a path, attributes, two patterns, and a join of them.
    ("<part+><(part|a)+><name>$n</></></>", "+1x;"),
    ("<part+ id=$n/>", "+1j;+1k;"),
    ("<part.part/><part+><name>$n</></>", "+1x;+1y;"),
    ("<part+ id=$i><name>$n</></><part id=$i/>", "+1y;"),
];

/// What is told of a delta to whom asks for this pattern.
fn expect_found(
    rt: &impl Abort,
    host: &HostRuntime,
    delta: &[u8],
    pattern: &str,
    told: &str,
) -> Result<(), Fail> {
    let alloc = host.alloc();
    let mut script = joined(alloc, &[SOURCE, ASK, pattern, TELL])?;
    script.extend_from_slice(delta)?;
    let mut want = joined(alloc, &["1 ok\n2 ok\n3 ok\n"])?;
    push_notice(b"notice q 0\n", told, &mut want)?;
    expect_output(rt, host, &script, &want, pattern)
}

#[test]
fn a_pattern_is_found_where_its_path_leads(rt: HostRuntime) -> Result<(), Fail> {
    for (pattern, told) in FOUND {
        expect_found(&rt, &rt, X_IN_Y.as_bytes(), pattern, told)?;
    }
    Ok(())
}

/// An element `b` of the text x in so many elements `a`, each in the one before.
fn nested(alloc: Global, depth: usize) -> Result<Vec<u8>, AllocError> {
    let mut delta = joined(alloc, &["delta parts\n(a\nAid k\n"])?;
    for _ in 1..depth {
        delta.extend_from_slice(b"(a\n")?;
    }
    delta.extend_from_slice(b"(b\n-x\n)b\n")?;
    close(depth, &mut delta)?;
    Ok(delta)
}

/// The ends of so many elements `a`, and of the block.
fn close(depth: usize, delta: &mut Vec<u8>) -> Result<(), AllocError> {
    for _ in 0..depth {
        delta.extend_from_slice(b")a\n")?;
    }
    delta.extend_from_slice(b".\n")
}

#[test]
fn a_path_leads_to_the_greatest_depth(rt: HostRuntime) -> Result<(), Fail> {
    let delta = nested(rt.alloc(), 511)?;
    expect_found(&rt, &rt, &delta, "<a+.b>$n</>", "+1x;")?;
    expect_found(&rt, &rt, &delta, "<a><(a|c)*.b>$n</></>", "+1x;")?;
    Ok(())
}

/// Eight names of a path, and one `|` more.
const EIGHT: &str = "a|a|a|a|a|a|a|a|";

/// What is refused, a report, and what changes are told.
const ANSWERED: &[Parts<'_>] = &[
    // The end of a path has no name.
    (
        &[SOURCE, ASK, "<part+><name>$n</></part>", TELL],
        &["1 ok\n2 refused 10 query\n"],
    ),
    // 33 names are too many; 32 are not, and the last of them leads to y.
    (
        &[
            SOURCE,
            ASK,
            "<",
            EIGHT,
            EIGHT,
            EIGHT,
            EIGHT,
            "part><name>$n</></>",
            TELL,
        ],
        &["1 ok\n2 refused 15 limit path\n"],
    ),
    (
        &[
            SOURCE,
            ASK,
            "<",
            EIGHT,
            EIGHT,
            EIGHT,
            "a|a|a|a|a|a|a|part><name>$n</></>",
            TELL,
            X_IN_Y,
        ],
        &["1 ok\n2 ok\n3 ok\nnotice q 0\ngain 1\n(p\n-y\n)p\nend\n"],
    ),
    // A report shows the path; the element at its end is told as a whole, as it changes.
    (
        &[
            SOURCE,
            ASK,
            "<part+><name/></> CONTENT_AS $n",
            TELL,
            "report\n",
            X_IN_Y,
            Z_IN_Y,
            "delta parts\n!k\n.\n",
        ],
        &[
            "1 ok\n2 ok\n3 ok\nqueries 1\nsources 1\nchanges 0\nfiles 1\ngroups 1\n",
            "group 0 scan(parts,part+(name)!c)\nend\n4 ok\nnotice q 0\n",
            "gain 1\n(p\n(name\n-x\n)name\n)p\n",
            "gain 1\n(p\n(part\nAid j\n(name\n-x\n)name\n)part\n(name\n-y\n)name\n)p\nend\n",
            "5 ok\nnotice q 0\n",
            "lose 1\n(p\n(name\n-x\n)name\n)p\ngain 1\n(p\n(name\n-z\n)name\n)p\n",
            "lose 1\n(p\n(part\nAid j\n(name\n-x\n)name\n)part\n(name\n-y\n)name\n)p\n",
            "gain 1\n(p\n(part\nAid j\n(name\n-z\n)name\n)part\n(name\n-y\n)name\n)p\nend\n",
            "6 ok\nnotice q 0\n",
            "lose 1\n(p\n(name\n-z\n)name\n)p\n",
            "lose 1\n(p\n(part\nAid j\n(name\n-z\n)name\n)part\n(name\n-y\n)name\n)p\nend\n",
        ],
    ),
    (
        &[SOURCE, ASK, "<part+><name>$n</></>", TELL, "report\n"],
        &[
            "1 ok\n2 ok\n3 ok\nqueries 1\nsources 1\nchanges 0\nfiles 1\ngroups 1\n",
            "group 0 scan(parts,part+(name=))\nend\n",
        ],
    ),
];

#[test]
fn paths_are_limited_and_shown(rt: HostRuntime) -> Result<(), Fail> {
    expect_parts(&rt, &rt, ANSWERED)
}
