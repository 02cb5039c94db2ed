//! Statements whose patterns lead along paths.

use super::statements::{Repeated, answer, expect_behind, expect_kinds};
use super::{Pair, expect_bytes, joined};
use std::alloc::{AllocError, Global};
use std::process::Abort;
use std::test::Fail;

/// The statement with these arms as a text; `none` stands alone.
fn wanted(alloc: Global, arms: &str) -> Result<Vec<u8>, AllocError> {
    if arms == "none" {
        return joined(alloc, &[arms]);
    }
    joined(alloc, &["w: R(", arms, ") in q; -> $n do x every 0"])
}

/// Compares the answer to the statement whose match has the arms.
fn expect_arms(rt: &impl Abort, alloc: Global, arms: &str, want: &str) -> Result<(), AllocError> {
    let text = joined(
        alloc,
        &["create w where <R>", arms, "</> in q construct $n do x"],
    )?;
    let got = answer(alloc, &text)?;
    let expected = wanted(alloc, want)?;
    expect_bytes(rt, &got, &expected, arms);
    Ok(())
}

/// Each row is the arms of a statement, and those arms as they are shown, or `none`.
fn expect_all(rt: &impl Abort, alloc: Global, rows: &[Pair]) -> Result<(), AllocError> {
    for (arms, want) in rows {
        expect_arms(rt, alloc, arms, want)?;
    }
    Ok(())
}

const PATHS: &[Pair] = &[
    ("<part+>$n</>", "<part+=$n>"),
    ("<(part|part)+>$n</>", "<(part|part)+=$n>"),
    (
        "<part><part*><name>$n</></></>",
        "<part(<part*(<name=$n>)>)>",
    ),
    ("<(part|a)*.name>$n</>", "<(part|a)*.name=$n>"),
    ("<a.(b|c)* k=$n/><(d)/>", "<a.(b|c)* k=$n()><d()>"),
    ("< (a/>", "none"),
    ("<a**/>", "none"),
    ("<a+*/>", "none"),
    ("<(a/>", "none"),
    ("<a)/>", "none"),
    ("<a./>", "none"),
    ("<.a/>", "none"),
    ("<a..b/>", "none"),
    ("<|a/>", "none"),
    ("<a|/>", "none"),
    ("<()/>", "none"),
    ("<*/>", "none"),
    ("<a.1/>", "none"),
    ("<a k.b=$n/>", "none"),
];

#[test]
fn patterns_have_paths(rt: HostRuntime) -> Result<(), Fail> {
    expect_all(&rt, rt.alloc(), PATHS)?;
    Ok(())
}

const LISTS_AND_BRACKETS: &[Pair] = &[
    ("<((a.b).c)/>", "<a.b.c()>"),
    ("<a.(b.c).d/>", "<a.b.c.d()>"),
    ("<a|(b|c).d|(e|f)/>", "<a|(b|c).d|e|f()>"),
    ("<(a|b).(c)/>", "<(a|b).c()>"),
    ("<((a))+ k=$n/>", "<a+ k=$n()>"),
    ("<(a+)*/>", "<(a+)*()>"),
    ("<(a.b)*|c/>", "<(a.b)*|c()>"),
    ("<a . b | c *  k = $n />", "<a.b|c* k=$n()>"),
];

#[test]
fn lists_are_joined_and_brackets_left_out(rt: HostRuntime) -> Result<(), Fail> {
    expect_all(&rt, rt.alloc(), LISTS_AND_BRACKETS)?;
    Ok(())
}

const ENDS: &[Pair] = &[
    ("<part>$n</part>", "<part=$n>"),
    ("<(part)>$n</part>", "<part=$n>"),
    ("<part>$n</(part)>", "none"),
    ("<part>$n</part+>", "none"),
    ("<part+>$n</part>", "none"),
    ("<part+>$n</part+>", "none"),
    ("<a.b>$n</a>", "none"),
    ("<a.b>$n</b>", "none"),
    ("<a|b>$n</a>", "none"),
    ("<a*><b>$n</b></>", "<a*(<b=$n>)>"),
];

#[test]
fn an_end_has_the_name_of_a_path_that_is_a_name(rt: HostRuntime) -> Result<(), Fail> {
    expect_all(&rt, rt.alloc(), ENDS)?;
    Ok(())
}

const ELSEWHERE: &[Pair] = &[
    (
        ", <S><b+/></S> in r construct <t>$x</t> do x",
        "S(<b+()>) in r; -> <t($x)> do x every 0",
    ),
    (", <S+><b+/></> in r construct <t>$x</t> do x", "none"),
    (", <(S)><b+/></> in r construct <t>$x</t> do x", "none"),
    (", <S><b+/></S> in r construct <t+>$x</> do x", "none"),
    (", <S><b+/></S> in r construct <(t)>$x</> do x", "none"),
    (", <S><b+/></S> in r construct <t><u.v/></t> do x", "none"),
];

#[test]
fn roots_and_templates_have_none(rt: HostRuntime) -> Result<(), Fail> {
    expect_behind(
        &rt,
        rt.alloc(),
        "create w where <R><a/></> in q",
        "w: R(<a()>) in q; ",
        ELSEWHERE,
    )?;
    Ok(())
}

const END: &str = "/></> in q construct $n do x";

const LIMITS: &[(Repeated, &str)] = &[
    (
        ("create w where <R><a", (".a", ""), 31, ("", END)),
        "statement",
    ),
    (
        ("create w where <R><a", (".a", ""), 32, ("", END)),
        "limit path",
    ),
    (
        ("create w where <R><a", ("|(a.a)*", ""), 16, ("", END)),
        "limit path",
    ),
    (
        (
            "create w where <R><a",
            (".a", ", $x = 1"),
            32,
            ("/></> in q", " construct $x do x"),
        ),
        "limit path",
    ),
    (
        (
            "create w where <R><a",
            (".a", ", $x = 1"),
            33,
            ("/></> in q", " construct $x do x"),
        ),
        "limit conditions",
    ),
    (
        ("create w where <R><", ("(", ")"), 30, ("a", END)),
        "statement",
    ),
    (
        ("create w where <R><", ("(", ")"), 31, ("a", END)),
        "limit pattern",
    ),
    (
        ("create w where <R><a.b", ("/><(b)", ""), 7, ("", END)),
        "statement",
    ),
    (("<", ("(", ""), 31, ("", "")), "none"),
    (("<", ("(", ""), 32, ("", "")), "limit pattern"),
];

#[test]
fn paths_have_limits(rt: HostRuntime) -> Result<(), Fail> {
    expect_kinds(&rt, rt.alloc(), LIMITS)?;
    Ok(())
}
