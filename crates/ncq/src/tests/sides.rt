//! Joins whose two sides are elements of one source, so that one change has rows of both, worked
//! out by hand.
//!
//! An element is on the left or on the right by its tag, and has a key `k` and a letter `n`. What
//! is told names the two letters: `+2ab;` is the gain of two rows of `a` with `b`.

use super::{expect_output, joined, push_notice};
use std::alloc::AllocError;
use std::test::Fail;

const SOURCE: &str = "source s root S key @id\n";

/// Puts on the left. The first two have equal rows.
const LA: &str = "(L\nAid La\nAk 1\nAn a\n)L\n";

const LA_AGAIN: &str = "(L\nAid Lx\nAk 1\nAn a\n)L\n";

const LB: &str = "(L\nAid Lb\nAk 1.0\nAn b\n)L\n";

const LC: &str = "(L\nAid Lc\nAk 2\nAn c\n)L\n";

const LD: &str = "(L\nAid Ld\nAk x\nAn d\n)L\n";

/// `LA` with another key.
const LA_WITH_2: &str = "(L\nAid La\nAk 2\nAn a\n)L\n";

/// Puts on the right.
const RA: &str = "(R\nAid Ra\nAk 1\nAn a\n)R\n";

const RB: &str = "(R\nAid Rb\nAk 1.0\nAn b\n)R\n";

const RC: &str = "(R\nAid Rc\nAk 2\nAn c\n)R\n";

const RD: &str = "(R\nAid Rd\nAk x\nAn d\n)R\n";

const RE: &str = "(R\nAid Re\nAk +02.00\nAn e\n)R\n";

const RF: &str = "(R\nAid Rf\nAk x \nAn f\n)R\n";

/// Joins that compare nothing, the key, and both the key and the letter; and one whose sides are
/// the same.
const NO_PAIRS: &str =
    "create j WHERE <S><L k=$k n=$a/><R k=$l n=$b/></> IN s CONSTRUCT <p>$a $b</> DO print\n.\n";

const ONE_PAIR: &str =
    "create j WHERE <S><L k=$k n=$a/><R k=$k n=$b/></> IN s CONSTRUCT <p>$a $b</> DO print\n.\n";

const TWO_PAIRS: &str =
    "create j WHERE <S><L k=$k n=$a/><R k=$k n=$a/></> IN s CONSTRUCT <p>$a $a</> DO print\n.\n";

const OWN: &str =
    "create j WHERE <S><L k=$k n=$a/><L k=$k n=$b/></> IN s CONSTRUCT <p>$a $b</> DO print\n.\n";

/// A join, the items of two deltas, and what is told: all that there is behind the first, what the
/// second changes, and all that there is behind both.
type Row = (
    &'static str,
    &'static [&'static str],
    &'static [&'static str],
    &'static str,
    &'static str,
    &'static str,
);

const ROWS: &[Row] = &[
    // A row comes on the left, on the right, and on both. A number is the same however spelled.
    (
        ONE_PAIR,
        &[LA, RE, RB],
        &[LC],
        "+1ab;",
        "+1ce;",
        "+1ab;+1ce;",
    ),
    (ONE_PAIR, &[LA, RC], &[RB], "", "+1ab;", "+1ab;"),
    (ONE_PAIR, &[], &[LA, RB], "", "+1ab;", "+1ab;"),
    // A row goes on the left, on the right, and on both.
    (ONE_PAIR, &[LA, RB], &["!La\n"], "+1ab;", "-1ab;", ""),
    (ONE_PAIR, &[LA, RB], &["!Rb\n"], "+1ab;", "-1ab;", ""),
    (
        ONE_PAIR,
        &[LA, RB],
        &["!La\n", "!Rb\n"],
        "+1ab;",
        "-1ab;",
        "",
    ),
    // One goes where the other comes: the two never meet.
    (ONE_PAIR, &[LA], &["!La\n", RB], "", "", ""),
    (ONE_PAIR, &[RB], &[LA, "!Rb\n"], "", "", ""),
    // Equal rows count, and each match is joined.
    (ONE_PAIR, &[LA, LA_AGAIN], &[RB], "", "+2ab;", "+2ab;"),
    (ONE_PAIR, &[RA, RB], &[LA], "", "+1aa;+1ab;", "+1aa;+1ab;"),
    // A text is the same by its bytes alone.
    (ONE_PAIR, &[LD], &[RF, RD], "", "+1dd;", "+1dd;"),
    // An element that changes goes and comes.
    (
        ONE_PAIR,
        &[LA, RB, RC],
        &[LA_WITH_2],
        "+1ab;",
        "-1ab;+1ac;",
        "+1ac;",
    ),
    // Without pairs each row meets each; with two, both slots have to be the same.
    (NO_PAIRS, &[LA, RD], &[LC], "+1ad;", "+1cd;", "+1ad;+1cd;"),
    (TWO_PAIRS, &[LA], &[RB, RA], "", "+1aa;", "+1aa;"),
    // The same where one scan is both sides.
    (
        OWN,
        &[LA],
        &[LB],
        "+1aa;",
        "+1ab;+1ba;+1bb;",
        "+1aa;+1ab;+1ba;+1bb;",
    ),
    (
        OWN,
        &[LA, LB],
        &["!Lb\n"],
        "+1aa;+1ab;+1ba;+1bb;",
        "-1ab;-1ba;-1bb;",
        "+1aa;",
    ),
    (OWN, &[LC, LA], &["!La\n"], "+1aa;+1cc;", "-1aa;", "+1cc;"),
    (
        OWN,
        &[LA, LB, LC],
        &[LA_WITH_2],
        "+1aa;+1ab;+1ba;+1bb;+1cc;",
        "-1ab;+1ac;-1ba;+1ca;",
        "+1aa;+1ac;+1bb;+1ca;+1cc;",
    ),
];

/// A delta of these items.
fn push_delta(items: &[&str], out: &mut Vec<u8>) -> Result<(), AllocError> {
    out.extend_from_slice(b"delta s\n")?;
    for item in items {
        out.extend_from_slice(item.as_bytes())?;
    }
    out.extend_from_slice(b".\n")
}

/// A join that is there before both changes is told each.
#[test]
fn a_join_is_told_what_both_sides_make(rt: HostRuntime) -> Result<(), Fail> {
    let alloc = rt.alloc();
    for (join, first, second, before, change, _) in ROWS {
        let mut script = joined(alloc, &[SOURCE, *join])?;
        push_delta(first, &mut script)?;
        push_delta(second, &mut script)?;
        let mut want = joined(alloc, &["1 ok\n2 ok\n3 ok\n"])?;
        push_notice(b"notice j 0\n", before, &mut want)?;
        want.extend_from_slice(b"4 ok\n")?;
        push_notice(b"notice j 0\n", change, &mut want)?;
        expect_output(&rt, &rt, &script, &want, "")?;
    }
    Ok(())
}

/// A join that comes between the two is told all at its create, and then the second.
#[test]
fn a_join_over_one_change_is_told_the_next(rt: HostRuntime) -> Result<(), Fail> {
    let alloc = rt.alloc();
    for (join, first, second, before, change, _) in ROWS {
        let mut script = joined(alloc, &[SOURCE])?;
        push_delta(first, &mut script)?;
        script.extend_from_slice(join.as_bytes())?;
        push_delta(second, &mut script)?;
        let mut want = joined(alloc, &["1 ok\n2 ok\n3 ok\n"])?;
        push_notice(b"notice j 0\n", before, &mut want)?;
        want.extend_from_slice(b"4 ok\n")?;
        push_notice(b"notice j 0\n", change, &mut want)?;
        expect_output(&rt, &rt, &script, &want, "")?;
    }
    Ok(())
}

/// A join that comes behind both is told all.
#[test]
fn a_join_behind_two_changes_tells_all(rt: HostRuntime) -> Result<(), Fail> {
    let alloc = rt.alloc();
    for (join, first, second, _, _, after) in ROWS {
        let mut script = joined(alloc, &[SOURCE])?;
        push_delta(first, &mut script)?;
        push_delta(second, &mut script)?;
        script.extend_from_slice(join.as_bytes())?;
        let mut want = joined(alloc, &["1 ok\n2 ok\n3 ok\n4 ok\n"])?;
        push_notice(b"notice j 0\n", after, &mut want)?;
        expect_output(&rt, &rt, &script, &want, "")?;
    }
    Ok(())
}
