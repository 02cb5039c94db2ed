//! Which files and groups stand while queries come and go, and what those that are left are told,
//! worked out by hand.
//!
//! Each letter is a plan. `Q` has the quotes and `C` the companies, `W` and `M` those quotes whose
//! symbol is INTC and MSFT, `N` and `D` those whose symbol is the number 1, spelled `1` and `1.0`,
//! and `R` those from 1 to below 10. `E` has those of `W` whose symbol is MSFT, `J` each row of `W`
//! followed by each of `C`, and `S` each row of `W` followed by each of `W`.

use super::{Outside, Parts, expect_end, expect_parts, in_pieces, joined, put};
use Turn::{Come, Go};
use ncq_run::Status;
use std::alloc::{AllocError, Global};
use std::test::Fail;

/// What is done.
#[derive(Clone, Copy)]
enum Turn {
    /// A query of this name and with the plan of this letter is created.
    Come(&'static str, u8),
    /// The query of this name is deleted.
    Go(&'static str),
}

/// A turn; how many queries, files and groups there are then; and the groups in the order of their
/// lines, each by its constants and the letter of one of its plans.
type Row = (Turn, u64, u64, u64, &'static str);

const RUNS: &[&[Row]] = &[
    // What has a file gets no other.
    &[
        (Come("a", b'W'), 1, 2, 2, "1W 0Q"),
        (Come("b", b'W'), 2, 2, 2, "1W 0Q"),
        (Come("c", b'M'), 3, 3, 2, "2W 0Q"),
        (Come("d", b'J'), 4, 5, 4, "2W 0J 0C 0Q"),
        (Go("d"), 3, 3, 2, "2W 0Q"),
        (Go("c"), 2, 2, 2, "1W 0Q"),
        (Go("b"), 1, 2, 2, "1W 0Q"),
        (Go("a"), 0, 0, 0, ""),
    ],
    // Two queries of one plan and one of another: what the first of them has stays for the second.
    &[
        (Come("first", b'W'), 1, 2, 2, "1W 0Q"),
        (Come("second", b'W'), 2, 2, 2, "1W 0Q"),
        (Come("third", b'M'), 3, 3, 2, "2W 0Q"),
        (Go("first"), 2, 3, 2, "2W 0Q"),
        (Go("third"), 1, 2, 2, "1W 0Q"),
        (Go("second"), 0, 0, 0, ""),
    ],
    // What is a part of another is there already, and stays until the last query of either is gone.
    &[
        (Come("a", b'J'), 1, 4, 4, "1W 0J 0C 0Q"),
        (Come("b", b'W'), 2, 4, 4, "1W 0J 0C 0Q"),
        (Come("c", b'W'), 3, 4, 4, "1W 0J 0C 0Q"),
        (Come("d", b'C'), 4, 4, 4, "1W 0J 0C 0Q"),
        (Come("e", b'M'), 5, 5, 4, "2W 0J 0C 0Q"),
        (Come("f", b'Q'), 6, 5, 4, "2W 0J 0C 0Q"),
        (Go("f"), 5, 5, 4, "2W 0J 0C 0Q"),
        (Go("e"), 4, 4, 4, "1W 0J 0C 0Q"),
        (Go("d"), 3, 4, 4, "1W 0J 0C 0Q"),
        (Go("c"), 2, 4, 4, "1W 0J 0C 0Q"),
        (Go("b"), 1, 4, 4, "1W 0J 0C 0Q"),
        (Go("a"), 0, 0, 0, ""),
    ],
    // An input that is used stays, and its reader goes.
    &[
        (Come("a", b'Q'), 1, 1, 1, "0Q"),
        (Come("b", b'W'), 2, 2, 2, "1W 0Q"),
        (Go("b"), 1, 1, 1, "0Q"),
        (Come("c", b'C'), 2, 2, 2, "0C 0Q"),
        (Come("d", b'J'), 3, 4, 4, "1W 0J 0C 0Q"),
        (Go("d"), 2, 2, 2, "0C 0Q"),
        (Go("c"), 1, 1, 1, "0Q"),
        (Go("a"), 0, 0, 0, ""),
    ],
    // A plan that is gone comes again.
    &[
        (Come("a", b'W'), 1, 2, 2, "1W 0Q"),
        (Go("a"), 0, 0, 0, ""),
        (Come("a", b'W'), 1, 2, 2, "1W 0Q"),
        (Come("b", b'M'), 2, 3, 2, "2W 0Q"),
        (Go("b"), 1, 2, 2, "1W 0Q"),
        (Come("b", b'M'), 2, 3, 2, "2W 0Q"),
        (Go("b"), 1, 2, 2, "1W 0Q"),
        (Go("a"), 0, 0, 0, ""),
    ],
    // The first query of `W` goes first and the other last: a file stays while one is left.
    &[
        (Come("a", b'W'), 1, 2, 2, "1W 0Q"),
        (Come("b", b'W'), 2, 2, 2, "1W 0Q"),
        (Come("c", b'M'), 3, 3, 2, "2W 0Q"),
        (Come("d", b'J'), 4, 5, 4, "2W 0J 0C 0Q"),
        (Go("a"), 3, 5, 4, "2W 0J 0C 0Q"),
        (Go("c"), 2, 4, 4, "1W 0J 0C 0Q"),
        (Go("d"), 1, 2, 2, "1W 0Q"),
        (Go("b"), 0, 0, 0, ""),
    ],
    // Plans that differ in a constant are one group, and numbers that differ in their spelling are
    // one constant of it. A group goes with its last file.
    &[
        (Come("a", b'N'), 1, 2, 2, "1W 0Q"),
        (Come("b", b'D'), 2, 2, 2, "1W 0Q"),
        (Come("c", b'E'), 3, 4, 3, "1E 2W 0Q"),
        (Come("d", b'R'), 4, 5, 4, "1E 2W 1R 0Q"),
        (Come("e", b'S'), 5, 6, 5, "1E 2W 0S 1R 0Q"),
        (Come("f", b'C'), 6, 7, 6, "1E 2W 0S 1R 0C 0Q"),
        (Come("g", b'J'), 7, 8, 7, "1E 2W 0S 0J 1R 0C 0Q"),
        (Come("h", b'M'), 8, 9, 7, "1E 3W 0S 0J 1R 0C 0Q"),
        (Go("a"), 7, 9, 7, "1E 3W 0S 0J 1R 0C 0Q"),
        (Go("c"), 6, 8, 6, "3W 0S 0J 1R 0C 0Q"),
        (Go("f"), 5, 8, 6, "3W 0S 0J 1R 0C 0Q"),
        (Go("b"), 4, 7, 6, "2W 0S 0J 1R 0C 0Q"),
        (Go("g"), 3, 5, 4, "2W 0S 1R 0Q"),
        (Go("d"), 2, 4, 3, "2W 0S 0Q"),
        (Go("e"), 1, 2, 2, "1W 0Q"),
        (Come("i", b'W'), 2, 3, 2, "2W 0Q"),
        (Go("h"), 1, 2, 2, "1W 0Q"),
        (Go("i"), 0, 0, 0, ""),
    ],
];

/// The two sources that the plans ask.
const SOURCES: &str =
    "source quotes root Quotes key Symbol\nsource companies root Companies key Symbol\n";

/// What a query with the plan of a letter asks.
fn query_of(letter: u8) -> &'static str {
    match letter {
        b'W' => "<Quotes><Quote><Symbol>INTC</></></> IN quotes",
        b'M' => "<Quotes><Quote><Symbol>MSFT</></></> IN quotes",
        b'N' => "<Quotes><Quote><Symbol>1</></></> IN quotes",
        b'D' => "<Quotes><Quote><Symbol>1.0</></></> IN quotes",
        b'R' => "<Quotes><Quote><Symbol>$s</></></> IN quotes, $s >= 1, $s < 10",
        b'E' => "<Quotes><Quote><Symbol>$s</></></> IN quotes, $s = INTC, $s = MSFT",
        b'J' => {
            "<Quotes><Quote><Symbol>INTC</></></> IN quotes, \
             <Companies><Company><Symbol>$s</></></> IN companies"
        }
        b'S' => { "<Quotes><Quote><Symbol>INTC</></><Quote><Symbol>INTC</></></> IN quotes" }
        b'C' => "<Companies><Company><Symbol>$s</></></> IN companies",
        _ => "<Quotes><Quote><Symbol>$s</></></> IN quotes",
    }
}

/// The signature of the group of a letter, and the end of its line.
fn signature_of(letter: u8) -> &'static str {
    match letter {
        b'E' => "eq(eq(scan(quotes,Quote(Symbol=)),0,\"INTC\"),0)\n",
        b'W' => "eq(scan(quotes,Quote(Symbol=)),0)\n",
        b'S' => {
            "join(eq(scan(quotes,Quote(Symbol=)),0,\"INTC\"),eq(scan(quotes,Quote(Symbol=)),0,\"INT\
             C\"),)\n"
        }
        b'J' => {
            "join(eq(scan(quotes,Quote(Symbol=)),0,\"INTC\"),scan(companies,Company(Symbol=)),)\n"
        }
        b'R' => "range(scan(quotes,Quote(Symbol=)),0)\n",
        b'C' => "scan(companies,Company(Symbol=))\n",
        _ => "scan(quotes,Quote(Symbol=))\n",
    }
}

/// The command of a turn, and a report.
fn push_turn(alloc: Global, turn: Turn, out: &mut Vec<u8>) -> Result<(), AllocError> {
    let text = match turn {
        Come(name, letter) => joined(
            alloc,
            &[
                "create ",
                name,
                " WHERE ",
                query_of(letter),
                " CONSTRUCT <r/> DO count\n.\n",
            ],
        )?,
        Go(name) => joined(alloc, &["delete ", name, "\n"])?,
    };
    out.extend_from_slice(&text)?;
    out.extend_from_slice(b"report\n")
}

/// The lines of the groups of a row.
fn push_groups(groups: &str, out: &mut Vec<u8>) -> Result<(), AllocError> {
    for byte in groups.as_bytes() {
        match *byte {
            b' ' => {}
            b'0'..=b'9' => {
                out.extend_from_slice(b"group ")?;
                out.push(*byte)?;
                out.push(b' ')?;
            }
            letter => out.extend_from_slice(signature_of(letter).as_bytes())?,
        }
    }
    Ok(())
}

/// The answers to the command of a row and to its report.
fn push_answers(number: u64, row: &Row, out: &mut Vec<u8>) -> Result<(), AllocError> {
    let (_, queries, files, groups, lines) = row;
    put("", number, " ok\n", out)?;
    put("", number.saturating_add(1), " ok\n", out)?;
    put("queries ", *queries, "\nsources 2\nchanges 0\n", out)?;
    put("files ", *files, "\n", out)?;
    put("groups ", *groups, "\n", out)?;
    push_groups(lines, out)?;
    out.extend_from_slice(b"end\n")
}

/// The session of these rows, and what it writes.
fn push_run(
    alloc: Global,
    rows: &[Row],
    script: &mut Vec<u8>,
    want: &mut Vec<u8>,
) -> Result<(), AllocError> {
    script.extend_from_slice(SOURCES.as_bytes())?;
    want.extend_from_slice(b"1 ok\n2 ok\n")?;
    let mut number = 3u64;
    for row in rows {
        push_turn(alloc, row.0, script)?;
        push_answers(number, row, want)?;
        number = number.saturating_add(2);
    }
    Ok(())
}

#[test]
fn files_stand_while_a_query_needs_them(rt: HostRuntime) -> Result<(), Fail> {
    let alloc = rt.alloc();
    for rows in RUNS {
        let mut script = Vec::new(alloc);
        let mut want = Vec::new(alloc);
        push_run(alloc, rows, &mut script, &mut want)?;
        let outside = Outside {
            room: 65536,
            ..in_pieces(64)
        };
        expect_end(&rt, &rt, &script, outside, Status::Done, &want, "")?;
    }
    Ok(())
}

/// Readers of one scan: those with the number 1, those with the text `ab`, those of two intervals
/// that overlap, and the pairs with one value.
const ONE: &str = "create one WHERE <Es><E id=$i v=\"1\"/></> IN s CONSTRUCT $i DO print\n.\n";

const TEXT: &str = "create text WHERE <Es><E id=$i v=\"ab\"/></> IN s CONSTRUCT $i DO print\n.\n";

const LOW: &str =
    "create low WHERE <Es><E id=$i v=$v/></> IN s, $v >= 1, $v <= 10 CONSTRUCT $i DO print\n.\n";

const HIGH: &str =
    "create high WHERE <Es><E id=$i v=$v/></> IN s, $v > 2, $v < 20 CONSTRUCT $i DO print\n.\n";

const SAME: &str =
    "create same WHERE <Es><E id=$a v=$v/><E id=$b v=$v/></> IN s, $a != $b CONSTRUCT <p>$a $b</> \
     DO print\n.\n";

/// They come and go between changes, and each is told what it takes while it is there.
const READERS: &[Parts<'_>] = &[(
    &[
        "source s root Es key @id\n",
        ONE,
        LOW,
        HIGH,
        SAME,
        "delta s\n(E\nAid a\nAv 1\n)E\n(E\nAid b\nAv ab\n)E\n.\n",
        // A second constant comes over live data.
        TEXT,
        "delta s\n(E\nAid c\nAv 1.0\n)E\n!b\n(E\nAid d\nAv 3\n)E\n(E\nAid e\nAv 10.000001\n)E\n(E\n\
         Aid f\nAv -2\n)E\n.\n",
        // One constant and one interval go.
        "delete one\ndelete low\n",
        "delta s\n(E\nAid a\nAv 3\n)E\n!c\n(E\nAid g\nAv 5\n)E\n.\n",
        // The join goes.
        "delete same\n",
        "delta s\n(E\nAid h\nAv ab\n)E\n(E\nAid e\nAv 25\n)E\n(E\nAid i\nAv 1\n)E\n.\n",
        // Those that went come again, and the others go.
        ONE,
        LOW,
        "delete high\ndelete text\n",
        "delta s\n!d\n(E\nAid e\nAv 1\n)E\n(E\nAid j\nAv ab\n)E\n!i\n.\n",
        // Nobody reads.
        "delete one\ndelete low\n",
        "delta s\n(E\nAid k\nAv 1\n)E\n.\n",
        "report\n",
    ],
    &[
        "1 ok\n2 ok\n3 ok\n4 ok\n5 ok\n",
        "6 ok\nnotice one 0\ngain 1\n-a\nend\nnotice low 0\ngain 1\n-a\nend\n",
        "7 ok\nnotice text 0\ngain 1\n-b\nend\n",
        "8 ok\nnotice one 0\ngain 1\n-c\nend\n",
        "notice low 0\ngain 1\n-c\ngain 1\n-d\nend\n",
        "notice high 0\ngain 1\n-d\ngain 1\n-e\nend\n",
        "notice same 0\ngain 1\n(p\n-ac\n)p\ngain 1\n(p\n-ca\n)p\nend\n",
        "notice text 0\nlose 1\n-b\nend\n",
        "9 ok\n10 ok\n",
        "11 ok\nnotice high 0\ngain 1\n-a\ngain 1\n-g\nend\n",
        "notice same 0\nlose 1\n(p\n-ac\n)p\ngain 1\n(p\n-ad\n)p\n",
        "lose 1\n(p\n-ca\n)p\ngain 1\n(p\n-da\n)p\nend\n",
        "12 ok\n",
        "13 ok\nnotice high 0\nlose 1\n-e\nend\nnotice text 0\ngain 1\n-h\nend\n",
        "14 ok\nnotice one 0\ngain 1\n-i\nend\n",
        "15 ok\nnotice low 0\ngain 1\n-a\ngain 1\n-d\ngain 1\n-g\ngain 1\n-i\nend\n",
        "16 ok\n17 ok\n",
        "18 ok\nnotice one 0\ngain 1\n-e\nlose 1\n-i\nend\n",
        "notice low 0\nlose 1\n-d\ngain 1\n-e\nlose 1\n-i\nend\n",
        "19 ok\n20 ok\n",
        "21 ok\n",
        "22 ok\nqueries 0\nsources 1\nchanges 6\nfiles 0\ngroups 0\nend\n",
    ],
)];

#[test]
fn readers_of_one_file_are_told_what_they_take(rt: HostRuntime) -> Result<(), Fail> {
    expect_parts(&rt, &rt, READERS)
}
