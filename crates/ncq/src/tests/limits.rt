//! The limits: the last script that is within each, and the first that is not.

use super::{SOURCE, calls_of, expect_bytes, expect_end, in_pieces, joined, run_program};
use ncq_base::Bytes;
use ncq_outside::{memory_sink, repeat_source};
use ncq_run::Status;
use std::alloc::{AllocError, Global};
use std::process::Abort;
use std::test::Fail;

/// A script of which one line has a filler: it is `front`, as many fillers as it needs for its
/// length, and `back`. Its output is `within` up to the limit of that length, and `over` from there
/// on.
struct Filled<'a> {
    before: &'a str,
    front: &'a str,
    filler: u8,
    back: &'a str,
    behind: &'a str,
    within: &'a str,
    over: &'a str,
}

fn script_of(alloc: Global, filled: &Filled<'_>, length: usize) -> Result<Vec<u8>, AllocError> {
    let fixed = joined(alloc, &[filled.front, filled.back])?.len();
    let mut script = joined(alloc, &[filled.before, filled.front])?;
    let mut fillers = Vec::new(alloc);
    fillers.resize(length.saturating_sub(fixed), filled.filler)?;
    script.extend_from_slice(&fillers)?;
    script.extend_from_slice(filled.back.as_bytes())?;
    script.extend_from_slice(filled.behind.as_bytes())?;
    Ok(script)
}

/// The script has this output, read in pieces of 65,536 bytes.
fn expect_once(
    rt: &impl Abort,
    host: &HostRuntime,
    script: &[u8],
    want: &str,
    why: &str,
) -> Result<(), Fail> {
    let want = want.as_bytes();
    expect_end(rt, host, script, in_pieces(65536), Status::Done, want, why)
}

/// The line has this many bytes at most.
fn expect_limit(
    rt: &impl Abort,
    host: &HostRuntime,
    filled: &Filled<'_>,
    limit: usize,
) -> Result<(), Fail> {
    let alloc = host.alloc();
    let last = script_of(alloc, filled, limit)?;
    expect_once(rt, host, &last, filled.within, filled.front)?;
    let first = script_of(alloc, filled, limit.saturating_add(1))?;
    expect_once(rt, host, &first, filled.over, filled.front)
}

/// Each line has this many bytes at most.
fn expect_limits(
    rt: &impl Abort,
    host: &HostRuntime,
    lines: &[Filled<'_>],
    limit: usize,
) -> Result<(), Fail> {
    for filled in lines {
        expect_limit(rt, host, filled, limit)?;
    }
    Ok(())
}

/// A statement without its name, as it stands behind it and in front of it.
const STATEMENT: &str =
    " WHERE <Quotes><Quote><Symbol>INTC</></> ELEMENT_AS $g</> IN \"quotes\" CONSTRUCT $g DO print";

/// A command with a line of more than 1,048,576 bytes is refused; its LF and one carriage return do
/// not count.
const LONG_LINES: &[Filled<'_>] = &[
    Filled {
        before: "",
        front: "source quotes root Quotes key Symbol",
        filler: b' ',
        back: "",
        behind: "\n",
        within: "1 ok\n",
        over: "1 refused 15 limit line\n",
    },
    Filled {
        before: "",
        front: "source quotes root Quotes key Symbol",
        filler: b' ',
        back: "",
        behind: "\r\n",
        within: "1 ok\n",
        over: "1 refused 15 limit line\n",
    },
    Filled {
        before: "",
        front: "source quotes root Quotes key Symbol",
        filler: b' ',
        back: "",
        behind: "",
        within: "1 ok\n",
        over: "1 refused 15 limit line\n",
    },
    Filled {
        before: "",
        front: "clock ",
        filler: b'0',
        back: "",
        behind: "\n",
        within: "1 refused 1 command\n",
        over: "1 refused 15 limit line\n",
    },
    // A word that is no command.
    Filled {
        before: "",
        front: "x",
        filler: b'x',
        back: "",
        behind: "\n",
        within: "1 refused 1 command\n",
        over: "1 refused 15 limit line\n",
    },
    Filled {
        before: SOURCE,
        front: "delta quotes",
        filler: b'\t',
        back: "",
        behind: "\n.\n",
        within: "1 ok\n2 ok\n",
        over: "1 ok\n2 refused 15 limit line\n",
    },
    // The form and the end of a block are judged behind the length of its lines.
    Filled {
        before: "",
        front: "delta",
        filler: b' ',
        back: "",
        behind: "\n",
        within: "1 refused 1 command\n",
        over: "1 refused 15 limit line\n",
    },
    Filled {
        before: "",
        front: "create",
        filler: b' ',
        back: "",
        behind: "\n",
        within: "1 refused 16 unfinished\n",
        over: "1 refused 15 limit line\n",
    },
];

/// The same of the lines of a block.
const LONG_BLOCK_LINES: &[Filled<'_>] = &[
    Filled {
        before: SOURCE,
        front: "create ",
        filler: b'w',
        back: STATEMENT,
        behind: "\n.\n",
        within: "1 ok\n2 ok\n",
        over: "1 ok\n2 refused 15 limit line\n",
    },
    Filled {
        before: SOURCE,
        front: "create w",
        filler: b' ',
        back: "",
        behind: "\n.\n",
        within: "1 ok\n2 refused 10 query\n",
        over: "1 ok\n2 refused 15 limit line\n",
    },
    Filled {
        before: "source quotes root Quotes key Symbol\ncreate w\n",
        front: STATEMENT,
        filler: b' ',
        back: "",
        behind: "\r\n.\n",
        within: "1 ok\n2 ok\n",
        over: "1 ok\n2 refused 15 limit line\n",
    },
    Filled {
        before: "source quotes root Quotes key Symbol\ndelta quotes\n",
        front: "-",
        filler: b' ',
        back: "",
        behind: "\n.\n",
        within: "1 ok\n2 ok\n",
        over: "1 ok\n2 refused 15 limit line\n",
    },
    Filled {
        before: "source quotes root Quotes key Symbol\ndelta quotes\n(Quote\n(Symbol\n",
        front: "-",
        filler: b'x',
        back: "",
        behind: "\r\n)Symbol\n)Quote\n.\n",
        within: "1 ok\n2 ok\n",
        over: "1 ok\n2 refused 15 limit line\n",
    },
];

/// No command of any length: a comment, and blanks in front of what is not looked at.
const LONG_COMMENTS: &[Filled<'_>] = &[
    Filled {
        before: "",
        front: "#",
        filler: b'#',
        back: "",
        behind: "\n",
        within: "",
        over: "",
    },
    Filled {
        before: "",
        front: "",
        filler: b' ',
        back: "clock 0",
        behind: "\nclock 0\n",
        within: "1 ok\n2 ok\n",
        over: "1 refused 15 limit line\n2 ok\n",
    },
    Filled {
        before: "",
        front: "",
        filler: b' ',
        back: "",
        behind: "clock 0\nclock 0\n",
        within: "1 ok\n",
        over: "1 ok\n",
    },
];

#[test]
fn a_line_has_at_most_a_mebibyte(rt: HostRuntime) -> Result<(), Fail> {
    expect_limits(&rt, &rt, LONG_LINES, 1_048_576)?;
    expect_limits(&rt, &rt, LONG_BLOCK_LINES, 1_048_576)?;
    expect_limits(&rt, &rt, LONG_COMMENTS, 1_048_576)
}

/// A declared name has 255 bytes at most. A query and a delta have no source of such a name.
const NAMES: &[Filled<'_>] = &[
    Filled {
        before: "",
        front: "source ",
        filler: b'q',
        back: " root a key b",
        behind: "\n",
        within: "1 ok\n",
        over: "1 refused 1 command\n",
    },
    Filled {
        before: "",
        front: "create w WHERE <a><b><c>d</></> ELEMENT_AS $g</> IN \"",
        filler: b'q',
        back: "\" CONSTRUCT $g DO print",
        behind: "\n.\n",
        within: "1 refused 4 no-source\n",
        over: "1 refused 4 no-source\n",
    },
    Filled {
        before: "",
        front: "delta ",
        filler: b'q',
        back: "",
        behind: "\n.\n",
        within: "1 refused 4 no-source\n",
        over: "1 refused 4 no-source\n",
    },
];

#[test]
fn a_source_name_has_at_most_255_bytes(rt: HostRuntime) -> Result<(), Fail> {
    for filled in NAMES {
        let fixed = filled.front.len().saturating_add(filled.back.len());
        expect_limit(&rt, &rt, filled, fixed.saturating_add(255))?;
    }
    Ok(())
}

/// A script in which two pieces stand a number of times, each behind the text in front of it.
/// Its output is `within` where they stand `last` times, and `over` where they stand once more.
struct Repeated<'a> {
    front: &'a str,
    piece: &'a str,
    middle: &'a str,
    second: &'a str,
    back: &'a str,
    last: usize,
    within: &'a str,
    over: &'a str,
}

fn script_with(alloc: Global, pieces: &Repeated<'_>, count: usize) -> Result<Vec<u8>, AllocError> {
    let mut script = joined(alloc, &[pieces.front])?;
    for _ in 0..count {
        script.extend_from_slice(pieces.piece.as_bytes())?;
    }
    script.extend_from_slice(pieces.middle.as_bytes())?;
    for _ in 0..count {
        script.extend_from_slice(pieces.second.as_bytes())?;
    }
    script.extend_from_slice(pieces.back.as_bytes())?;
    Ok(script)
}

/// The pieces may stand so often, and no more.
fn expect_last(rt: &impl Abort, host: &HostRuntime, pieces: &Repeated<'_>) -> Result<(), Fail> {
    let alloc = host.alloc();
    let last = script_with(alloc, pieces, pieces.last)?;
    expect_once(rt, host, &last, pieces.within, pieces.piece)?;
    let first = script_with(alloc, pieces, pieces.last.saturating_add(1))?;
    expect_once(rt, host, &first, pieces.over, pieces.piece)
}

fn expect_each_last(
    rt: &impl Abort,
    host: &HostRuntime,
    scripts: &[Repeated<'_>],
) -> Result<(), Fail> {
    for pieces in scripts {
        expect_last(rt, host, pieces)?;
    }
    Ok(())
}

/// Elements may be nested 512 deep. The key of the outermost one is the text in the innermost one.
const NESTED: &[Repeated<'_>] = &[
    Repeated {
        front: "source s root R key a\ndelta s\n",
        piece: "(a\n",
        middle: "-x\n",
        second: ")a\n",
        back: ".\n",
        last: 1,
        within: "1 ok\n2 refused 6 key 1\n",
        over: "1 ok\n2 ok\n",
    },
    Repeated {
        front: "source s root R key a\ndelta s\n",
        piece: "(a\n",
        middle: "-x\n",
        second: ")a\n",
        back: ".\n",
        last: 512,
        within: "1 ok\n2 ok\n",
        over: "1 ok\n2 refused 15 limit nesting\n",
    },
];

#[test]
fn elements_are_nested_at_most_512_deep(rt: HostRuntime) -> Result<(), Fail> {
    expect_each_last(&rt, &rt, NESTED)
}

/// Tags nest 32 deep. The root is one of them; the tags of a template count by themselves; the text
/// need be no statement.
const DEEP_TAGS: &[Repeated<'_>] = &[
    Repeated {
        front: "create w WHERE <R>",
        piece: "<a>",
        middle: "",
        second: "</>",
        back: "</> IN q CONSTRUCT $g DO print\n.\n",
        last: 31,
        within: "1 refused 4 no-source\n",
        over: "1 refused 15 limit pattern\n",
    },
    Repeated {
        front: "create w WHERE <R><a/></> IN q CONSTRUCT ",
        piece: "<a>",
        middle: "x",
        second: "</>",
        back: " DO print\n.\n",
        last: 32,
        within: "1 refused 4 no-source\n",
        over: "1 refused 15 limit pattern\n",
    },
    Repeated {
        front: "create ",
        piece: "<a>",
        middle: "",
        second: "",
        back: "\n.\n",
        last: 32,
        within: "1 refused 10 query\n",
        over: "1 refused 15 limit pattern\n",
    },
    // A tag that is closed at once ends too, and an end too many does not make room.
    Repeated {
        front: "create </></>",
        piece: "<a>",
        middle: "<a/>",
        second: "",
        back: "\n.\n",
        last: 31,
        within: "1 refused 10 query\n",
        over: "1 refused 15 limit pattern\n",
    },
];

/// Eight patterns stand under the roots, of all matches together.
const ARMS: &[Repeated<'_>] = &[
    Repeated {
        front: "create w WHERE <R>",
        piece: "<a/>",
        middle: "",
        second: "",
        back: "</> IN q CONSTRUCT $g DO print\n.\n",
        last: 8,
        within: "1 refused 4 no-source\n",
        over: "1 refused 15 limit arms\n",
    },
    Repeated {
        front: "create w WHERE <R>",
        piece: "<a/>",
        middle: "</> IN q, <R>",
        second: "<a><b/><c/></>",
        back: "</> IN q CONSTRUCT $g DO print\n.\n",
        last: 4,
        within: "1 refused 4 no-source\n",
        over: "1 refused 15 limit arms\n",
    },
];

/// 64 attributes of patterns, texts and suffixes, at every depth.
const SLOTS: &[Repeated<'_>] = &[
    Repeated {
        front: "create w WHERE <R><a>",
        piece: "<b>c</>",
        middle: "",
        second: "",
        back: "</></> IN q CONSTRUCT $g DO print\n.\n",
        last: 64,
        within: "1 refused 4 no-source\n",
        over: "1 refused 15 limit slots\n",
    },
    Repeated {
        front: "create w WHERE <R><a>",
        piece: "<b id=\"7\"/>",
        middle: "<d>",
        second: "<b><c/></> ELEMENT_AS $c",
        back: "</></></> IN q CONSTRUCT $g DO print\n.\n",
        last: 32,
        within: "1 refused 4 no-source\n",
        over: "1 refused 15 limit slots\n",
    },
    // Patterns without them, and what stands in the template, are none.
    Repeated {
        front: "create w WHERE <R><a><b>$c</>",
        piece: "<b/>",
        middle: "</></> IN q CONSTRUCT <hit>",
        second: "<b id=\"7\">c</>",
        back: "</> DO print\n.\n",
        last: 65,
        within: "1 refused 4 no-source\n",
        over: "1 refused 4 no-source\n",
    },
];

/// 32 conditions, as they are written. Arms are judged before slots, and slots before conditions.
const CONDITIONS: &[Repeated<'_>] = &[
    Repeated {
        front: "create w WHERE <R><a/></> IN q",
        piece: ", $x = 1",
        middle: "",
        second: "",
        back: " CONSTRUCT $g DO print\n.\n",
        last: 32,
        within: "1 refused 4 no-source\n",
        over: "1 refused 15 limit conditions\n",
    },
    Repeated {
        front: "create w WHERE <R><a>",
        piece: "<b>$c</><b>$c</>",
        middle: "</></> IN q",
        second: ", $x != 1",
        back: " CONSTRUCT $g DO print\n.\n",
        last: 32,
        within: "1 refused 4 no-source\n",
        over: "1 refused 15 limit slots\n",
    },
    Repeated {
        front: "create w WHERE <R>",
        piece: "<a><b>$c</><b>$c</><b>$c</><b>$c</><b>$c</><b>$c</><b>$c</><b>$c</></>",
        middle: "</> IN q",
        second: ", $a < 1, $b < 1, $c < 1, $d < 1",
        back: " CONSTRUCT $g DO print\n.\n",
        last: 8,
        within: "1 refused 4 no-source\n",
        over: "1 refused 15 limit arms\n",
    },
];

#[test]
fn a_statement_has_its_limits(rt: HostRuntime) -> Result<(), Fail> {
    expect_each_last(&rt, &rt, DEEP_TAGS)?;
    expect_each_last(&rt, &rt, ARMS)?;
    expect_each_last(&rt, &rt, SLOTS)?;
    expect_each_last(&rt, &rt, CONDITIONS)
}

/// A session on so many bytes of comment lines of 1,024 bytes each ends so, and nothing is written.
fn expect_comments(
    rt: &impl Abort,
    host: &HostRuntime,
    total: u64,
    status: Status,
) -> Result<(), Fail> {
    let alloc = host.alloc();
    let mut line = vec![in alloc; b'#'; 1_023]?;
    line.push(b'\n')?;
    let line = Bytes::from_vec(line);
    assert!(rt; !line.as_slice().is_empty());
    let mut input = repeat_source(line, total);
    let mut output = memory_sink(alloc, 0, calls_of(alloc, &[])?)?;
    assert_eq!(rt;
        run_program(host, &["run"], &mut input, &mut output),
        status
    );
    expect_bytes(rt, output.held(), b"", "");
    Ok(())
}

/// 262,144 lines are as long as a script may be. Some seconds where it is compiled; too long for a
/// try with its checks.
#[test]
fn a_script_has_at_most_256_mebibytes(rt: HostRuntime) -> Result<(), Fail> {
    expect_comments(&rt, &rt, 268_435_456, Status::Done)?;
    expect_comments(&rt, &rt, 268_435_457, Status::ScriptTooLong)
}
