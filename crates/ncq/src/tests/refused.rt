//! A refused command changes nothing but the number of the next command.

use super::{
    Case, PUT_95, PUT_96, SOURCE, TOLD_95, TOLD_96, WATCH, expect_each, expect_output,
    expect_parts, joined,
};
use std::alloc::Global;
use std::process::Abort;
use std::test::Fail;

/// A place between four commands that are accepted: the commands in front of it and behind it, the
/// answers in front of it, the number of the command that stands there, and the answers behind it
/// where that one is refused.
struct Place<'a> {
    front: &'a [&'a str],
    behind: &'a [&'a str],
    answered: &'a [&'a str],
    number: &'a str,
    then: &'a [&'a str],
}

const PLACES: &[Place<'_>] = &[
    Place {
        front: &[],
        behind: &[SOURCE, WATCH, PUT_95, PUT_96],
        answered: &[],
        number: "1",
        then: &["2 ok\n3 ok\n4 ok\n", TOLD_95, "5 ok\n", TOLD_96],
    },
    Place {
        front: &[SOURCE],
        behind: &[WATCH, PUT_95, PUT_96],
        answered: &["1 ok\n"],
        number: "2",
        then: &["3 ok\n4 ok\n", TOLD_95, "5 ok\n", TOLD_96],
    },
    Place {
        front: &[SOURCE, WATCH],
        behind: &[PUT_95, PUT_96],
        answered: &["1 ok\n2 ok\n"],
        number: "3",
        then: &["4 ok\n", TOLD_95, "5 ok\n", TOLD_96],
    },
    Place {
        front: &[SOURCE, WATCH, PUT_95],
        behind: &[PUT_96],
        answered: &["1 ok\n2 ok\n3 ok\n", TOLD_95],
        number: "4",
        then: &["5 ok\n", TOLD_96],
    },
    Place {
        front: &[SOURCE, WATCH, PUT_95, PUT_96],
        behind: &[],
        answered: &["1 ok\n2 ok\n3 ok\n", TOLD_95, "4 ok\n", TOLD_96],
        number: "5",
        then: &[],
    },
];

/// Commands, and how each is refused at the five places; an empty text where it is accepted.
const COMMANDS: &[(&str, [&str; 5])] = &[
    // Nothing that was accepted matters.
    ("jump\n", ["1 command"; 5]),
    ("source quotes root Quotes key\n", ["1 command"; 5]),
    ("delete v\n", ["9 no-name"; 5]),
    ("clock -1\n", ["1 command"; 5]),
    ("delta quotes\n(Quote\n.\n", ["5 pyx 2"; 5]),
    ("delta nothing\n.\n", ["4 no-source"; 5]),
    ("create w\n.\n", ["10 query"; 5]),
    // A live query keeps its name, whatever else is wrong.
    (
        "create w WHERE <Quotes><Quote/></> IN quotes CONSTRUCT <hit/> DO print\n.\n",
        [
            "4 no-source",
            "",
            "8 name-taken",
            "8 name-taken",
            "8 name-taken",
        ],
    ),
    (
        "create w WHERE <Others><Quote/></> IN quotes CONSTRUCT $g DO fax EXPIRE 1 START 2\n.\n",
        [
            "4 no-source",
            "12 root",
            "8 name-taken",
            "8 name-taken",
            "8 name-taken",
        ],
    ),
    // A source stays as it was first declared.
    (
        "source quotes root Other key @Id\n",
        [
            "",
            "3 source-exists",
            "3 source-exists",
            "3 source-exists",
            "3 source-exists",
        ],
    ),
    // An element without its key, behind a good one: the good one is not put either.
    (
        "delta quotes\n(Quote\n(Symbol\n-INTC\n)Symbol\n)Quote\n(Quote\n)Quote\n.\n",
        ["4 no-source", "6 key 2", "6 key 2", "6 key 2", "6 key 2"],
    ),
    // The first deletion finds the quote behind its put, and is undone.
    (
        "delta quotes\n!INTC\n!INTC\n.\n",
        [
            "4 no-source",
            "7 no-key 1",
            "7 no-key 1",
            "7 no-key 2",
            "7 no-key 2",
        ],
    ),
    // A statement needs its source, then its root, its variables, its action and its times.
    (
        "create v WHERE <Others><Quote/></> IN others CONSTRUCT $g DO fax EXPIRE 1 START 2\n.\n",
        ["4 no-source"; 5],
    ),
    (
        "create v WHERE <Others><Quote/></> IN quotes CONSTRUCT $g DO fax EXPIRE 1 START 2\n.\n",
        ["4 no-source", "12 root", "12 root", "12 root", "12 root"],
    ),
    (
        "create v WHERE <Quotes><Quote/></> IN quotes CONSTRUCT $g DO fax EXPIRE 1 START 2\n.\n",
        [
            "4 no-source",
            "11 unbound",
            "11 unbound",
            "11 unbound",
            "11 unbound",
        ],
    ),
    (
        "create v WHERE <Quotes><Quote/></> IN quotes CONSTRUCT <hit/> DO fax EXPIRE 1 START 2\n\
         .\n",
        [
            "4 no-source",
            "13 action",
            "13 action",
            "13 action",
            "13 action",
        ],
    ),
    (
        "create v WHERE <Quotes><Quote/></> IN quotes CONSTRUCT <hit/> DO print EXPIRE 1 START 2\n\
         .\n",
        [
            "4 no-source",
            "14 times",
            "14 times",
            "14 times",
            "14 times",
        ],
    ),
];

/// The commands round this place are answered as ever where this command is refused there.
fn expect_refused(
    rt: &impl Abort,
    host: &HostRuntime,
    place: &Place<'_>,
    command: &str,
    refusal: &str,
) -> Result<(), Fail> {
    let alloc = host.alloc();
    let mut script = joined(alloc, place.front)?;
    script.extend_from_slice(command.as_bytes())?;
    script.extend_from_slice(&joined(alloc, place.behind)?)?;
    let mut want = joined(alloc, place.answered)?;
    want.extend_from_slice(&joined(alloc, &[place.number, " refused ", refusal, "\n"])?)?;
    want.extend_from_slice(&joined(alloc, place.then)?)?;
    expect_output(rt, host, &script, &want, command)
}

#[test]
fn the_commands_round_it_are_answered_as_ever(rt: HostRuntime) -> Result<(), Fail> {
    for (command, refusals) in COMMANDS {
        for (place, refusal) in PLACES.iter().zip(refusals) {
            if !refusal.is_empty() {
                expect_refused(&rt, &rt, place, command, refusal)?;
            }
        }
    }
    Ok(())
}

/// A query over a source that is never declared.
const ELSEWHERE: &str =
    "create w WHERE <Companies><Company><Area>x</></> ELEMENT_AS $g</> IN \"companies\" CONSTRUCT \
     $g DO print\n.\n";

/// What one command leaves to the next.
const LEFT: &[(&[&str], &[&str])] = &[
    // The clock may stand, and never goes back.
    (
        &[
            "clock 9\n",
            "clock 8\n",
            "clock 9\n",
            "clock 18446744073709551616\n",
        ],
        &["1 ok\n2 refused 2 clock\n3 ok\n4 refused 1 command\n"],
    ),
    // A source stays as it was first declared.
    (
        &[
            SOURCE,
            "source quotes root Other key @Id\n",
            WATCH,
            "delta quotes\n(Quote\nAId 1\n)Quote\n.\n",
        ],
        &["1 ok\n2 refused 3 source-exists\n3 ok\n4 refused 6 key 1\n"],
    ),
    // A query needs its source; where that is refused, none is live.
    (&[WATCH], &["1 refused 4 no-source\n"]),
    (
        &[WATCH, SOURCE, WATCH, WATCH],
        &["1 refused 4 no-source\n2 ok\n3 ok\n4 refused 8 name-taken\n"],
    ),
    // The name is judged before the source.
    (
        &[SOURCE, ELSEWHERE, WATCH, ELSEWHERE],
        &["1 ok\n2 refused 4 no-source\n3 ok\n4 refused 8 name-taken\n"],
    ),
    // A name is taken as long as its query is live.
    (
        &[SOURCE, WATCH, WATCH],
        &["1 ok\n2 ok\n3 refused 8 name-taken\n"],
    ),
    (
        &[
            SOURCE,
            WATCH,
            "delete W\n",
            "delete w\n",
            "delete w\n",
            WATCH,
        ],
        &["1 ok\n2 ok\n3 refused 9 no-name\n4 ok\n5 refused 9 no-name\n6 ok\n"],
    ),
    // An element without its key.
    (
        &[SOURCE, "delta quotes\n(Quote\n)Quote\n.\n"],
        &["1 ok\n2 refused 6 key 1\n"],
    ),
    // Each delta goes to its own source.
    (
        &[
            SOURCE,
            "source companies root Companies key Symbol\n",
            "delta companies\n.\n",
            "delta quotes\n.\n",
        ],
        &["1 ok\n2 ok\n3 ok\n4 ok\n"],
    ),
    // A statement whose block has no end.
    (
        &[
            SOURCE,
            "create w WHERE <Quotes><Quote><Symbol>INTC</></> ELEMENT_AS $g</> IN \"quotes\" \
             CONSTRUCT $g DO print\n",
        ],
        &["1 ok\n2 refused 16 unfinished\n"],
    ),
    (
        &[SOURCE, "create\n", "report\n", SOURCE],
        &["1 ok\n2 refused 16 unfinished\n"],
    ),
    // Where a query is live, a text that is no statement is still told apart.
    (
        &[SOURCE, WATCH, "create v\n.\n"],
        &["1 ok\n2 ok\n3 refused 10 query\n"],
    ),
];

#[test]
fn a_command_leaves_its_state_to_the_next(rt: HostRuntime) -> Result<(), Fail> {
    expect_parts(&rt, &rt, LEFT)
}

/// One fault in each command, behind the declared source.
const FAULTS: &[Case<'_>] = &[
    (
        "create w WHERE <Quote><Quote><Symbol>INTC</></> ELEMENT_AS $g</> IN \"quotes\" CONSTRUCT \
         $g DO print\n.\n",
        "2 refused 12 root\n",
    ),
    (
        "create w WHERE <Quotes><Quote><Symbol>INTC</></> ELEMENT_AS $g</> IN \"quotes\" CONSTRUCT \
         $h DO print\n.\n",
        "2 refused 11 unbound\n",
    ),
    (
        "create w WHERE <Quotes><Quote><Symbol>INTC</></> ELEMENT_AS $g</> IN \"x\" CONSTRUCT $g \
         DO print\n.\n",
        "2 refused 4 no-source\n",
    ),
    (
        "create w WHERE <Quotes><Quote><Symbol>INTC</></> ELEMENT_AS $g</> IN \"quotes\" CONSTRUCT \
         $g\n.\n",
        "2 refused 10 query\n",
    ),
    (SOURCE, "2 refused 3 source-exists\n"),
    ("jump\n", "2 refused 1 command\n"),
];

#[test]
fn a_fault_is_named(rt: HostRuntime) -> Result<(), Fail> {
    expect_each(&rt, &rt, (SOURCE, "1 ok\n"), FAULTS)
}

/// Behind the source, a clock and a live `w`: each fault of a create by itself, and each two of
/// them at once, where the first in their order is told.
const FIRST_FAULTS: &[Case<'_>] = &[
    (
        "create w WHERE <Quotes><Quote><Symbol>$s</></></> IN quotes, \
         <Quotes><Quote><Symbol>$s</></></> IN quotes CONSTRUCT $s DO print\n.\n",
        "4 refused 8 name-taken\n",
    ),
    (
        "create v WHERE <Quotes><Quote><Symbol>$s</></></> IN x, \
         <Quotes><Quote><Symbol>$s</></></> IN quotes CONSTRUCT $s DO print\n.\n",
        "4 refused 4 no-source\n",
    ),
    (
        "create v WHERE <Quotes><Quote><Symbol>$s</></></> IN quotes, \
         <Quote><Quote><Symbol>$s</></></> IN quotes CONSTRUCT $s DO print\n.\n",
        "4 refused 12 root\n",
    ),
    (
        "create v WHERE <Quotes><Quote><Symbol>$s</></></> IN quotes, \
         <Quotes><Quote><Symbol>$s</></></> IN quotes CONSTRUCT $t DO print\n.\n",
        "4 refused 11 unbound\n",
    ),
    (
        "create v WHERE <Quotes><Quote><Symbol>$s</></></> IN quotes, \
         <Quotes><Quote><Symbol>$s</></></> IN quotes CONSTRUCT $s DO mailto\n.\n",
        "4 refused 13 action\n",
    ),
    (
        "create v WHERE <Quotes><Quote><Symbol>$s</></></> IN quotes, \
         <Quotes><Quote><Symbol>$s</></></> IN quotes CONSTRUCT $s DO print EXPIRE 4\n.\n",
        "4 refused 14 times\n",
    ),
    (
        "create w WHERE <Quotes><Quote><Symbol>$s</></></> IN x, \
         <Quotes><Quote><Symbol>$s</></></> IN quotes CONSTRUCT $s DO print\n.\n",
        "4 refused 8 name-taken\n",
    ),
    (
        "create w WHERE <Quotes><Quote><Symbol>$s</></></> IN quotes, \
         <Quote><Quote><Symbol>$s</></></> IN quotes CONSTRUCT $s DO print\n.\n",
        "4 refused 8 name-taken\n",
    ),
    (
        "create w WHERE <Quotes><Quote><Symbol>$s</></></> IN quotes, \
         <Quotes><Quote><Symbol>$s</></></> IN quotes CONSTRUCT $t DO print\n.\n",
        "4 refused 8 name-taken\n",
    ),
    (
        "create w WHERE <Quotes><Quote><Symbol>$s</></></> IN quotes, \
         <Quotes><Quote><Symbol>$s</></></> IN quotes CONSTRUCT $s DO mailto\n.\n",
        "4 refused 8 name-taken\n",
    ),
    (
        "create w WHERE <Quotes><Quote><Symbol>$s</></></> IN quotes, \
         <Quotes><Quote><Symbol>$s</></></> IN quotes CONSTRUCT $s DO print EXPIRE 4\n.\n",
        "4 refused 8 name-taken\n",
    ),
    (
        "create v WHERE <Quotes><Quote><Symbol>$s</></></> IN x, <Quote><Quote><Symbol>$s</></></> \
         IN quotes CONSTRUCT $s DO print\n.\n",
        "4 refused 4 no-source\n",
    ),
    (
        "create v WHERE <Quotes><Quote><Symbol>$s</></></> IN x, \
         <Quotes><Quote><Symbol>$s</></></> IN quotes CONSTRUCT $t DO print\n.\n",
        "4 refused 4 no-source\n",
    ),
    (
        "create v WHERE <Quotes><Quote><Symbol>$s</></></> IN x, \
         <Quotes><Quote><Symbol>$s</></></> IN quotes CONSTRUCT $s DO mailto\n.\n",
        "4 refused 4 no-source\n",
    ),
    (
        "create v WHERE <Quotes><Quote><Symbol>$s</></></> IN x, \
         <Quotes><Quote><Symbol>$s</></></> IN quotes CONSTRUCT $s DO print EXPIRE 4\n.\n",
        "4 refused 4 no-source\n",
    ),
    (
        "create v WHERE <Quotes><Quote><Symbol>$s</></></> IN quotes, \
         <Quote><Quote><Symbol>$s</></></> IN quotes CONSTRUCT $t DO print\n.\n",
        "4 refused 12 root\n",
    ),
    (
        "create v WHERE <Quotes><Quote><Symbol>$s</></></> IN quotes, \
         <Quote><Quote><Symbol>$s</></></> IN quotes CONSTRUCT $s DO mailto\n.\n",
        "4 refused 12 root\n",
    ),
    (
        "create v WHERE <Quotes><Quote><Symbol>$s</></></> IN quotes, \
         <Quote><Quote><Symbol>$s</></></> IN quotes CONSTRUCT $s DO print EXPIRE 4\n.\n",
        "4 refused 12 root\n",
    ),
    (
        "create v WHERE <Quotes><Quote><Symbol>$s</></></> IN quotes, \
         <Quotes><Quote><Symbol>$s</></></> IN quotes CONSTRUCT $t DO mailto\n.\n",
        "4 refused 11 unbound\n",
    ),
    (
        "create v WHERE <Quotes><Quote><Symbol>$s</></></> IN quotes, \
         <Quotes><Quote><Symbol>$s</></></> IN quotes CONSTRUCT $t DO print EXPIRE 4\n.\n",
        "4 refused 11 unbound\n",
    ),
    (
        "create v WHERE <Quotes><Quote><Symbol>$s</></></> IN quotes, \
         <Quotes><Quote><Symbol>$s</></></> IN quotes CONSTRUCT $s DO mailto EXPIRE 4\n.\n",
        "4 refused 13 action\n",
    ),
];

#[test]
fn the_first_fault_of_a_create_is_told(rt: HostRuntime) -> Result<(), Fail> {
    let before = "source quotes root Quotes key Symbol\nclock 5\n\
         create w WHERE <Quotes><Quote><Symbol>$s</></></> IN quotes CONSTRUCT $s DO print\n.\n";
    let answers = "1 ok\n2 ok\n3 ok\n";
    expect_each(&rt, &rt, (before, answers), FIRST_FAULTS)
}
