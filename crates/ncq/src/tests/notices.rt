//! What a subscription is told of the changes of its source.

use super::{
    Case, DELETE, LOST_95, PUT_95, PUT_96, Parts, SOURCE, TOLD_95, TOLD_96, WATCH, expect_output,
    expect_parts, joined,
};
use std::test::Fail;

const PUTS: &[Parts<'_>] = &[
    // No script, no output.
    (&[], &[]),
    // One change, one notice.
    (&[SOURCE, WATCH, PUT_95], &["1 ok\n2 ok\n3 ok\n", TOLD_95]),
    // The create tells what the source holds by then.
    (&[SOURCE, PUT_95, WATCH], &["1 ok\n2 ok\n3 ok\n", TOLD_95]),
    // A put at the same key takes the old element away.
    (
        &[SOURCE, WATCH, PUT_95, PUT_96],
        &["1 ok\n2 ok\n3 ok\n", TOLD_95, "4 ok\n", TOLD_96],
    ),
    // The same element once more changes nothing, nor does an empty delta.
    (
        &[SOURCE, WATCH, PUT_95, PUT_95],
        &["1 ok\n2 ok\n3 ok\n", TOLD_95, "4 ok\n"],
    ),
    (
        &[SOURCE, WATCH, PUT_95, "delta quotes\n.\n"],
        &["1 ok\n2 ok\n3 ok\n", TOLD_95, "4 ok\n"],
    ),
    // A create over an empty source tells nothing.
    (&[SOURCE, WATCH], &["1 ok\n2 ok\n"]),
    // Without a subscription nothing is told.
    (&[SOURCE, PUT_95, PUT_96], &["1 ok\n2 ok\n3 ok\n"]),
];

#[test]
fn a_put_is_told_to_the_subscription(rt: HostRuntime) -> Result<(), Fail> {
    expect_parts(&rt, &rt, PUTS)
}

const DELETIONS: &[Parts<'_>] = &[
    // The second deletion finds nothing.
    (
        &[SOURCE, WATCH, PUT_95, DELETE, DELETE],
        &[
            "1 ok\n2 ok\n3 ok\n",
            TOLD_95,
            "4 ok\n",
            LOST_95,
            "5 refused 7 no-key 1\n",
        ],
    ),
    // The put of a refused delta is not there to be deleted.
    (
        &[
            SOURCE,
            WATCH,
            "delta quotes\n(Quote\n(Symbol\n-INTC\n)Symbol\n(Price\n-1\n)Price\n)Quote\n(Quote\n\
             )Quote\n.\n",
            DELETE,
        ],
        &["1 ok\n2 ok\n3 refused 6 key 2\n4 refused 7 no-key 1\n"],
    ),
    // A put and its deletion in one delta are no change.
    (
        &[
            SOURCE,
            WATCH,
            "delta quotes\n(Quote\n(Symbol\n-INTC\n)Symbol\n)Quote\n!INTC\n.\n",
            DELETE,
        ],
        &["1 ok\n2 ok\n3 ok\n4 refused 7 no-key 1\n"],
    ),
    // A deletion and a put of the same element in one delta are none either.
    (
        &[
            SOURCE,
            WATCH,
            PUT_95,
            "delta quotes\n!INTC\n(Quote\n(Symbol\n-INTC\n)Symbol\n(Price\n-95.5\n)Price\n)Quote\n\
             .\n",
            DELETE,
        ],
        &["1 ok\n2 ok\n3 ok\n", TOLD_95, "4 ok\n5 ok\n", LOST_95],
    ),
    // What goes away before the create is never told.
    (
        &[SOURCE, PUT_95, DELETE, WATCH],
        &["1 ok\n2 ok\n3 ok\n4 ok\n"],
    ),
];

#[test]
fn a_deletion_is_told_once(rt: HostRuntime) -> Result<(), Fail> {
    expect_parts(&rt, &rt, DELETIONS)
}

/// The lines of an element as they are put, beside those by which it is told.
const LINES: &[Case<'_>] = &[
    // Attributes stand in the order of their names, and a value has everything behind the first
    // space.
    (
        "(Quote\nAb\nAa  x y \nAB 1\n(Symbol\n-INTC\n)Symbol\n)Quote\n",
        "(Quote\nAB 1\nAa  x y \nAb \n(Symbol\n-INTC\n)Symbol\n)Quote\n",
    ),
    // Lines that say nothing of the element are skipped, also between texts.
    (
        "?xml\nNx\n(Quote\nC a\nAa 1\n\nUu\nAb 2\n-a\n?x\n-b\nD\n(Symbol\n-INTC\n)Symbol\n)Quote\n",
        "(Quote\nAa 1\nAb 2\n-ab\n(Symbol\n-INTC\n)Symbol\n)Quote\n",
    ),
    // Escapes are read and written again; white space goes from the ends of a text but not of a
    // value.
    (
        "(Quote\nAa \\n\n-\\na\\tb\\rc\\\\n\\x\\n\n(Symbol\n-\\nINTC\n)Symbol\n)Quote\n",
        "(Quote\nAa \\n\n-a\\tb\\rc\\\\n\\\\x\n(Symbol\n-INTC\n)Symbol\n)Quote\n",
    ),
];

/// An element is told by its canonical lines, whatever lines put it there.
#[test]
fn an_element_is_told_by_its_canonical_lines(rt: HostRuntime) -> Result<(), Fail> {
    let alloc = rt.alloc();
    for (put, told) in LINES {
        let script = joined(alloc, &[SOURCE, WATCH, "delta quotes\n", *put, ".\n"])?;
        let want = joined(
            alloc,
            &["1 ok\n2 ok\n3 ok\nnotice w 0\ngain 1\n", *told, "end\n"],
        )?;
        expect_output(&rt, &rt, &script, &want, put)?;
    }
    Ok(())
}

/// A second source, and a put in it that the query would tell of its own source.
const OTHER: &str = "source c root Quotes key @id\n";

const PUT_OTHER: &str = "delta c\n(Quote\nAid 7\n(Symbol\n-INTC\n)Symbol\n)Quote\n.\n";

/// Each source has its own elements and its own rule for their keys.
const TWO_SOURCES: &[Parts<'_>] = &[
    (
        &[SOURCE, OTHER, WATCH, PUT_OTHER, PUT_95],
        &["1 ok\n2 ok\n3 ok\n4 ok\n5 ok\n", TOLD_95],
    ),
    // The key is the attribute, and the texts of the element are as they are.
    (
        &[
            OTHER,
            "delta c\n(C\nAid 7\n-a\n- b\n?x\n-\\n\n)C\n.\n",
            "delta c\n!7\n.\n",
            "delta c\n!7\n.\n",
            "delta c\n(C\nAid\n)C\n.\n",
        ],
        &["1 ok\n2 ok\n3 ok\n4 refused 7 no-key 1\n5 refused 6 key 1\n"],
    ),
];

#[test]
fn a_change_of_another_source_is_not_told(rt: HostRuntime) -> Result<(), Fail> {
    expect_parts(&rt, &rt, TWO_SOURCES)
}

#[test]
fn a_carriage_return_before_a_line_feed_says_nothing(rt: HostRuntime) -> Result<(), Fail> {
    let alloc = rt.alloc();
    let mut script = Vec::new(alloc);
    for byte in &joined(alloc, &[SOURCE, WATCH, PUT_95, PUT_96])? {
        if *byte == b'\n' {
            script.push(b'\r')?;
        }
        script.push(*byte)?;
    }
    let want = joined(alloc, &["1 ok\n2 ok\n3 ok\n", TOLD_95, "4 ok\n", TOLD_96])?;
    expect_output(&rt, &rt, &script, &want, "")
}

/// Scripts behind the declared source and the query.
const DIFFERENCES: &[Case<'_>] = &[
    // An element of another symbol or tag, or without the child, is no answer.
    (
        "delta quotes\n(Quote\n(Symbol\n-MSFT\n)Symbol\n)Quote\n.\n",
        "3 ok\n",
    ),
    (
        "delta quotes\n(Other\n(Symbol\n-INTC\n)Symbol\n)Other\n.\n",
        "3 ok\n",
    ),
    // Of two puts at one key in a delta the later one stands.
    (
        "delta quotes\n(Quote\n(Symbol\n-INTC\n)Symbol\n-1\n)Quote\n(Quote\n(Symbol\n-INTC\n\
         )Symbol\n-2\n)Quote\n.\n",
        "3 ok\nnotice w 0\ngain 1\n(Quote\n(Symbol\n-INTC\n)Symbol\n-2\n)Quote\nend\n",
    ),
    // An answer goes away where another tag takes its key.
    (
        "delta quotes\n(Quote\n(Symbol\n-INTC\n)Symbol\n)Quote\n.\ndelta quotes\n(Other\n(Symbol\n\
         -INTC\n)Symbol\n)Other\n.\n",
        "3 ok\nnotice w 0\ngain 1\n(Quote\n(Symbol\n-INTC\n)Symbol\n)Quote\nend\n4 ok\nnotice w 0\n\
         lose 1\n(Quote\n(Symbol\n-INTC\n)Symbol\n)Quote\nend\n",
    ),
    // A delta that is refused leaves nothing of its first put behind: the next notice has no loss.
    (
        "delta quotes\n(Quote\n(Symbol\n-INTC\n)Symbol\n-1\n)Quote\n(Quote\n)Quote\n.\n\
         delta quotes\n(Quote\n(Symbol\n-INTC\n)Symbol\n-2\n)Quote\n.\n",
        "3 refused 6 key 2\n4 ok\nnotice w 0\ngain 1\n(Quote\n(Symbol\n-INTC\n)Symbol\n-2\n)Quote\n\
         end\n",
    ),
    // Neighbouring texts are one text, white space at its ends is dropped, and tab and carriage
    // return are escaped.
    (
        "delta quotes\n(Quote\n- \n(Symbol\n- IN\n-TC \n)Symbol\n-\ta\tb\rc\r\r\n)Quote\n.\n",
        "3 ok\nnotice w 0\ngain 1\n(Quote\n(Symbol\n-INTC\n)Symbol\n-a\\tb\\rc\n)Quote\nend\n",
    ),
    // The value of a child is all texts in it, joined by spaces.
    (
        "delta quotes\n(Quote\n(Symbol\n(a\n-INTC\n)a\n(b\n)b\n)Symbol\n)Quote\n.\n",
        "3 ok\nnotice w 0\ngain 1\n(Quote\n(Symbol\n(a\n-INTC\n)a\n(b\n)b\n)Symbol\n)Quote\nend\n",
    ),
    (
        "delta quotes\n(Quote\n(Symbol\n(a\n-IN\n)a\n-TC\n)Symbol\n)Quote\n.\n",
        "3 ok\n",
    ),
    // White space outside the elements is no item.
    (
        "delta quotes\n- \n(Quote\n(Symbol\n-INTC\n)Symbol\n)Quote\n-\n(Quote\n)Quote\n.\n",
        "3 refused 6 key 2\n",
    ),
];

#[test]
fn a_notice_is_the_difference_of_two_answers(rt: HostRuntime) -> Result<(), Fail> {
    let alloc = rt.alloc();
    for (script, want) in DIFFERENCES {
        let script = joined(alloc, &[SOURCE, WATCH, *script])?;
        let want = joined(alloc, &["1 ok\n2 ok\n", *want])?;
        expect_output(&rt, &rt, &script, &want, "")?;
    }
    Ok(())
}

/// Scripts behind a source and the query, where the key is another child than the one that the
/// query is about.
const COUNTS: &[Case<'_>] = &[
    // Two children fit: the element is gained twice. With one of them it is another element, gained
    // once, and it stands behind, since `)` is above `(`.
    (
        "delta quotes\n(Quote\n(Id\n-1\n)Id\n(Symbol\n-INTC\n)Symbol\n(Symbol\n-INTC\n)Symbol\n\
         )Quote\n.\ndelta quotes\n(Quote\n(Id\n-1\n)Id\n(Symbol\n-INTC\n)Symbol\n)Quote\n.\n",
        "3 ok\nnotice w 0\ngain 2\n(Quote\n(Id\n-1\n)Id\n(Symbol\n-INTC\n)Symbol\n(Symbol\n-INTC\n\
         )Symbol\n)Quote\nend\n4 ok\nnotice w 0\nlose 2\n(Quote\n(Id\n-1\n)Id\n(Symbol\n-INTC\n\
         )Symbol\n(Symbol\n-INTC\n)Symbol\n)Quote\ngain 1\n(Quote\n(Id\n-1\n)Id\n(Symbol\n-INTC\n\
         )Symbol\n)Quote\nend\n",
    ),
    // Without the child, and with it one level deeper, it is no answer.
    (
        "delta quotes\n(Quote\n(Id\n-1\n)Id\n)Quote\n(Quote\n(Id\n-2\n)Id\n(a\n(Symbol\n-INTC\n\
         )Symbol\n)a\n)Quote\n.\n",
        "3 ok\n",
    ),
    // Two answers stand by the bytes of their lines, whatever the order of their puts.
    (
        "delta quotes\n(Quote\n(Id\n-b\n)Id\n(Symbol\n-INTC\n)Symbol\n)Quote\n(Quote\n(Id\n-a\n\
         )Id\n(Symbol\n-INTC\n)Symbol\n)Quote\n.\n",
        "3 ok\nnotice w 0\ngain 1\n(Quote\n(Id\n-a\n)Id\n(Symbol\n-INTC\n)Symbol\n)Quote\ngain 1\n\
         (Quote\n(Id\n-b\n)Id\n(Symbol\n-INTC\n)Symbol\n)Quote\nend\n",
    ),
];

#[test]
fn an_element_counts_once_for_each_child_that_fits(rt: HostRuntime) -> Result<(), Fail> {
    let alloc = rt.alloc();
    for (script, want) in COUNTS {
        let source = "source quotes root Quotes key Id\n";
        let script = joined(alloc, &[source, WATCH, *script])?;
        let want = joined(alloc, &["1 ok\n2 ok\n", *want])?;
        expect_output(&rt, &rt, &script, &want, "")?;
    }
    Ok(())
}

/// A query over two sources, and one that asks a source twice.
const SEVERAL: &[Parts<'_>] = &[
    // It is told at a change of either, and of no third.
    (
        &[
            SOURCE,
            "source companies root Companies key Symbol\n",
            "source others root Others key Symbol\n",
            "create v WHERE <Quotes><Quote><Symbol>$s</></></> IN quotes, \
             <Companies><Company><Symbol>$s</></></> IN companies CONSTRUCT $s DO print\n.\n",
            "delta quotes\n(Quote\n(Symbol\n-A\n)Symbol\n)Quote\n.\n",
            "delta others\n(Other\n(Symbol\n-A\n)Symbol\n)Other\n.\n",
            "delta companies\n(Company\n(Symbol\n-A\n)Symbol\n)Company\n.\n",
            "delta quotes\n!A\n.\n",
        ],
        &[
            "1 ok\n2 ok\n3 ok\n4 ok\n5 ok\n6 ok\n",
            "7 ok\nnotice v 0\ngain 1\n-A\nend\n",
            "8 ok\nnotice v 0\nlose 1\n-A\nend\n",
        ],
    ),
    // One change of a source that it asks twice is one firing, and all its pairs are told at once.
    (
        &[
            SOURCE,
            "create v WHERE <Quotes><Quote><Symbol>$a</><Tag>$t</></><Quote><Symbol>$b</><Tag>$t</>\
             </></> IN quotes CONSTRUCT <p a=$a b=$b/> DO print\n.\n",
            "delta quotes\n(Quote\n(Symbol\n-A\n)Symbol\n(Tag\n-x\n)Tag\n)Quote\n.\n",
            "delta quotes\n(Quote\n(Symbol\n-B\n)Symbol\n(Tag\n-x\n)Tag\n)Quote\n.\n",
            "delta quotes\n!A\n.\n",
        ],
        &[
            "1 ok\n2 ok\n3 ok\nnotice v 0\ngain 1\n(p\nAa A\nAb A\n)p\nend\n",
            "4 ok\nnotice v 0\ngain 1\n(p\nAa A\nAb B\n)p\ngain 1\n(p\nAa B\nAb A\n)p\ngain 1\n(p\n\
             Aa B\nAb B\n)p\nend\n",
            "5 ok\nnotice v 0\nlose 1\n(p\nAa A\nAb A\n)p\nlose 1\n(p\nAa A\nAb B\n)p\nlose 1\n(p\n\
             Aa B\nAb A\n)p\nend\n",
        ],
    ),
];

#[test]
fn a_query_may_ask_several_sources(rt: HostRuntime) -> Result<(), Fail> {
    expect_parts(&rt, &rt, SEVERAL)
}
