//! Which texts a literal meets.

use super::{expect_output, joined};
use std::alloc::Global;
use std::process::Abort;
use std::test::Fail;

const SOURCE: &str = "source quotes root Quotes key Id\n";

/// A query for the quotes with this price, and the put of a quote with another.
const CREATE: &str = "create w WHERE <Quotes><Quote><Price>";

const AS_PRINT: &str = "</></> ELEMENT_AS $g</> IN \"quotes\" CONSTRUCT $g DO print\n.\n";

const PUT: &str = "delta quotes\n(Quote\n(Id\n-a\n)Id\n(Price\n-";

const DOT: &str = "\n)Price\n)Quote\n.\n";

const GAIN: &str = "1 ok\n2 ok\n3 ok\nnotice w 0\ngain 1\n(Quote\n(Id\n-a\n)Id\n(Price\n-";

const END: &str = "\n)Price\n)Quote\nend\n";

/// A literal beside a text that it meets.
const MET: &[(&str, &str)] = &[
    // Numbers are met by value.
    ("1.0", "1"),
    ("1.0", "01"),
    ("1.0", "+1"),
    ("1", "1.000000"),
    ("100", "100.0"),
    ("100.0", "100"),
    ("0", "-0"),
    ("0.5", "+0.500"),
    ("123456789012345", "+123456789012345.0"),
    ("999999999999999.999999", "999999999999999.999999"),
    // Every other text is met by its bytes.
    ("abc", "abc"),
    ("1234567890123456", "1234567890123456"),
    ("1.0000000", "1.0000000"),
    ("1e3", "1e3"),
    ("5.", "5."),
    (".5", ".5"),
    (".", "."),
    ("1.2.3", "1.2.3"),
    // Signs, other letters, runs of words and quoted texts.
    ("-1", "-1.0"),
    ("+1", "1"),
    ("\"1.0\"", "1"),
    ("é_", "é_"),
    ("a\n b", "a b"),
    ("\"a  b\"", "a  b"),
    ("\"a \\\"b\\\"\"", "a \"b\""),
];

/// A literal beside a text that it does not meet.
const UNMET: &[(&str, &str)] = &[
    ("1.0", "-1"),
    ("1.0", "1.000001"),
    ("1.0", "1.0000000"),
    ("1.0", "1."),
    ("1.0", "1e0"),
    ("1.0", "0000000000000001"),
    ("1.0", "1 0"),
    ("1", "--1"),
    ("0.5", ".5"),
    ("5.", "5"),
    ("5", "5."),
    ("1e3", "1000"),
    ("1000", "1e3"),
    ("1234567890123456", "01234567890123456"),
    ("1234567890123456", "1234567890123456.0"),
    ("1234567890123456", "+1234567890123456"),
    ("abc", "ABC"),
    ("abc", "abcd"),
    ("abc", "ab"),
    ("abc", "a bc"),
    ("a  b", "a  b"),
    ("\" a\"", "a"),
    ("\"\"", "a"),
    ("é", "è"),
    ("-1", "1"),
];

/// Behind the query with this literal the put of this text is answered so.
fn expect_put(
    rt: &impl Abort,
    host: &HostRuntime,
    literal: &str,
    text: &str,
    want: &[u8],
) -> Result<(), Fail> {
    let alloc = host.alloc();
    let script = joined(alloc, &[SOURCE, CREATE, literal, AS_PRINT, PUT, text, DOT])?;
    expect_output(rt, host, &script, want, text)
}

#[test]
fn a_literal_meets_the_texts_of_its_value(rt: HostRuntime) -> Result<(), Fail> {
    let alloc = rt.alloc();
    for (literal, text) in MET {
        let want = joined(alloc, &[GAIN, *text, END])?;
        expect_put(&rt, &rt, literal, text, &want)?;
    }
    Ok(())
}

#[test]
fn a_literal_meets_no_other_text(rt: HostRuntime) -> Result<(), Fail> {
    for (literal, text) in UNMET {
        expect_put(&rt, &rt, literal, text, b"1 ok\n2 ok\n3 ok\n")?;
    }
    Ok(())
}
