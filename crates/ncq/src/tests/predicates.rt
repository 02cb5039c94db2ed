//! Conditions that ask a predicate: `starts` and `multiple`.

use super::{Parts, SOURCE, expect_output, expect_parts, joined};
use std::alloc::{AllocError, Global};
use std::process::Abort;
use std::test::Fail;

/// A query of symbols up to its conditions, and behind them.
const SYMBOLS: &str =
    "create z WHERE <Quotes><Quote><Symbol>$s</><Price>$p</></></> IN \"quotes\", ";

const END: &str = " CONSTRUCT <r>$s</> DO print\n.\n";

/// Puts five quotes. The symbol of the first is a number.
const PUTS: &str = "delta quotes\n\
    (Quote\n(Symbol\n-5\n)Symbol\n(Price\n-0\n)Price\n)Quote\n\
    (Quote\n(Symbol\n-IBM\n)Symbol\n(Price\n-95\n)Price\n)Quote\n\
    (Quote\n(Symbol\n-INTC\n)Symbol\n(Price\n-95\n)Price\n)Quote\n\
    (Quote\n(Symbol\n-INX\n)Symbol\n(Price\n-96\n)Price\n)Quote\n\
    (Quote\n(Symbol\n-T\n)Symbol\n(Price\n--10.5\n)Price\n)Quote\n\
    .\n";

/// Conditions, and the symbols of the quotes that meet them.
const MET: &[(&str, &[&str])] = &[
    ("$s satisfies starts IN", &["INTC", "INX"]),
    ("$s satisfies starts \"IN\"", &["INTC", "INX"]),
    ("$s SATISFIES Starts IN", &["INTC", "INX"]),
    ("$s satisfies starts in", &[]),
    ("$s satisfies starts INTC", &["INTC"]),
    ("$s satisfies starts INTCX", &[]),
    // Each text begins with the empty text; no number begins with anything.
    ("$s satisfies starts \"\"", &["IBM", "INTC", "INX", "T"]),
    ("$s satisfies starts 5", &[]),
    ("$s satisfies starts \"5\"", &[]),
    ("$p satisfies starts 9", &[]),
    // Numbers are compared in millionths: 0 is a multiple of all but 0.
    ("$p satisfies multiple 5", &["5", "IBM", "INTC"]),
    ("$p satisfies multiple -5", &["5", "IBM", "INTC"]),
    ("$p satisfies multiple 0", &[]),
    ("$p satisfies multiple 1.5", &["5", "INX", "T"]),
    (
        "$p satisfies multiple 0.000001",
        &["5", "IBM", "INTC", "INX", "T"],
    ),
    ("$s satisfies multiple 5", &["5"]),
    ("$p satisfies multiple IN", &[]),
    ("$p satisfies multiple \"\"", &[]),
    // A predicate stands beside other conditions.
    ("$s satisfies starts IN, $p satisfies multiple 5", &["INTC"]),
    ("$p > 95, $s satisfies starts IN", &["INX"]),
];

/// What is told of these symbols.
fn told(alloc: Global, symbols: &[&str]) -> Result<Vec<u8>, AllocError> {
    let mut text = Vec::new(alloc);
    if symbols.is_empty() {
        return Ok(text);
    }
    text.extend_from_slice(b"notice z 0\n")?;
    for symbol in symbols {
        text.extend_from_slice(b"gain 1\n(r\n-")?;
        text.extend_from_slice(symbol.as_bytes())?;
        text.extend_from_slice(b"\n)r\n")?;
    }
    text.extend_from_slice(b"end\n")?;
    Ok(text)
}

/// The quotes that meet the condition are told by their symbols.
fn expect_met(
    rt: &impl Abort,
    host: &HostRuntime,
    condition: &str,
    symbols: &[&str],
) -> Result<(), Fail> {
    let alloc = host.alloc();
    let script = joined(alloc, &[SOURCE, SYMBOLS, condition, END, PUTS])?;
    let mut want = joined(alloc, &["1 ok\n2 ok\n3 ok\n"])?;
    want.extend_from_slice(&told(alloc, symbols)?)?;
    expect_output(rt, host, &script, &want, condition)
}

#[test]
fn a_condition_asks_its_predicate(rt: HostRuntime) -> Result<(), Fail> {
    for (condition, symbols) in MET {
        expect_met(&rt, &rt, condition, symbols)?;
    }
    Ok(())
}

const TEXTS: &[Parts<'_>] = &[
    // A quote that no longer meets the condition is lost.
    (
        &[
            SOURCE,
            SYMBOLS,
            "$s satisfies starts IN, $p satisfies multiple 5",
            END,
            PUTS,
            "delta quotes\n(Quote\n(Symbol\n-INTC\n)Symbol\n(Price\n-96\n)Price\n)Quote\n.\n",
        ],
        &[
            "1 ok\n2 ok\n3 ok\nnotice z 0\ngain 1\n(r\n-INTC\n)r\nend\n",
            "4 ok\nnotice z 0\nlose 1\n(r\n-INTC\n)r\nend\n",
        ],
    ),
    // No predicate of the name, a predicate without its argument, and a variable in no pattern.
    (
        &[SOURCE, SYMBOLS, "$s satisfies odd", END],
        &["1 ok\n2 refused 11 unbound\n"],
    ),
    (
        &[SOURCE, SYMBOLS, "$s satisfies odd 1", END],
        &["1 ok\n2 refused 11 unbound\n"],
    ),
    (
        &[SOURCE, SYMBOLS, "$s satisfies starts", END],
        &["1 ok\n2 refused 11 unbound\n"],
    ),
    (
        &[SOURCE, SYMBOLS, "$p satisfies multiple", END],
        &["1 ok\n2 refused 11 unbound\n"],
    ),
    (
        &[SOURCE, SYMBOLS, "$x satisfies starts IN", END],
        &["1 ok\n2 refused 11 unbound\n"],
    ),
];

#[test]
fn what_a_predicate_tells_is_lost_again(rt: HostRuntime) -> Result<(), Fail> {
    expect_parts(&rt, &rt, TEXTS)
}
