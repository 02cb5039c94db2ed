//! Sixty subscribers of five kinds over two sources: nothing is refused, and each gets in `alone`
//! what the whole output tells it.

use super::{calls_of, expect_bytes, put, run_program};
use ncq_base::bytes_of;
use ncq_outside::{Sink, memory_sink, memory_source};
use ncq_run::Status;
use std::alloc::{AllocError, Global};
use std::process::Abort;
use std::test::Fail;

/// The room for what is written.
const ROOM: usize = 8_000_000;

/// A company with one of four areas.
fn put_company(number: u64, out: &mut Vec<u8>) -> Result<(), AllocError> {
    put("(Company\n(Symbol\n-S", number, "\n)Symbol\n", out)?;
    put("(Area\n-A", number % 4, "\n)Area\n)Company\n", out)
}

/// A quote at a price.
fn put_quote(number: u64, price: u64, out: &mut Vec<u8>) -> Result<(), AllocError> {
    put("(Quote\n(Symbol\n-S", number, "\n)Symbol\n", out)?;
    put("(Price\n-", price, "\n)Price\n)Quote\n", out)
}

/// The two sources with 40 companies and 200 quotes.
fn put_sources(out: &mut Vec<u8>) -> Result<(), AllocError> {
    out.extend_from_slice(b"source quotes root Quotes key Symbol\n")?;
    out.extend_from_slice(b"source companies root Companies key Symbol\n")?;
    out.extend_from_slice(b"delta companies\n")?;
    for number in 0..40 {
        put_company(number, out)?;
    }
    out.extend_from_slice(b".\n")
}

fn put_quotes(out: &mut Vec<u8>) -> Result<(), AllocError> {
    out.extend_from_slice(b"delta quotes\n")?;
    for number in 0..200u64 {
        put_quote(number, number % 100, out)?;
    }
    out.extend_from_slice(b".\n")
}

/// What a subscriber asks, by its number: one symbol, one price, the companies of an area, pairs of
/// quotes at one price, or a range of prices.
fn put_query(number: u64, out: &mut Vec<u8>) -> Result<(), AllocError> {
    match number % 5 {
        0 => put(
            "<Quotes><Quote><Symbol>S",
            number,
            "</></> ELEMENT_AS $g</> IN \"quotes\" CONSTRUCT $g",
            out,
        ),
        1 => put(
            "<Quotes><Quote><Price>$p</></></> IN \"quotes\", $p = ",
            number,
            " CONSTRUCT <p>$p</>",
            out,
        ),
        2 => put(
            "<Quotes><Quote><Symbol>$s</><Price>$p</></></> IN \"quotes\", \
             <Companies><Company><Symbol>$s</><Area>A",
            number % 4,
            "</></></> IN \"companies\" CONSTRUCT <hit><s>$s</><p>$p</></>",
            out,
        ),
        3 => put(
            "<Quotes><Quote><Symbol>$a</><Price>$p</></><Quote><Symbol>$b</><Price>$p</></></> IN \
             \"quotes\" CONSTRUCT <pair n=\"",
            number,
            "\" a=$a b=$b/>",
            out,
        ),
        _ => put(
            "<Quotes><Quote><Price>$p</></> ELEMENT_AS $g</> IN \"quotes\", $p > ",
            number.min(10),
            ", $p <= 90 CONSTRUCT $g",
            out,
        ),
    }
}

fn put_create(number: u64, out: &mut Vec<u8>) -> Result<(), AllocError> {
    put("create q", number, " WHERE ", out)?;
    put_query(number, out)?;
    out.extend_from_slice(b" DO print\n.\n")
}

fn put_change(number: u64, out: &mut Vec<u8>) -> Result<(), AllocError> {
    out.extend_from_slice(b"delta quotes\n")?;
    put_quote(number, 13 * (number % 100) % 97, out)?;
    out.extend_from_slice(b".\n")
}

/// The whole script: the sources, the subscribers and 30 changes.
fn script(alloc: Global) -> Result<Vec<u8>, AllocError> {
    let mut out = Vec::new(alloc);
    put_sources(&mut out)?;
    put_quotes(&mut out)?;
    for number in 0..60 {
        put_create(number, &mut out)?;
    }
    for number in 0..30 {
        put_change(number, &mut out)?;
    }
    Ok(out)
}

/// What the program writes for the script with these words.
pub(super) fn written(
    rt: &impl Abort,
    host: &HostRuntime,
    words: &[&str],
    script: &[u8],
) -> Result<Vec<u8>, Fail> {
    let alloc = host.alloc();
    let none = calls_of(alloc, &[])?;
    let mut input = memory_source(bytes_of(alloc, script)?, 65536, none);
    let mut output = memory_sink(alloc, ROOM, calls_of(alloc, &[])?)?;
    let status = run_program(host, words, &mut input, &mut output);
    assert_eq!(rt; status, Status::Done);
    Ok(Vec::from_slice(alloc, output.held())?)
}

/// The lines from each that begins with `first` to the next `end`.
pub(super) fn told(alloc: Global, output: &[u8], first: &[u8]) -> Result<Vec<u8>, AllocError> {
    let mut own = Vec::new(alloc);
    let mut inside = false;
    for line in output.split(|byte| *byte == b'\n') {
        inside = inside || line.starts_with(first);
        if inside {
            own.extend_from_slice(line)?;
            own.push(b'\n')?;
        }
        inside = inside && line != b"end".as_slice();
    }
    Ok(own)
}

/// Whether a line is a refusal.
pub(super) fn is_refused(line: &[u8]) -> bool {
    line.windows(9).any(|part| part == b" refused ".as_slice())
}

#[test]
fn sixty_subscribers_get_their_own(rt: HostRuntime) -> Result<(), Fail> {
    let alloc = rt.alloc();
    let script = script(alloc)?;
    let whole = written(&rt, &rt, &["run"], &script)?;
    let refused = whole
        .as_slice()
        .split(|byte| *byte == b'\n')
        .any(is_refused);
    assert!(rt; !refused);
    for (name, first) in [
        ("q0", b"notice q0 ".as_slice()),
        ("q1", b"notice q1 ".as_slice()),
        ("q7", b"notice q7 ".as_slice()),
        ("q13", b"notice q13 ".as_slice()),
        ("q59", b"notice q59 ".as_slice()),
    ] {
        let own = told(alloc, &whole, first)?;
        assert!(rt; !own.is_empty());
        let alone = written(&rt, &rt, &["alone", name], &script)?;
        expect_bytes(&rt, &alone, &own, name);
    }
    Ok(())
}
