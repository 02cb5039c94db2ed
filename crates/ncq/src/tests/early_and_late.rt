//! Sixty subscribers of joins that come and go over changing data: each is told what it is told
//! where nobody else is, and its query selects first.

use super::many::{is_refused, told, written};
use super::{expect_bytes, put};
use std::alloc::{AllocError, Global};
use std::process::Abort;
use std::test::Fail;

/// So many subscribers.
const SUBSCRIBERS: u64 = 60;

/// Whose creates and deletes a script has: all, or those of one number.
type Whose = Option<u64>;

fn is_of(whose: Whose, number: u64) -> bool {
    match whose {
        Some(one) => one == number,
        None => true,
    }
}

/// The quotes at a price, and the companies of a size that are joined with quotes.
fn put_at(price: u64, out: &mut Vec<u8>) -> Result<(), AllocError> {
    put(
        "<Quotes><Quote><Symbol>$s</><Price>",
        price,
        "</></></> IN quotes, ",
        out,
    )
}

fn put_of(size: u64, out: &mut Vec<u8>) -> Result<(), AllocError> {
    put(
        "<Companies><Company><Symbol>$s</><Size>",
        size,
        "</></></> IN companies",
        out,
    )
}

/// Quotes from a price on, each with its company of a size.
fn put_band(price: u64, size: u64, out: &mut Vec<u8>) -> Result<(), AllocError> {
    out.extend_from_slice(b"<Quotes><Quote><Symbol>$s</><Price>$p</></></> IN quotes, ")?;
    put_of(size, out)?;
    put(", $p < 6, $p >= ", price, "", out)
}

/// Quotes from a price on, each with its company up to a size.
fn put_bands(price: u64, size: u64, out: &mut Vec<u8>) -> Result<(), AllocError> {
    out.extend_from_slice(b"<Quotes><Quote><Symbol>$s</><Price>$p</></></> IN quotes, ")?;
    out.extend_from_slice(b"<Companies><Company><Symbol>$s</><Size>$z</></></> IN companies")?;
    put(", $p >= ", price, ", $z <= ", out)?;
    put("", size, "", out)
}

/// Pairs of quotes at one price up to this one.
fn put_pairs(price: u64, out: &mut Vec<u8>) -> Result<(), AllocError> {
    out.extend_from_slice(b"<Quotes><Quote><Symbol>$s</><Price>$p</></>")?;
    out.extend_from_slice(b"<Quote><Symbol>$t</><Price>$p</></></> IN quotes, $s != $t")?;
    put(", $p <= ", price, "", out)
}

/// What a subscriber asks, by its number. Of four kinds three are of one join: with an equality on
/// both sides, with one and a range, and with a range on both.
fn put_query(number: u64, out: &mut Vec<u8>) -> Result<(), AllocError> {
    let price = number % 5;
    let size = number / 4 % 3;
    match number % 4 {
        0 => {
            put_at(price, out)?;
            put_of(size, out)
        }
        1 => put_band(price, size, out),
        2 => put_bands(price, size, out),
        _ => put_pairs(price, out),
    }
}

/// What is made of it: each pair, or what is distinct.
fn put_template(number: u64, out: &mut Vec<u8>) -> Result<(), AllocError> {
    let template: &[u8] = match number % 7 {
        0 => b" CONSTRUCT DISTINCT <hit/>",
        _ => b" CONSTRUCT <hit s=$s/>",
    };
    out.extend_from_slice(template)
}

/// When it is told: at changes, or by a timer.
fn put_times(number: u64, out: &mut Vec<u8>) -> Result<(), AllocError> {
    let times: &[u8] = match number % 3 {
        0 => b" DO print\n.\n",
        1 => b" DO print EVERY 2\n.\n",
        _ => b" DO print START 3 EVERY 3\n.\n",
    };
    out.extend_from_slice(times)
}

fn put_create(number: u64, whose: Whose, out: &mut Vec<u8>) -> Result<(), AllocError> {
    if !is_of(whose, number) {
        return Ok(());
    }
    put("create q", number, " WHERE ", out)?;
    put_query(number, out)?;
    put_template(number, out)?;
    put_times(number, out)
}

fn put_delete(number: u64, whose: Whose, out: &mut Vec<u8>) -> Result<(), AllocError> {
    if !is_of(whose, number) {
        return Ok(());
    }
    put("delete q", number, "\n", out)
}

/// A company of a size.
fn put_company(number: u64, size: u64, out: &mut Vec<u8>) -> Result<(), AllocError> {
    put("(Company\n(Symbol\n-S", number, "\n)Symbol\n", out)?;
    put("(Size\n-", size, "\n)Size\n)Company\n", out)
}

/// A quote at a price.
fn put_quote(number: u64, price: u64, out: &mut Vec<u8>) -> Result<(), AllocError> {
    put("(Quote\n(Symbol\n-S", number, "\n)Symbol\n", out)?;
    put("(Price\n-", price, "\n)Price\n)Quote\n", out)
}

/// All fifteen companies and quotes: by another number of times they have other sizes and prices,
/// and each price and size go together once.
fn put_all(times: u64, out: &mut Vec<u8>) -> Result<(), AllocError> {
    out.extend_from_slice(b"delta companies\n")?;
    for number in 0..15u64 {
        put_company(number, (times % 3) * number % 3, out)?;
    }
    out.extend_from_slice(b".\ndelta quotes\n")?;
    for number in 0..15u64 {
        put_quote(number, (times % 3) * number % 5, out)?;
    }
    out.extend_from_slice(b".\n")
}

/// Two changes and a move of the clock: a quote goes and another comes at another price, and a
/// company is of another size.
fn put_changes(round: u64, out: &mut Vec<u8>) -> Result<(), AllocError> {
    let place = round % 12;
    put("delta quotes\n!S", place, "\n", out)?;
    put_quote((place + 7) % 15, 5 * place % 7, out)?;
    out.extend_from_slice(b".\ndelta companies\n")?;
    put_company(3 * place % 15, 2 * place % 3, out)?;
    put(".\nclock ", place, "\n", out)
}

/// Five subscribers come. Two of them go over the next changes, and come again.
fn put_round(round: u64, whose: Whose, out: &mut Vec<u8>) -> Result<(), AllocError> {
    let first = 5 * (round % 12);
    for place in 0..5u64 {
        put_create(first + place, whose, out)?;
    }
    put_delete(first, whose, out)?;
    put_delete(first + 3, whose, out)?;
    put_changes(round, out)?;
    put_create(first, whose, out)?;
    put_create(first + 3, whose, out)
}

/// Those of the first half go but two, all quotes change, and they come again.
fn put_middle(whose: Whose, out: &mut Vec<u8>) -> Result<(), AllocError> {
    for number in 2..30 {
        put_delete(number, whose, out)?;
    }
    put_all(2, out)?;
    for number in 2..30 {
        put_create(number, whose, out)?;
    }
    Ok(())
}

/// The whole script: the sources, twelve rounds in which subscribers come, with the middle between
/// them, and at last a change of all and a move of the clock.
fn script(alloc: Global, whose: Whose) -> Result<Vec<u8>, AllocError> {
    let mut out = Vec::new(alloc);
    out.extend_from_slice(b"source quotes root Quotes key Symbol\n")?;
    out.extend_from_slice(b"source companies root Companies key Symbol\n")?;
    put_all(1, &mut out)?;
    for round in 0..6 {
        put_round(round, whose, &mut out)?;
    }
    put_middle(whose, &mut out)?;
    for round in 6..12 {
        put_round(round, whose, &mut out)?;
    }
    put_all(1, &mut out)?;
    out.extend_from_slice(b"clock 20\n")?;
    Ok(out)
}

/// A subscriber is told something, and the same where nobody else is.
fn expect_own(rt: &impl Abort, host: &HostRuntime, whole: &[u8], number: u64) -> Result<(), Fail> {
    let alloc = host.alloc();
    let name = format!(in alloc; "q{number}")?;
    let first = format!(in alloc; "notice q{number} ")?;
    let own = told(alloc, whole, first.as_bytes())?;
    assert!(rt; !own.is_empty(), "{number}");
    let script = script(alloc, Some(number))?;
    let alone = written(rt, host, &["alone", name.as_str()], &script)?;
    expect_bytes(rt, &alone, &own, name.as_str());
    Ok(())
}

#[test]
fn late_plans_tell_what_early_ones_tell(rt: HostRuntime) -> Result<(), Fail> {
    let script = script(rt.alloc(), None)?;
    let whole = written(&rt, &rt, &["run"], &script)?;
    let refused = whole
        .as_slice()
        .split(|byte| *byte == b'\n')
        .any(is_refused);
    assert!(rt; !refused);
    for number in 0..SUBSCRIBERS {
        expect_own(&rt, &rt, &whole, number)?;
    }
    Ok(())
}
