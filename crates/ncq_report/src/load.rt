//! The commands of a load.
ghost use Rattle.std.specs.Prelude.{◌≡◌, ◌+◌, ◌*◌, ◌<◌, ◌≤◌, ◌++◌, length, take, decimal};
ghost use Rattle.std.specs.Prelude.{OnOk, OnErr};
ghost use Rattle.std.specs.Io.{StartsWith};
ghost use Rattle.ncq_report.specs.Loads.{area_create, companies_text, company, create_text};
ghost use Rattle.ncq_report.specs.Loads.{part_text, price_create, quote_text, symbol_create};

use crate::texts::{finish, write_numbered};
use std::alloc::AllocError;

/// Appends the command of this number, from 0, of the load of `n` subscribers: with its block, each
/// line ended by LF. After want of memory `out` is as before.
pub fn generate(n: u64, part: u64, out: &mut Vec<u8>) -> Result<(), AllocError>
    requires some { 1 ≤ n }
    requires few { n ≤ 2000 }
    requires part { part < 2 * n + 4 }
    ensures ok { OnOk result (out.new.items ≡ out.old.items ++ part_text n part) }
    ensures err { OnErr result (out.new.items ≡ out.old.items) }
{
    let before = out.len();
    let written = write_part(n, part, out);
    finish(written, before, out)
}

/// Appends the command; what was there stays in front.
fn write_part(n: u64, part: u64, out: &mut Vec<u8>) -> Result<(), AllocError>
    requires few { n ≤ 2000 }
    requires part { part < 2 * n + 4 }
    ensures ok { OnOk result (out.new.items ≡ out.old.items ++ part_text n part) }
    ensures front { StartsWith out.new.items out.old.items }
{
    if part == 0 {
        return out.extend_from_slice(b"source quotes root Quotes key Symbol\n");
    }
    if part == 1 {
        return out.extend_from_slice(b"source companies root Companies key Symbol\n");
    }
    if part < n + 2 {
        return write_create(part - 2, out);
    }
    if part == n + 2 {
        return write_companies(out);
    }
    if part < 2 * n + 3 {
        return write_quote(part - (n + 3), out);
    }
    out.extend_from_slice(b"report\n")
}

/// Appends the create of subscriber `i`; what was there stays in front.
fn write_create(i: u64, out: &mut Vec<u8>) -> Result<(), AllocError>
    requires { i < 2000 }
    ensures ok { OnOk result (out.new.items ≡ out.old.items ++ create_text i) }
    ensures front { StartsWith out.new.items out.old.items }
{
    match i % 3 {
        0 => write_symbol_create(i, out),
        1 => write_price_create(i, out),
        _ => write_area_create(i, out),
    }
}

/// Appends the create that asks for one symbol; what was there stays in front.
fn write_symbol_create(i: u64, out: &mut Vec<u8>) -> Result<(), AllocError>
    ensures ok { OnOk result (out.new.items ≡ out.old.items ++ symbol_create i) }
    ensures front { StartsWith out.new.items out.old.items }
{
    write_filled(
        b"create q",
        i,
        b" WHERE <Quotes><Quote><Symbol>S",
        i % 100,
        b"</></> ELEMENT_AS $g</> IN \"quotes\" CONSTRUCT $g DO count\n.\n",
        out,
    )
}

/// Appends the create that asks for prices above one; what was there stays in front.
fn write_price_create(i: u64, out: &mut Vec<u8>) -> Result<(), AllocError>
    requires { i < 2000 }
    ensures ok { OnOk result (out.new.items ≡ out.old.items ++ price_create i) }
    ensures front { StartsWith out.new.items out.old.items }
{
    write_filled(
        b"create q",
        i,
        b" WHERE <Quotes><Quote><Price>$p</></> ELEMENT_AS $g</> IN \"quotes\", $p > ",
        37 * i % 1000,
        b" CONSTRUCT $g DO count\n.\n",
        out,
    )
}

/// Appends the create that asks for the companies of one area; what was there stays in front.
fn write_area_create(i: u64, out: &mut Vec<u8>) -> Result<(), AllocError>
    ensures ok { OnOk result (out.new.items ≡ out.old.items ++ area_create i) }
    ensures front { StartsWith out.new.items out.old.items }
{
    write_filled(
        b"create q",
        i,
        b" WHERE <Quotes><Quote><Symbol>$s</></> ELEMENT_AS $g</> IN \"quotes\", \
            <Companies><Company><Symbol>$s</><Area>A",
        i % 10,
        b"</></></> IN \"companies\" CONSTRUCT <hit>$g</> DO count\n.\n",
        out,
    )
}

/// Appends the delta of the companies; what was there stays in front.
fn write_companies(out: &mut Vec<u8>) -> Result<(), AllocError>
    ensures ok { OnOk result (out.new.items ≡ out.old.items ++ companies_text) }
    ensures front { StartsWith out.new.items out.old.items }
{
    out.extend_from_slice(b"delta companies\n")?;
    for j in 0..100 {
        write_company(j, out)?;
    }
    out.extend_from_slice(b".\n")
}

/// Appends a company; what was there stays in front.
fn write_company(j: u64, out: &mut Vec<u8>) -> Result<(), AllocError>
    ensures ok { OnOk result (out.new.items ≡ out.old.items ++ company j) }
    ensures front { StartsWith out.new.items out.old.items }
{
    write_filled(
        b"(Company\n(Symbol\n-S",
        j,
        b"\n)Symbol\n(Area\n-A",
        j % 10,
        b"\n)Area\n)Company\n",
        out,
    )
}

/// Appends the delta of quote `j`; what was there stays in front.
fn write_quote(j: u64, out: &mut Vec<u8>) -> Result<(), AllocError>
    requires { j < 2000 }
    ensures ok { OnOk result (out.new.items ≡ out.old.items ++ quote_text j) }
    ensures front { StartsWith out.new.items out.old.items }
{
    write_filled(
        b"delta quotes\n(Quote\n(Symbol\n-S",
        j % 100,
        b"\n)Symbol\n(Price\n-",
        53 * j % 1000,
        b"\n)Price\n)Quote\n.\n",
        out,
    )
}

/// Appends three texts with a number between each two; what was there stays in front.
fn write_filled(
    first: &[u8],
    number: u64,
    second: &[u8],
    other: u64,
    third: &[u8],
    out: &mut Vec<u8>,
) -> Result<(), AllocError>
    ensures ok { OnOk result (out.new.items ≡ out.old.items
        ++ (first.now ++ decimal number ++ second.now ++ decimal other ++ third.now)) }
    ensures front { StartsWith out.new.items out.old.items }
{
    write_numbered(first, number, out)?;
    write_numbered(second, other, out)?;
    out.extend_from_slice(third)
}
