//! Subscriptions that end.
ghost use Rattle.std.specs.Prelude.{◌≡◌, ◌++◌, if◌then◌else◌, nat_eq, OnOk, ℕ};
ghost use Rattle.std.specs.FinMap.{empty};
ghost use Rattle.std.specs.Io.{StartsWith};
ghost use Rattle.std.specs.List.{flat_map, list_any};
ghost use Rattle.ncq_distinct.specs.DistinctTables.{counts_at};
ghost use Rattle.ncq_engine.specs.Output.{expired_line};
ghost use Rattle.ncq_engine.specs.Tellings.{expired_of, IsLeftBy};

use ncq_book::Book;
use ncq_distinct::DistinctTable;
use ncq_live::LiveTable;
use std::alloc::AllocError;

/// Appends the lines of the subscriptions of these install numbers; what was there stays in front.
pub(crate) fn write_expired(
    book: &Book,
    installs: &[u64],
    out: &mut Vec<u8>,
) -> Result<(), AllocError>
    ensures text { OnOk result (out.new.items ≡ out.old.items
        ++ flat_map (expired_of book.now.subscriptions) installs.now) }
    ensures front { StartsWith out.new.items out.old.items }
{
    for install in installs {
        write_expired_one(book, *install, out)?;
    }
    Ok(())
}

/// Appends the line of the subscription of this install number, where it is there.
fn write_expired_one(book: &Book, install: u64, out: &mut Vec<u8>) -> Result<(), AllocError>
    ensures text { OnOk result (out.new.items ≡ out.old.items
        ++ expired_of book.now.subscriptions install) }
    ensures front { StartsWith out.new.items out.old.items }
{
    match book.get(install) {
        Some(subscription) => write_expired_line(subscription.name.as_slice(), out),
        None => Ok(()),
    }
}

fn write_expired_line(name: &[u8], out: &mut Vec<u8>) -> Result<(), AllocError>
    ensures text { OnOk result (out.new.items ≡ out.old.items ++ expired_line name.now) }
    ensures front { StartsWith out.new.items out.old.items }
{
    out.extend_from_slice(b"expired ")?;
    out.extend_from_slice(name)?;
    out.push(b'\n')?;
    Ok(())
}

/// Takes the subscriptions of these install numbers away, with their counts, and gives up their
/// uses of their files. It takes no memory.
pub(crate) fn take_all(live_table: &mut LiveTable, distinct: &mut DistinctTable, installs: &[u64])
    ensures left { IsLeftBy installs.now live_table.old live_table.new }
    ensures counts { (any : ℕ) → counts_at distinct.new any
        ≡ (if list_any (nat_eq any) installs.now then empty else counts_at distinct.old any) }
{
    for install in installs {
        live_table.remove(*install);
        distinct.remove(*install);
    }
}
