//! Files of the rows of a history, each row with one value.
//!
//! A history is a list of rows, each with its letter, the number of the change that it comes with,
//! and that of the change that it goes with, or 0 where it stays.
ghost use Rattle.std.specs.Prelude.{◌≡◌, ◌<◌, ◌≤◌, ◌∷◌, [], length, IfOk, OnOk, IsTrue};
ghost use Rattle.std.specs.List.{AllByRecursion};
ghost use Rattle.ncq_midfile.specs.Content.{IsSound};
ghost use Rattle.ncq_midfile.specs.Made.{gained_at, lost_at};
ghost use Rattle.ncq_midfile.specs.Matching.{HaveSlots};

use super::making::{seed, value_rows};
use ncq_base::Steps;
use ncq_midfile::{MidFile, SignedRow};
use ncq_row::{Row, Rows};
use std::alloc::{AllocError, Global};
use std::sync::ledger::Ledger;

/// Whether a row with this number may be appended.
pub fn fits(file: &MidFile, number: u64) -> bool
    ensures above { IsTrue result → file.now.base < number }
    ensures last { IsTrue result → AllByRecursion (λ r. r.number ≤ number) file.now.rows }
{
    file.base() < number && file.rows_since(number).is_empty()
}

/// The row with a number and a sign.
pub fn signed<L: Ledger>(
    alloc: Global,
    number: u64,
    plus: bool,
    row: &Row,
    steps: &mut Steps<L>,
) -> Result<SignedRow, AllocError>
    ensures { IfOk result (λ s. s ≡ record { number = number; plus = plus; row = row.now }) }
{
    Ok(SignedRow {
        number,
        plus,
        row: row.copy(alloc, steps)?,
    })
}

/// A row that comes in.
fn append_one(file: &mut MidFile, come: SignedRow) -> Result<(), AllocError>
    requires above { file.old.base < come.number }
    requires last { AllByRecursion (λ r. r.number ≤ come.number) file.old.rows }
    requires come { come ≡ gained_at come.number come.row }
    requires single { length come.row ≡ 1 }
    requires sound { IsSound file.old.rows }
    requires one { AllByRecursion (λ r. length r.row ≡ 1) file.old.rows }
    ensures sound { OnOk result (IsSound file.new.rows) }
    ensures one { OnOk result (AllByRecursion (λ r. length r.row ≡ 1) file.new.rows) }
{
    file.append(come)
}

/// A row that comes in, and goes out not before.
fn append_both(file: &mut MidFile, come: SignedRow, gone: SignedRow) -> Result<(), AllocError>
    requires above { file.old.base < come.number }
    requires last { AllByRecursion (λ r. r.number ≤ come.number) file.old.rows }
    requires later { come.number ≤ gone.number }
    requires come { come ≡ gained_at come.number come.row }
    requires gone { gone ≡ lost_at gone.number come.row }
    requires single { length come.row ≡ 1 }
    requires sound { IsSound file.old.rows }
    requires one { AllByRecursion (λ r. length r.row ≡ 1) file.old.rows }
    ensures sound { OnOk result (IsSound file.new.rows) }
    ensures one { OnOk result (AllByRecursion (λ r. length r.row ≡ 1) file.new.rows) }
{
    file.append(come)?;
    file.append(gone)
}

/// The row comes with one change and goes with another, where it does not stay.
fn add<L: Ledger>(
    alloc: Global,
    file: &mut MidFile,
    row: &Row,
    come: u64,
    go: u64,
    steps: &mut Steps<L>,
) -> Result<(), AllocError>
    requires sound { IsSound file.old.rows }
    requires one { AllByRecursion (λ r. length r.row ≡ 1) file.old.rows }
    ensures sound { OnOk result (IsSound file.new.rows) }
    ensures one { OnOk result (AllByRecursion (λ r. length r.row ≡ 1) file.new.rows) }
{
    if row.len() != 1 || !fits(file, come) {
        return Err(AllocError);
    }
    let first = signed(alloc, come, true, row, steps)?;
    if go < come {
        return append_one(file, first);
    }
    let second = signed(alloc, go, false, row, steps)?;
    append_both(file, first, second)
}

/// The row of the letter comes with one change and goes with another.
pub fn bring<L: Ledger>(
    alloc: Global,
    file: &mut MidFile,
    letter: u8,
    come: u64,
    go: u64,
    steps: &mut Steps<L>,
) -> Result<(), AllocError>
    requires sound { IsSound file.old.rows }
    requires one { AllByRecursion (λ r. length r.row ≡ 1) file.old.rows }
    ensures sound { OnOk result (IsSound file.new.rows) }
    ensures one { OnOk result (AllByRecursion (λ r. length r.row ≡ 1) file.new.rows) }
{
    let rows = value_rows(alloc, &[letter], steps)?;
    match rows.get(0) {
        Some(row) => add(alloc, file, row, come, go, steps),
        None => Err(AllocError),
    }
}

/// Makes an index, where it is wanted now.
fn index_if(alloc: Global, file: &mut MidFile, wanted: bool) -> Result<(), AllocError>
    requires { AllByRecursion (λ r. length r.row ≡ 1) file.old.rows }
    ensures { file.new ≡ file.old }
{
    if wanted {
        return file.ensure_index(alloc, &[0]);
    }
    Ok(())
}

/// A file with a history, with an index from the moment on when so many rows have come.
pub fn file_of<L: Ledger>(
    alloc: Global,
    history: &[(u8, u64, u64)],
    moment: usize,
    steps: &mut Steps<L>,
) -> Result<MidFile, AllocError>
    ensures sound { IfOk result (λ f. IsSound f.rows) }
    ensures one { IfOk result (λ f. AllByRecursion (λ r. length r.row ≡ 1) f.rows) }
    ensures wide { IfOk result (λ f. HaveSlots (0 ∷ []) f.rows) }
{
    let mut file = MidFile::new(alloc, seed()?, 0, Rows::new(alloc))?;
    for at in 0..history.len() {
        index_if(alloc, &mut file, at == moment)?;
        let (letter, come, go) = history[at];
        bring(alloc, &mut file, letter, come, go, steps)?;
    }
    Ok(file)
}
