//! What finds the joins that a row may meet: by which slots the rows of a file are noted, which
//! files have had an atom there, and which joins are met whatever came. Rows come in as a file gets
//! them. A file that joins compare stays noted for a row that was taken back, until the file is
//! compacted and has few rows for all that it is noted for, or goes.
ghost use Rattle.std.specs.Prelude.{◌≡◌, ◌<◌, [], ℕ, length, nat_eq, IsSome, OnOk};
ghost use Rattle.std.specs.List.{All, AllByRecursion, list_any};
ghost use Rattle.std.specs.Map.{lookup};
ghost use Rattle.ncq_holders.specs.Held.{is_holder};
ghost use Rattle.ncq_midfile.specs.Content.{signed_at};
ghost use Rattle.ncq_midfile.specs.Shown.{shown, rows_below};
ghost use Rattle.ncq_shelf.specs.Keyed.{AreHeld, IsHeld, HoldsMore, HoldsOthers, HaveKept};
ghost use Rattle.ncq_shelf.specs.Keyed.{IsKey, IsAlways, Grows, ForgetsFile, nowhere, noted_at};
ghost use Rattle.ncq_shelf.specs.Keyed.{HoldsBoth, Renews, slots_in};

use indexmap::{IndexMap, IndexSet};
use ncq_base::{Atom, Copied};
use ncq_holders::Holders;
use ncq_midfile::View;
use ncq_row::Row;
use std::alloc::{AllocError, Global};
use std::hash::RandomState;

/// So many atoms more than its rows can have are kept of a file: a look at the rows costs more.
const FEW_ATOMS: usize = 64;

/// Where the rows of a file are noted, and the atoms under which they are.
pub(crate) struct KeyedFile {
    slots: IndexSet<usize>,
    atoms: Vec<Atom>,
}

impl Drop for KeyedFile {
    fn drop(self) {
        let KeyedFile { slots, atoms } = self;
        drop(slots);
        drop(atoms);
    }
}

/// The files whose rows are noted, the joins that are met whatever came, and the files of each
/// atom.
pub(crate) struct Keys {
    alloc: Global,
    seed: RandomState,
    files: IndexMap<u64, KeyedFile>,
    always: IndexSet<u64>,
    holders: Holders,
}

impl Drop for Keys {
    fn drop(self) {
        let Keys {
            alloc: _,
            seed: _,
            files,
            always,
            holders,
        } = self;
        drop(files);
        drop(always);
        drop(holders);
    }
}

impl Keys {
    /// No row is noted. Atoms are placed by the seed.
    pub(crate) fn new(alloc: Global, seed: RandomState) -> Keys
        ensures { result.files.entries ≡ [] }
    {
        Keys {
            alloc,
            seed,
            files: IndexMap::new(alloc),
            always: IndexSet::new(alloc),
            holders: Holders::new(alloc, seed),
        }
    }

    /// Notes a row of a file at each of the file's slots.
    pub(crate) fn note_row(&mut self, number: u64, row: &Row) -> Result<(), AllocError>
        ensures grows { Grows nowhere self.old self.new }
        ensures ok { OnOk result ((slot : ℕ) → IsKey self.new number slot
            → IsHeld self.new.holders number slot row.now) }
    {
        let Some(keyed) = self.files.get_mut(&number) else {
            return Ok(());
        };
        note_at(
            self.alloc,
            &mut self.holders,
            &mut keyed.atoms,
            keyed.slots.as_slice(),
            number,
            row,
        )
    }

    /// The rows of a file are noted at the slot from now on, and those that it has are.
    pub(crate) fn key(
        &mut self,
        number: u64,
        slot: usize,
        content: &View<'_>,
    ) -> Result<(), AllocError>
        ensures grows { Grows (noted_at number (shown content.now).rows self.new.holders) self.old
            self.new }
        ensures ok { OnOk result (IsKey self.new number slot) }
    {
        open(self.alloc, &mut self.files, number)?;
        let Some(keyed) = self.files.get_mut(&number) else {
            unreachable!()
        };
        if keyed.slots.contains(&slot) {
            return Ok(());
        }
        note_content(
            self.alloc,
            &mut self.holders,
            &mut keyed.atoms,
            slot,
            number,
            content,
        )?;
        keyed.slots.insert(slot)?;
        Ok(())
    }

    /// The join is met whatever comes.
    pub(crate) fn tell_always(&mut self, number: u64) -> Result<(), AllocError>
        ensures grows { Grows nowhere self.old self.new }
        ensures ok { OnOk result (IsAlways self.new number) }
    {
        self.always.insert(number)?;
        Ok(())
    }

    /// Forgets that a file was noted for atoms that none of its rows has now, where many may be
    /// such. After an error all is as before.
    pub(crate) fn renew(&mut self, number: u64, content: &View<'_>) -> Result<(), AllocError>
        ensures { Renews self.old number (shown content.now).rows self.new }
    {
        let Some(keyed) = self.files.get_mut(&number) else {
            return Ok(());
        };
        if !has_stale(keyed, content) {
            return Ok(());
        }
        let mut fresh = Holders::new(self.alloc, self.seed);
        let mut atoms = Vec::new(self.alloc);
        note_slots(
            self.alloc,
            &mut fresh,
            &mut atoms,
            keyed.slots.as_slice(),
            number,
            content,
        )?;
        forget_gone(&mut self.holders, keyed.atoms.as_slice(), &fresh, number);
        keyed.atoms = atoms;
        Ok(())
    }

    /// Forgets the rows of a file, and that it is met whatever comes. It takes no memory.
    pub(crate) fn forget(&mut self, number: u64)
        ensures { ForgetsFile self.old number self.new }
    {
        self.always.swap_remove(&number);
        let Some(keyed) = self.files.swap_remove(&number) else {
            return;
        };
        forget_atoms(&mut self.holders, keyed.atoms.as_slice(), number);
    }

    /// The slots at which the rows of a file are noted.
    pub(crate) fn slots(&self, number: u64) -> &[usize]
        ensures { result.now ≡ slots_in self.now.files.entries number }
    {
        match self.files.get(&number) {
            Some(keyed) => keyed.slots.as_slice(),
            None => &[],
        }
    }

    /// The files that are noted for the atom.
    pub(crate) fn holders(&self, atom: &Atom) -> &[u64]
        ensures { (number : ℕ)
            → list_any (nat_eq number) result.now ≡ is_holder self.now.holders atom.now number }
    {
        self.holders.holders(atom)
    }

    /// The joins that are met whatever comes.
    pub(crate) fn always(&self) -> &[u64]
        ensures { result.now ≡ self.now.always.keys }
    {
        self.always.as_slice()
    }
}

/// The file has slots from now on, if only none.
fn open(alloc: Global, files: &mut IndexMap<u64, KeyedFile>, number: u64) -> Result<(), AllocError>
    ensures kept { HaveKept files.old.entries files.new.entries }
    ensures there { OnOk result (IsSome (lookup (nat_eq number) files.new.entries)) }
{
    if files.contains_key(&number) {
        return Ok(());
    }
    let keyed = KeyedFile {
        slots: IndexSet::new(alloc),
        atoms: Vec::new(alloc),
    };
    files.insert(number, keyed)?;
    Ok(())
}

/// Notes a row at each of these slots.
fn note_at(
    alloc: Global,
    holders: &mut Holders,
    atoms: &mut Vec<Atom>,
    slots: &[usize],
    number: u64,
    row: &Row,
) -> Result<(), AllocError>
    ensures more { HoldsMore holders.old holders.new }
    ensures ok { OnOk result (AllByRecursion (λ slot. IsHeld holders.new number slot row.now)
        slots.now) }
{
    for slot in slots {
        note_slot(alloc, holders, atoms, *slot, number, row)?;
    }
    Ok(())
}

/// Whether a file is noted for far more atoms than its rows can have at its slots. It decides speed
/// alone: nothing is claimed of it.
fn has_stale(keyed: &KeyedFile, content: &View<'_>) -> bool {
    let most = content.len().saturating_mul(keyed.slots.len());
    keyed.atoms.len() > most.saturating_mul(2).saturating_add(FEW_ATOMS)
}

/// Notes each row of a file at each of these slots.
fn note_slots(
    alloc: Global,
    holders: &mut Holders,
    atoms: &mut Vec<Atom>,
    slots: &[usize],
    number: u64,
    content: &View<'_>,
) -> Result<(), AllocError>
    ensures { OnOk result (AllByRecursion
        (λ slot. AreHeld holders.new number slot (shown content.now).rows) slots.now) }
{
    for slot in slots {
        note_content(alloc, holders, atoms, *slot, number, content)?;
    }
    Ok(())
}

/// Notes each row of a file at the slot.
fn note_content(
    alloc: Global,
    holders: &mut Holders,
    atoms: &mut Vec<Atom>,
    slot: usize,
    number: u64,
    content: &View<'_>,
) -> Result<(), AllocError>
    ensures more { HoldsMore holders.old holders.new }
    ensures ok { OnOk result (AreHeld holders.new number slot (shown content.now).rows) }
{
    let places = content.places(alloc)?;
    note_places(
        alloc,
        holders,
        atoms,
        slot,
        number,
        content,
        places.as_slice(),
    )
}

/// Notes the rows at these places of a file at the slot.
fn note_places(
    alloc: Global,
    holders: &mut Holders,
    atoms: &mut Vec<Atom>,
    slot: usize,
    number: u64,
    content: &View<'_>,
    places: &[usize],
) -> Result<(), AllocError>
    requires { All (λ place. place < length (rows_below content.now)) places.now }
    ensures more { HoldsMore holders.old holders.new }
    ensures ok { OnOk result (AreHeld holders.new number slot
        (signed_at places.now (rows_below content.now))) }
{
    for place in places {
        note_slot(alloc, holders, atoms, slot, number, content.row(*place))?;
    }
    Ok(())
}

/// Notes a row at the slot, if it has it, and the atom with those to be forgotten with the file.
fn note_slot(
    alloc: Global,
    holders: &mut Holders,
    atoms: &mut Vec<Atom>,
    slot: usize,
    number: u64,
    row: &Row,
) -> Result<(), AllocError>
    ensures more { HoldsMore holders.old holders.new }
    ensures ok { OnOk result (IsHeld holders.new number slot row.now) }
{
    if slot >= row.len() {
        return Ok(());
    }
    let atom = row.atom(slot);
    if holders.is_holder(atom, number) {
        return Ok(());
    }
    atoms.push(atom.copy(alloc)?)?;
    holders.note(alloc, atom, number)
}

/// The file has had none of the atoms.
fn forget_atoms(holders: &mut Holders, atoms: &[Atom], number: u64)
    ensures { HoldsOthers number holders.old holders.new }
{
    for atom in atoms {
        holders.forget(atom, number);
    }
}

/// The file has had none of the atoms but those that are fresh.
fn forget_gone(holders: &mut Holders, atoms: &[Atom], fresh: &Holders, number: u64)
    ensures others { HoldsOthers number holders.old holders.new }
    ensures both { HoldsBoth fresh.now number holders.old holders.new }
{
    for atom in atoms {
        if !fresh.is_holder(atom, number) {
            holders.forget(atom, number);
        }
    }
}
