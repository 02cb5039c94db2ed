//! The variables of a query by their first slots.
ghost use Rattle.std.specs.Prelude.{◌≡◌, ◌++◌, ◌∷◌, [], IfOk, OnOk, length, List};
ghost use Rattle.ncq_bind.specs.Firsts.{FindsFirst, found_first};
ghost use Rattle.ncq_bind.specs.Constraints.{first_slot};
ghost use Rattle.ncq_bind.specs.Bound.{is_bound};
ghost use Rattle.ncq_xmlql.specs.declared.model.Operand.{Operand as OperandValue};

use indexmap::IndexMap;
use ncq_base::{Bytes, Copied};
use ncq_xmlql::Operand;
use std::alloc::{AllocError, Global};
use std::marker::Model;

/// The places of a query, and the first slot of each variable by its name.
#[derive(Drop)]
pub(crate) struct Names<'a> {
    places: &'a [Operand],
    slots: IndexMap<Bytes, usize>,
}

impl<'a> Model for Names<'a> {
    ghost use Rattle.std.specs.Prelude.{List};
    ghost use Rattle.std.specs.Coded.{coded_list};
    ghost use Rattle.ncq_xmlql.specs.declared.model.Operand.{Operand as OperandValue};
    ghost use Rattle.ncq_xmlql.specs.contracts.model.Operand.{the_row as operand_row};
    ghost use Rattle.ncq_bind.specs.Firsts.{FindsFirst};

    ghost Value = { List OperandValue };

    ghost coded = { coded_list operand_row.coded };

    ghost view = { λ n. n.places.now };

    ghost invariant = { λ n. FindsFirst n.slots.entries n.places.now };
}

/// Notes the slot of a variable, where it has none yet.
fn note_first(
    alloc: Global,
    slots: &mut IndexMap<Bytes, usize>,
    place: &Operand,
    slot: usize,
) -> Result<(), AllocError>
    ensures { OnOk result ((before : List OperandValue) → length before ≡ slot
        → FindsFirst slots.old.entries before
        → FindsFirst slots.new.entries (before ++ place.now ∷ [])) }
{
    if let Operand::Variable(x) = place {
        if slots.get(x).is_none() {
            slots.insert(x.copy(alloc)?, slot)?;
        }
    }
    Ok(())
}

/// The first slots of the variables at these places.
fn first_slots(alloc: Global, places: &[Operand]) -> Result<IndexMap<Bytes, usize>, AllocError>
    ensures { IfOk result (λ m. FindsFirst m.entries places.now) }
{
    let mut slots = IndexMap::new(alloc);
    for (slot, place) in places.iter().enumerate() {
        note_first(alloc, &mut slots, place, slot)?;
    }
    Ok(slots)
}

impl<'a> Names<'a> {
    /// The variables at these places.
    pub(crate) fn new(alloc: Global, places: &'a [Operand]) -> Result<Names<'a>, AllocError>
        ensures { IfOk result (λ n. n ≡ places.now) }
    {
        let slots = first_slots(alloc, places)?;
        Ok(Names { places, slots })
    }

    /// The places.
    pub(crate) fn places(&self) -> &[Operand]
        ensures { result.now ≡ self.now }
    {
        self.places
    }

    /// The first slot of a variable, where it has one.
    fn find(&self, name: &Bytes) -> Option<usize>
        ensures { result ≡ found_first self.now name.now }
    {
        self.slots.get(name).copied()
    }

    /// The first slot of a variable; the number of places where it has none.
    #[tactic(auto, using(crate::proofs::Firsts::found_slot))]
    pub(crate) fn slot(&self, name: &Bytes) -> usize
        ensures { result ≡ first_slot self.now name.now }
    {
        self.find(name).unwrap_or(self.places.len())
    }

    /// Whether the variable has a place.
    #[tactic(auto, using(crate::proofs::Firsts::found_is_bound))]
    pub(crate) fn is_bound(&self, name: &Bytes) -> bool
        ensures { result ≡ is_bound self.now name.now }
    {
        self.find(name).is_some()
    }
}
