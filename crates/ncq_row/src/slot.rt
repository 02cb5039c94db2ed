//! A value with its atom.
ghost use Rattle.std.specs.Prelude.{◌≡◌, IfOk, IsTrue, ◌↔◌};
ghost use Rattle.ncq_base.specs.Atoms.{atom_of};
ghost use Rattle.ncq_tree.specs.Texts.{string_value};
ghost use Rattle.ncq_row.specs.Values.{value_atom};

use crate::nodes::{Nodes, Shown};
use crate::value::{Value, is_same_value};
use ncq_base::{Atom, atom_of, into_atom};
use std::alloc::{AllocError, Global};
use std::hash::{Hash, Hasher};
use std::marker::Model;

/// A value with its atom, which is made once.
#[derive(Drop)]
pub(crate) struct Slot {
    value: Value,
    atom: Atom,
}

impl Model for Slot {
    ghost use Rattle.std.specs.Prelude.{◌≡◌};
    ghost use Rattle.ncq_row.specs.declared.value.Value.{Value as a_value};
    ghost use Rattle.ncq_row.specs.contracts.value.Value.{the_row as value_row};

    ghost Value = { a_value };

    ghost coded = { value_row.coded };

    ghost use Rattle.ncq_row.specs.Values.{value_atom};

    ghost view = { λ s. s.value };

    ghost invariant = { λ s. s.atom ≡ value_atom s.value };
}

impl Slot {
    pub(crate) fn new(alloc: Global, value: Value) -> Result<Slot, AllocError>
        ensures { IfOk result (λ s. s ≡ value) }
    {
        let atom = match &value {
            Value::Text(text) => atom_of(alloc, text.as_slice())?,
            Value::Nodes(nodes) => atom_of_nodes(alloc, nodes)?,
        };
        Ok(Slot { value, atom })
    }

    pub(crate) fn value(&self) -> &Value
        ensures { result.now ≡ self.now }
    {
        &self.value
    }

    pub(crate) fn atom(&self) -> &Atom
        ensures { result.now ≡ value_atom self.now }
    {
        &self.atom
    }

    pub(crate) fn is_same(&self, other: &Slot) -> bool
        ensures { IsTrue result ↔ (self.now ≡ other.now) }
    {
        is_same_value(self.value(), other.value())
    }
}

/// The atom of the string value. One text, as most often, is its own string value.
#[tactic(auto, using(crate::proofs::NodesLaws::string_is))]
fn atom_of_nodes(alloc: Global, nodes: &Nodes) -> Result<Atom, AllocError>
    ensures { IfOk result (λ a. a ≡ atom_of (string_value nodes.now)) }
{
    match nodes.shown() {
        Shown::Text(text) => atom_of(alloc, text.as_slice()),
        _ => Ok(into_atom(nodes.string_value(alloc)?)),
    }
}

impl PartialEq for Slot {
    ghost use Rattle.ncq_base.specs.Exact.{exact, exact_per};
    ghost use Rattle.ncq_row.specs.contracts.value.Value.{the_row as value_row};

    ghost eq = { exact value_row.coded };

    ghost laws = { exact_per value_row.coded };

    fn eq(&self, other: &Slot) -> bool {
        self.is_same(other)
    }
}

impl Eq for Slot {
    ghost use Rattle.ncq_base.specs.Exact.{exact_equiv};
    ghost use Rattle.ncq_row.specs.contracts.value.Value.{the_row as value_row};

    ghost laws = { exact_equiv value_row.coded };
}

impl Hash for Slot {
    ghost use Rattle.ncq_base.specs.Exact.{exact_alike};
    ghost use Rattle.ncq_row.specs.Fed.{value_fed};
    ghost use Rattle.ncq_row.specs.contracts.value.Value.{the_row as value_row};

    ghost hash_input = { value_fed };

    ghost respects_eq = { exact_alike value_row.coded value_fed };

    fn hash<H: Hasher>(&self, state: &mut H) {
        self.atom.hash(state);
    }
}
