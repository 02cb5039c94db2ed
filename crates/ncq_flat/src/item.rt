//! What a block asks for, with elements as their lines.
ghost use Rattle.std.specs.Prelude.{◌≡◌};
ghost use Rattle.ncq_pyx.specs.declared.item.Item.TheVariants.{Put, Remove};
ghost use Rattle.ncq_flat.specs.Asked.{asked_of};

use crate::written::Written;
use ncq_base::{Bytes, Sequence, Shared};
use std::marker::Model;

/// To put an element, or to remove the element of a key.
#[derive(Drop)]
pub enum Asked {
    Put(Shared<Written>),
    Remove(Bytes),
}

/// What a block asks for. Who keeps the element shares it. Contracts see it as the item that
/// `ncq_pyx` reads.
#[derive(Drop)]
pub struct Item {
    asked: Asked,
}

impl Model for Item {
    ghost use Rattle.ncq_pyx.specs.declared.item.Item.{Item as an_item};
    ghost use Rattle.ncq_pyx.specs.contracts.item.Item.{the_row};
    ghost use Rattle.ncq_flat.specs.Asked.{asked_of};

    ghost Value = { an_item };

    ghost coded = { the_row.coded };

    ghost view = { λ i. asked_of i.asked };
}

/// What a block asks for, in order.
pub type Items = Sequence<Item>;

impl Item {
    /// To put the element.
    pub fn put(element: Shared<Written>) -> Item
        ensures { result ≡ Put element }
    {
        Item {
            asked: Asked::Put(element),
        }
    }

    /// To remove the element of the key.
    pub fn remove(key: Bytes) -> Item
        ensures { result ≡ Remove key }
    {
        Item {
            asked: Asked::Remove(key),
        }
    }

    /// What is asked for.
    pub fn asked(&self) -> &Asked
        ensures { asked_of result.now ≡ self.now }
    {
        &self.asked
    }
}
