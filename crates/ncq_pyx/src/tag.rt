//! The attributes of an open element, beside the set of their names.
//! Whether a name stands already is asked for each attribute line, so that a tag with many
//! attributes stays cheap.
ghost use Rattle.std.specs.Prelude.{◌≡◌, ◌∷◌, ◌++◌, [], IfOk};
ghost use Rattle.ncq_tree.specs.Normal.{has_name};

use ncq_base::{Bytes, Copied};
use ncq_tree::{Attribute, Attributes};
use std::alloc::{AllocError, Global};
use std::collections::BTreeSet;
use std::marker::Model;

/// Attributes in written order. Contracts see them as a list.
#[derive(Drop)]
pub(crate) struct TagAttributes {
    attributes: Attributes,
    names: BTreeSet<Bytes>,
}

impl Model for TagAttributes {
    ghost use Rattle.std.specs.Prelude.{◌≡◌, List, ℕ};
    ghost use Rattle.ncq_tree.specs.declared.model.Attribute.{Attribute as an_attribute};
    ghost use Rattle.ncq_pyx.specs.LineKinds.{is_among};
    ghost use Rattle.ncq_tree.specs.Normal.{has_name};

    ghost Value = { List an_attribute };

    ghost view = { λ t. t.attributes };

    ghost invariant = { λ t. (name : List ℕ) → is_among t.names name ≡ has_name t.attributes name };
}

impl TagAttributes {
    /// No attributes.
    pub(crate) fn new(alloc: Global) -> TagAttributes
        ensures { result ≡ [] }
    {
        TagAttributes {
            attributes: Attributes::new(alloc),
            names: BTreeSet::new(alloc),
        }
    }

    /// Whether one of the attributes has the name.
    pub(crate) fn has_name(&self, name: &Bytes) -> bool
        ensures { result ≡ has_name self.now name.now }
    {
        self.names.contains(name)
    }

    /// These attributes and one more behind them.
    pub(crate) fn with(
        self,
        alloc: Global,
        attribute: Attribute,
    ) -> Result<TagAttributes, AllocError>
        ensures { IfOk result (λ t. t ≡ self ++ attribute ∷ []) }
    {
        let TagAttributes {
            mut attributes,
            mut names,
        } = self;
        names.insert(attribute.name.copy(alloc)?)?;
        attributes.push(attribute)?;
        Ok(TagAttributes { attributes, names })
    }

    pub(crate) fn into_attributes(self) -> Attributes
        ensures { result ≡ self }
    {
        let TagAttributes { attributes, .. } = self;
        attributes
    }
}
