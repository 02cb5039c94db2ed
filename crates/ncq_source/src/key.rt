//! The key of an element, by a rule.
ghost use Rattle.std.specs.Prelude.{◌≡◌, IfOk, map};
ghost use Rattle.std.specs.List.{flat_map};
ghost use Rattle.ncq_base.specs.Lines.{lines_in};
ghost use Rattle.ncq_flat.specs.Insides.{insides, opens};
ghost use Rattle.ncq_flat.specs.Said.{string_value_in};
ghost use Rattle.ncq_source.specs.Keys.{attribute_keys, key_of, not_empty, only};

use ncq_base::{Bytes, Copied};
use ncq_flat::{Written, behind, first_inside, string_value};
use ncq_tree::Attribute;
use std::alloc::{AllocError, Global};

/// Where the key of an element stands: it is the string value of its one direct child of this name,
/// or the value of its attribute of this name, left as it is. Names are compared byte by byte; the
/// element's own tag is free.
#[derive(Debug)]
pub enum Key {
    /// The one direct child of this name.
    Child(Bytes),
    /// The attribute of this name.
    Attribute(Bytes),
}

impl Drop for Key {
    fn drop(self) {
        match self {
            Key::Child(child) => drop(child),
            Key::Attribute(attribute) => drop(attribute),
        }
    }
}

impl Copied for Key {
    fn copy(&self, alloc: Global) -> Result<Key, AllocError> {
        Ok(match self {
            Key::Child(name) => Key::Child(name.copy(alloc)?),
            Key::Attribute(name) => Key::Attribute(name.copy(alloc)?),
        })
    }
}

/// The element's one key value: none exactly where it has no key value, or two or more, be they
/// equal, or an empty one. For the value of a child it makes no tree of the element's lines.
pub fn key_of(alloc: Global, rule: &Key, element: &Written) -> Result<Option<Bytes>, AllocError>
    ensures { IfOk result (λ key. key ≡ key_of rule.now element.now) }
{
    match rule {
        Key::Child(name) => child_key(alloc, name.as_slice(), element.inside()),
        Key::Attribute(name) => {
            let plain = element.element(alloc)?;
            attribute_key(alloc, name, plain.attributes.as_slice())
        }
    }
}

/// The key that is the string value of the one child of this name of the element inside which the
/// text begins.
fn child_key(alloc: Global, name: &[u8], text: &[u8]) -> Result<Option<Bytes>, AllocError>
    ensures { IfOk result (λ key. key
        ≡ only (map string_value_in (insides (opens name.now) 0 (lines_in text.now)))) }
{
    let Some(inside) = first_inside(text, name) else {
        return Ok(None);
    };
    match first_inside(behind(inside), name) {
        Some(_) => Ok(None),
        None => Ok(unless_empty(string_value(alloc, inside)?)),
    }
}

/// The key that is the value of the one attribute of this name.
fn attribute_key(
    alloc: Global,
    name: &Bytes,
    attributes: &[Attribute],
) -> Result<Option<Bytes>, AllocError>
    ensures { IfOk result (λ key. key ≡ only (flat_map (attribute_keys name.now) attributes.now)) }
{
    let mut found: Option<&Bytes> = None;
    for attribute in attributes {
        if *name == attribute.name {
            if found.is_some() {
                return Ok(None);
            }
            found = Some(&attribute.value);
        }
    }
    match found {
        Some(value) if !value.as_slice().is_empty() => Ok(Some(value.copy(alloc)?)),
        _ => Ok(None),
    }
}

/// The value, where it is not empty.
fn unless_empty(value: Bytes) -> Option<Bytes>
    ensures { result ≡ not_empty value }
{
    if value.as_slice().is_empty() {
        return None;
    }
    Some(value)
}
