//! The values of attributes.
ghost use Rattle.std.specs.Prelude.{◌≡◌, map, IfOk};
ghost use Rattle.std.specs.Option.{option_copied};
ghost use Rattle.ncq_row.specs.Embeddings.{one_of_each, attribute_rows};
ghost use Rattle.ncq_row.specs.Found.{has_rows, option_rows, text_rows};

use crate::row::Row;
use crate::value::Value;
use ncq_base::{Bytes, Copied};
use ncq_tree::Attribute;
use std::alloc::{AllocError, Global};

/// The values of the attributes of these names, where all are there.
pub(crate) fn attribute_values(
    alloc: Global,
    names: &[Bytes],
    attributes: &[Attribute],
) -> Result<Option<Row>, AllocError>
    ensures { IfOk result (λ found.
        option_rows found ≡ one_of_each (map (attribute_rows attributes.now) names.now)) }
{
    let mut row = Row::new(alloc);
    for name in names {
        let Some(value) = attribute_value(attributes, name) else {
            return Ok(None);
        };
        row.push(alloc, Value::Text(value.copy(alloc)?))?;
    }
    Ok(Some(row))
}

/// The value of the attribute of this name.
fn attribute_value<'a>(attributes: &'a [Attribute], name: &Bytes) -> Option<&'a Bytes>
    ensures { text_rows (option_copied result) ≡ attribute_rows attributes.now name.now }
{
    for attribute in attributes {
        if attribute.name == *name {
            return Some(&attribute.value);
        }
    }
    None
}

/// Whether all attributes of these names are there.
pub(crate) fn has_attributes(names: &[Bytes], attributes: &[Attribute]) -> bool
    ensures { result ≡ has_rows (one_of_each (map (attribute_rows attributes.now) names.now)) }
{
    for name in names {
        if attribute_value(attributes, name).is_none() {
            return false;
        }
    }
    true
}
