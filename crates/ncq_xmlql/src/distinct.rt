//! Names that differ.
ghost use Rattle.std.specs.Prelude.{◌≡◌, IfOk};
ghost use Rattle.ncq_xmlql.specs.Reading.{names_differ};

use crate::model::PatternAttribute;
use ncq_base::Copied;
use std::alloc::{AllocError, Global};
use std::collections::BTreeSet;

/// Whether no two attributes have one name.
pub(crate) fn names_differ(
    alloc: Global,
    attributes: &[PatternAttribute],
) -> Result<bool, AllocError>
    ensures { IfOk result (λ differ. differ ≡ names_differ attributes.now) }
{
    let mut seen = BTreeSet::new(alloc);
    for attribute in attributes {
        let added = seen.insert(attribute.name.copy(alloc)?)?;
        if !added {
            return Ok(false);
        }
    }
    Ok(true)
}
