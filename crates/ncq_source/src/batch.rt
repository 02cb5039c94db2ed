//! The sections of a batch as a list.
ghost use Rattle.std.specs.Prelude.{◌≡◌, ◌<◌, [], ◌∷◌, ◌++◌, length, slice_get, OnOk, OnErr};
ghost use Rattle.std.specs.Prelude.{OnSome};
ghost use Rattle.std.specs.Option.{option_copied};
ghost use Rattle.ncq_source.specs.Fews.{sections_in};

use crate::change::Section;
use std::alloc::{AllocError, Global};
use std::marker::Model;
use std::{mem, slice};

/// The sections of a batch, in order. A source may be named several times. One section alone takes
/// no block of memory. Contracts see it as the list of its sections.
pub struct Sections {
    few: FewSections,
    alloc: Global,
}

impl Drop for Sections {
    fn drop(self) {
        let Sections { few, alloc: _ } = self;
        drop(few);
    }
}

/// Sections, of which one alone stands in the value itself.
#[derive(Drop)]
pub(crate) enum FewSections {
    Empty,
    One(Section),
    Several(Vec<Section>),
}

impl Model for Sections {
    ghost use Rattle.std.specs.Prelude.{List};
    ghost use Rattle.std.specs.Coded.{coded_list};
    ghost use Rattle.ncq_source.specs.Fews.{sections_in};
    ghost use Rattle.ncq_source.specs.declared.change.Section.{Section};
    ghost use Rattle.ncq_source.specs.contracts.change.Section.{the_row};

    ghost Value = { List Section };

    ghost coded = { coded_list the_row.coded };

    ghost view = { λ s. sections_in s.few };
}

impl Sections {
    /// No section.
    pub fn new(alloc: Global) -> Sections
        ensures { result ≡ [] }
    {
        Sections {
            few: FewSections::Empty,
            alloc,
        }
    }

    /// How many sections they are.
    pub fn len(&self) -> usize
        ensures { result ≡ length self.now }
    {
        self.as_slice().len()
    }

    /// The section at this place, from 0; none where the place is not below `len`.
    pub fn get(&self, at: usize) -> Option<&Section>
        ensures value { option_copied result ≡ slice_get self.now at }
        ensures within { OnSome result (at < length self.now) }
    {
        self.as_slice().get(at)
    }

    /// The sections, in order.
    pub fn as_slice(&self) -> &[Section]
        ensures { result.now ≡ self.now }
    {
        match &self.few {
            FewSections::Empty => &[],
            FewSections::One(section) => slice::from_ref(section),
            FewSections::Several(sections) => sections.as_slice(),
        }
    }

    /// Adds a section at the end. Where memory runs out, the sections are as before.
    pub fn push(&mut self, section: Section) -> Result<(), AllocError>
        ensures ok { OnOk result (self.new ≡ self.old ++ section ∷ []) }
        ensures err { OnErr result (self.new ≡ self.old) }
    {
        self.few.push(self.alloc, section)
    }
}

impl FewSections {
    fn push(&mut self, alloc: Global, section: Section) -> Result<(), AllocError>
        ensures ok { OnOk result (sections_in self.new ≡ sections_in self.old ++ section ∷ []) }
        ensures err { OnErr result (sections_in self.new ≡ sections_in self.old) }
    {
        match self {
            FewSections::Empty => *self = FewSections::One(section),
            FewSections::One(_) => {
                let mut sections = Vec::with_capacity(alloc, 2)?;
                if let FewSections::One(first) = mem::replace(self, FewSections::Empty) {
                    sections.push(first)?;
                }
                sections.push(section)?;
                *self = FewSections::Several(sections);
            }
            FewSections::Several(sections) => sections.push(section)?,
        }
        Ok(())
    }
}
