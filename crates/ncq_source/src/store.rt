//! The store: sources that are declared, looked at and changed.
ghost use Rattle.std.specs.Prelude.{◌≡◌, ◌<◌, ◌-◌, ◌^◌, ◌↔◌, [], length, map, slice_get, Some};
ghost use Rattle.std.specs.Prelude.{None, Err, IfOk, OnOk, OnErr, IsSome, true, false, position};
ghost use Rattle.std.specs.Prelude.{◌++◌, ◌∷◌, vec_capacity, vec_len};
ghost use Rattle.std.specs.Str.{bytes_eq};
ghost use Rattle.std.specs.Option.{is_some, option_map};
ghost use Rattle.std.specs.List.{list_all, AllByRecursion};
ghost use Rattle.ncq_source.specs.Keys.{key_of};
ghost use Rattle.ncq_source.specs.Proper.{IsProper, IsProperStore, PutsProperPortion, puts_proper};
ghost use Rattle.ncq_source.specs.Sections.{are_known, batch_trial};
ghost use Rattle.ncq_source.specs.Stores.{ShowsEach};
ghost use Rattle.ncq_source.specs.StoreStates.{AreDeclared, ArePortionsOf, At, Declares, HasRoom};
ghost use Rattle.ncq_source.specs.StoreStates.{IsAlike, IsCommitted, IsDeclared, TellsBatch, found};
ghost use Rattle.ncq_source.specs.StoreStates.{holdings_of};
ghost use Rattle.ncq_source.specs.Views.{source_of};

use crate::batch::Sections;
use crate::change::{Change, ChangeError, Section, SourceId};
use crate::commit::{commit_all, reserve_all};
use crate::declared::Declared;
use crate::elements::Elements;
use crate::key::{Key, key_of};
use crate::names::Names;
use crate::sections::prepare_sections;
use ncq_base::{Bytes, Shared};
use ncq_flat::Written;
use std::alloc::{AllocError, Global};
use std::hash::RandomState;
use std::marker::Model;
use thiserror::Error;

/// The declared sources in the order of declaration, and the number of changes that were committed
/// to all of them together. Contracts see it as the two, and each source as a record: its name, its
/// root, its key, its elements by their keys, its last change, the order in which its elements are
/// shown, and its room.
pub struct Store {
    names: Names,
    sources: Vec<Declared>,
    changes: u64,
    seed: RandomState,
}

impl Drop for Store {
    fn drop(self) {
        let Store {
            names,
            sources,
            changes: _,
            seed,
        } = self;
        drop(names);
        drop(sources);
        drop(seed);
    }
}

impl Model for Store {
    ghost use Rattle.ncq_source.specs.StoreStates.{StoreState, store_code};
    ghost use Rattle.ncq_source.specs.Views.{source_of};
    ghost use Rattle.std.specs.Prelude.{◌≡◌, map};

    ghost Value = { StoreState };

    ghost coded = { store_code };

    ghost view = { λ s. record { sources = map source_of s.sources.items; changes = s.changes } };

    ghost invariant = { λ s. s.names ≡ map (λ d. d.name) (map source_of s.sources.items) };
}

/// Why a source was not declared. The store is then as it was.
#[derive(Debug, Drop, Error)]
pub enum DeclareError {
    /// A source of the name is declared already.
    #[error("the source exists")]
    Exists,
    /// Memory ran out; this may come at any call.
    #[error("out of memory")]
    OutOfMemory,
}

impl From<AllocError> for DeclareError {
    ghost use Rattle.ncq_source.specs.declared.store.DeclareError.TheVariants.{OutOfMemory};

    ghost from_gives = { λ _ e. e ≡ OutOfMemory };

    fn from(_refused: AllocError) -> DeclareError {
        DeclareError::OutOfMemory
    }
}

impl Store {
    /// A store without sources and without changes. Its maps place keys by the seed, so that nobody
    /// who does not know it can choose names and keys that fall together.
    pub fn new(alloc: Global, seed: RandomState) -> Store
        ensures empty { result ≡ record { sources = []; changes = 0 } }
        ensures proper { IsProperStore result }
    {
        Store {
            names: Names::new(alloc, seed),
            sources: Vec::new(alloc),
            changes: 0,
            seed,
        }
    }

    /// How many sources are declared.
    pub fn count(&self) -> usize
        ensures { result ≡ length self.now.sources }
    {
        self.sources.len()
    }

    /// How many changes were committed, to all sources together.
    pub fn changes(&self) -> u64
        ensures { result ≡ self.now.changes }
    {
        self.changes
    }

    /// The source of this name: none exactly where no source has it. It takes no memory.
    pub fn find(&self, name: &[u8]) -> Option<SourceId>
        ensures { option_map (λ s. s.0) result ≡ found self.now name.now }
    {
        Some(SourceId(self.names.find(name)?))
    }

    /// Declares a source without elements, whose last change is 0; it comes behind the others.
    /// `Exists` comes exactly where the name is declared already. After an error the store is as it
    /// was.
    pub fn declare(
        &mut self,
        alloc: Global,
        name: Bytes,
        root: Bytes,
        key: Key,
    ) -> Result<SourceId, DeclareError>
        ensures exists { result ≡ Err DeclareError.Exists ↔ IsSome (found self.old name) }
        ensures id { IfOk result (λ id. id.0 ≡ length self.old.sources) }
        ensures ok { OnOk result (Declares self.old self.new name root key) }
        ensures err { OnErr result (self.new ≡ self.old) }
        ensures proper { IsProperStore self.old → IsProperStore self.new }
    {
        take_name(alloc, &mut self.names, &mut self.sources, name.as_slice())?;
        let at = self.sources.len();
        let declared = Declared {
            name,
            root,
            key,
            elements: Elements::new(alloc, self.seed),
            last: 0,
        };
        self.sources.push(declared).unwrap();
        Ok(SourceId(at))
    }

    pub(crate) fn source(&self, id: SourceId) -> &Declared
        requires { IsDeclared self.now id }
        ensures { slice_get self.now.sources id.0 ≡ Some (source_of result.now) }
    {
        &self.sources[id.0]
    }

    /// The name under which the source was declared.
    pub fn name_of(&self, id: SourceId) -> &Bytes
        requires { IsDeclared self.now id }
        ensures { At self.now id (λ s. result.now ≡ s.name) }
    {
        &self.source(id).name
    }

    /// The tag of the source's root, as it was declared.
    pub fn root_of(&self, id: SourceId) -> &Bytes
        requires { IsDeclared self.now id }
        ensures { At self.now id (λ s. result.now ≡ s.root) }
    {
        &self.source(id).root
    }

    /// The key of an element by the rule of the source: none exactly where it has not exactly one
    /// key value that is not empty. The element need not be one of the source.
    pub fn key_of(
        &self,
        alloc: Global,
        id: SourceId,
        element: &Written,
    ) -> Result<Option<Bytes>, AllocError>
        requires { IsDeclared self.now id }
        ensures { IfOk result (λ key. At self.now id (λ s. key ≡ key_of s.key element.now)) }
    {
        key_of(alloc, &self.source(id).key, element)
    }

    /// The number that the last change of the source had among all changes, or 0 before its first.
    pub fn last_change(&self, id: SourceId) -> u64
        requires { IsDeclared self.now id }
        ensures { At self.now id (λ s. result ≡ s.last) }
    {
        self.source(id).last
    }

    /// How many elements the source has, each under a key of its own.
    pub fn size(&self, id: SourceId) -> usize
        requires { IsDeclared self.now id }
        ensures count { At self.now id (λ s. result ≡ length s.shown) }
        ensures each { At self.now id ShowsEach }
    {
        self.source(id).elements.len()
    }

    /// The element at a place below the size, to be shared, in an order of the store's own: from 0
    /// to the size less 1 each element is shown once. A commit may change the order. Where all
    /// elements of the store are proper, it is proper.
    pub fn written(&self, id: SourceId, at: usize) -> &Shared<Written>
        requires id { IsDeclared self.now id }
        requires at { At self.now id (λ s. at < length s.shown) }
        ensures place { At self.now id (λ s.
            slice_get (map (λ p. p.1) s.shown) at ≡ Some result.now) }
        ensures proper { IsProperStore self.now → IsProper result.now }
    {
        let elements = &self.source(id).elements;
        prove!(at < elements.len());
        elements.at(at)
    }

    /// What the sections do to the sources that they name, without doing it: for each such source
    /// one entry for each item, with what its key holds before and after. `NoSource` comes exactly
    /// where a section names no declared source. Else the first item that cannot be applied, seen
    /// through the items before it, decides: `BadKey` for a put whose element has not exactly one
    /// key value that is not empty, `NoSuchKey` for a removal of a key that holds no element there.
    /// Positions count the items of all sections from 1. It shares the elements of the items, and
    /// copies their keys.
    pub fn prepare(&self, alloc: Global, sections: &Sections) -> Result<Change, ChangeError>
        ensures declared { IfOk result (λ change. AreDeclared self.now change) }
        ensures portions { IfOk result (λ change. ArePortionsOf self.now sections.now change) }
        ensures tells { TellsBatch result (are_known (holdings_of self.now) sections.now)
            (batch_trial 1 (holdings_of self.now) sections.now) }
        ensures proper { list_all puts_proper sections.now ≡ true
            → IfOk result (λ change. AllByRecursion PutsProperPortion change) }
        ensures none { are_known (holdings_of self.now) sections.now ≡ false
            → result ≡ Err ChangeError.NoSource }
    {
        let portions = prepare_sections(alloc, self, sections.as_slice())?;
        Ok(Change::new(portions))
    }

    /// Whether each section names a declared source.
    pub(crate) fn are_declared(&self, sections: &[Section]) -> bool
        ensures { result ≡ are_known (holdings_of self.now) sections.now }
    {
        for section in sections {
            if !self.is_declared(section) {
                return false;
            }
        }
        true
    }

    /// Whether the section names a declared source.
    fn is_declared(&self, section: &Section) -> bool
        ensures { result ≡ is_some (holdings_of self.now section.now.source) }
    {
        self.find(section.source.as_slice()).is_some()
    }

    /// Gives each source of the change room for the elements that the change puts there, so that
    /// its commit takes no memory. No element, number or other source changes; after an error there
    /// may be more room than before, or not.
    pub fn reserve(&mut self, change: &Change) -> Result<(), AllocError>
        requires { AreDeclared self.old change.now }
        ensures same { IsAlike self.old self.new }
        ensures proper { IsProperStore self.old → IsProperStore self.new }
        ensures room { OnOk result (HasRoom self.new change.now) }
    {
        reserve_all(&mut self.sources, change.portions())
    }

    /// Applies the entries of a change in order, counts the change, and makes its number the last
    /// of each source that it names. Every other source stays as it was. It takes no memory and
    /// cannot be refused.
    pub fn commit(&mut self, change: Change)
        requires declared { AreDeclared self.old change }
        requires room { HasRoom self.old change }
        requires more { self.old.changes < 2 ^ 64 - 1 }
        ensures done { IsCommitted self.old change self.new }
        ensures proper { AllByRecursion PutsProperPortion change
            → IsProperStore self.old → IsProperStore self.new }
    {
        self.changes += 1;
        let number = self.changes;
        commit_all(&mut self.sources, change.into_portions(), number);
    }
}

/// Takes the name behind the others, where it is not among them, with room for its source. After
/// an error the names are as they were.
fn take_name(
    alloc: Global,
    names: &mut Names,
    sources: &mut Vec<Declared>,
    name: &[u8],
) -> Result<(), DeclareError>
    ensures exists { result ≡ Err DeclareError.Exists
        ↔ IsSome (position (bytes_eq name.now) names.old) }
    ensures ok { OnOk result (names.new ≡ names.old ++ name.now ∷ []) }
    ensures err { OnErr result (names.new ≡ names.old) }
    ensures sources { sources.new.items ≡ sources.old.items }
    ensures room { OnOk result (vec_len sources.new < vec_capacity sources.new) }
{
    if names.find(name).is_some() {
        return Err(DeclareError::Exists);
    }
    sources.reserve(1)?;
    names.push(alloc, name)?;
    Ok(())
}
