//! The handlers that a program has.
ghost use Rattle.std.specs.Prelude.{◌≡◌, ◌<◌, ◌++◌, ◌∷◌, ◌↔◌, [], OnOk, OnErr, IfSome, IsSome};
ghost use Rattle.std.specs.Prelude.{Err, slice_get, position, length};
ghost use Rattle.std.specs.Str.{bytes_eq};
ghost use Rattle.ncq_plan.specs.Relations.{relations};
ghost use Rattle.ncq_callback.specs.Texts.{render};
ghost use Rattle.ncq_callback.specs.Labels.{labels};

use crate::handler::Handler;
use crate::notice::{Kind, Notice};
use ncq_base::Bytes;
use ncq_plan::{Predicate, Predicates, find_predicate};
use std::alloc::{AllocError, Global};
use thiserror::Error;

/// Why a handler or a predicate was not added.
#[derive(Clone, Copy, Debug, PartialEq, Eq, Error)]
pub enum AddError {
    /// A handler, or a predicate, has the name.
    #[error("a handler, or a predicate, has the name")]
    NameTaken,
    #[error("out of memory")]
    OutOfMemory,
}

/// Handlers, each name once, and predicates, each name once; a handler and a predicate may have one
/// name. Contracts see the list of the names and kinds of the handlers, and that of the names and
/// relations of the predicates.
#[derive(Drop)]
pub struct Handlers {
    items: Vec<Handler>,
    predicates: Predicates,
}

impl Handlers {
    pub fn new(alloc: Global) -> Handlers
        ensures handlers { labels result.items.items (λ h. h.name) (λ h. h.kind) ≡ [] }
        ensures predicates { relations
            result.predicates.items (λ p. p.name) (λ p. p.relation) ≡ [] }
    {
        Handlers {
            items: Vec::new(alloc),
            predicates: Vec::new(alloc),
        }
    }

    pub fn len(&self) -> usize
        ensures { result ≡ length (labels self.now.items.items (λ h. h.name) (λ h. h.kind)) }
    {
        self.items.len()
    }

    /// The name of the handler at a place.
    pub fn name(&self, at: usize) -> &Bytes
        requires { at < length (labels self.now.items.items (λ h. h.name) (λ h. h.kind)) }
        ensures { IfSome
            (slice_get (labels self.now.items.items (λ h. h.name) (λ h. h.kind)) at)
            (λ label. result.now ≡ label.0) }
    {
        self.items[at].name()
    }

    /// The place of the handler of this name: none exactly where there is none.
    pub fn find(&self, name: &[u8]) -> Option<usize>
        ensures { result ≡ position (λ label. bytes_eq name.now label.0)
            (labels self.now.items.items (λ h. h.name) (λ h. h.kind)) }
    {
        let mut at = 0;
        while at < self.items.len() {
            if self.items[at].is_called(name) {
                return Some(at);
            }
            at += 1;
        }
        None
    }

    /// One more handler behind the others. `NameTaken` comes exactly where a handler has its name.
    /// After an error the handlers are as they were.
    pub fn add(&mut self, handler: Handler) -> Result<(), AddError>
        ensures taken { result ≡ Err AddError.NameTaken
            ↔ IsSome (position (λ label. bytes_eq handler.name label.0)
            (labels self.old.items.items (λ h. h.name) (λ h. h.kind))) }
        ensures ok { OnOk result (labels self.new.items.items (λ h. h.name) (λ h. h.kind)
            ≡ labels self.old.items.items (λ h. h.name) (λ h. h.kind)
            ++ (handler.name, handler.kind) ∷ []) }
        ensures err { OnErr result (labels self.new.items.items (λ h. h.name) (λ h. h.kind)
            ≡ labels self.old.items.items (λ h. h.name) (λ h. h.kind)) }
        ensures predicates { relations self.new.predicates.items (λ p. p.name) (λ p. p.relation)
            ≡ relations self.old.predicates.items (λ p. p.name) (λ p. p.relation) }
    {
        if self.find(handler.name().as_slice()).is_some() {
            return Err(AddError::NameTaken);
        }
        match self.items.push(handler) {
            Ok(()) => Ok(()),
            Err(_) => Err(AddError::OutOfMemory),
        }
    }

    /// The predicates, in the order in which they were added.
    pub fn predicates(&self) -> &Predicates
        ensures { result.now ≡ self.now.predicates }
    {
        &self.predicates
    }

    /// The place of the predicate of this name: none exactly where there is none.
    pub fn find_predicate(&self, name: &[u8]) -> Option<usize>
        ensures { result ≡ position (λ p. bytes_eq name.now p.0)
            (relations self.now.predicates.items (λ p. p.name) (λ p. p.relation)) }
    {
        find_predicate(&self.predicates, name)
    }

    /// One more predicate behind the others. `NameTaken` comes exactly where a predicate has its
    /// name. After an error the predicates are as they were; the handlers stay.
    pub fn add_predicate(&mut self, predicate: Predicate) -> Result<(), AddError>
        ensures taken { result ≡ Err AddError.NameTaken
            ↔ IsSome (position (λ p. bytes_eq predicate.name p.0)
            (relations self.old.predicates.items (λ p. p.name) (λ p. p.relation))) }
        ensures ok { OnOk result
            (relations self.new.predicates.items (λ p. p.name) (λ p. p.relation)
            ≡ relations self.old.predicates.items (λ p. p.name) (λ p. p.relation)
            ++ (predicate.name, predicate.relation) ∷ []) }
        ensures err { OnErr result
            (relations self.new.predicates.items (λ p. p.name) (λ p. p.relation)
            ≡ relations self.old.predicates.items (λ p. p.name) (λ p. p.relation)) }
        ensures handlers { labels self.new.items.items (λ h. h.name) (λ h. h.kind)
            ≡ labels self.old.items.items (λ h. h.name) (λ h. h.kind) }
    {
        if self.find_predicate(predicate.name().as_slice()).is_some() {
            return Err(AddError::NameTaken);
        }
        match self.predicates.push(predicate) {
            Ok(()) => Ok(()),
            Err(_) => Err(AddError::OutOfMemory),
        }
    }

    /// The kind of the handler at a place.
    pub fn kind(&self, at: usize) -> Kind
        requires { at < length (labels self.now.items.items (λ h. h.name) (λ h. h.kind)) }
        ensures { IfSome
            (slice_get (labels self.now.items.items (λ h. h.name) (λ h. h.kind)) at)
            (λ label. result ≡ label.1) }
    {
        self.items[at].kind()
    }

    /// Appends the text that the handler at a place writes for the notice. After want of memory
    /// `out` is as before.
    pub fn call(
        &self,
        at: usize,
        argument: &[u8],
        notice: &Notice,
        out: &mut Vec<u8>,
    ) -> Result<(), AllocError>
        requires { at < length (labels self.now.items.items (λ h. h.name) (λ h. h.kind)) }
        ensures ok { OnOk result (IfSome
            (slice_get (labels self.now.items.items (λ h. h.name) (λ h. h.kind)) at)
            (λ label. out.new.items ≡ out.old.items
            ++ render label.1 argument.now
            notice.now.name notice.now.instant notice.now.entries)) }
        ensures err { OnErr result (out.new.items ≡ out.old.items) }
    {
        let before = out.len();
        let written = self.items[at].run(argument, notice, out);
        if written.is_err() {
            out.truncate(before);
        }
        written
    }
}
