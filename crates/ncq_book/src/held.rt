//! A subscription in a block of its own, and its question.
ghost use Rattle.std.specs.Prelude.{◌≡◌, Some, IfOk};

use crate::subscription::Subscription;
use std::alloc::{AllocError, Global};
use std::marker::Model;

/// A subscription in a block of its own, and the number of its question: the nodes of the tree of
/// subscriptions hold their numbers and where they are, and what a look-up reads of them is small.
/// Contracts see the subscription and the number.
#[derive(Drop)]
pub(crate) struct Held {
    inner: Box<Subscription>,
    question: u64,
}

impl Model for Held {
    ghost use Rattle.ncq_book.specs.Questions.{Asked, asked_code};

    ghost Value = { Asked };

    ghost coded = { asked_code };

    ghost view = { λ h. record { subscription = h.inner.value; question = h.question } };
}

impl Held {
    pub(crate) fn new(
        alloc: Global,
        subscription: Subscription,
        question: u64,
    ) -> Result<Held, AllocError>
        ensures { IfOk result (λ h. h
            ≡ record { subscription = subscription; question = question }) }
    {
        Ok(Held {
            inner: Box::new(alloc, subscription)?,
            question,
        })
    }

    pub(crate) fn get(&self) -> &Subscription
        ensures { result.now ≡ self.now.subscription }
    {
        &self.inner
    }

    /// The number of its question: those that have one ask alike.
    pub(crate) fn question(&self) -> u64
        ensures { result ≡ self.now.question }
    {
        self.question
    }

    pub(crate) fn into_inner(self) -> Subscription
        ensures { result ≡ self.subscription }
    {
        let Held { inner, question: _ } = self;
        Box::into_inner(inner)
    }

    /// Notes this number for the subscription. It takes no memory.
    pub(crate) fn note(&mut self, number: u64)
        ensures { self.new ≡ record self.old {
          subscription = record self.old.subscription { noted = Some number };
        } }
    {
        self.inner.noted = Some(number);
    }
}
