//! The book: live subscriptions in the order of their creates, and what finds them.
ghost use Rattle.std.specs.Prelude.{◌≡◌, ◌-◌, ◌<◌, ◌≤◌, ◌^◌, ◌++◌, ◌∷◌, [], not, map, filter};
ghost use Rattle.std.specs.Prelude.{length, nat_eq, Some, false, IfOk, OnOk, OnErr, IsSome};
ghost use Rattle.std.specs.List.{find, list_any, AllByRecursion};
ghost use Rattle.std.specs.Option.{option_copied, option_map};
ghost use Rattle.ncq_event.specs.Calendars.{due_firings, expired_at};
ghost use Rattle.ncq_strategy.specs.Choices.{choice_of};
ghost use Rattle.ncq_book.specs.Books.{alike, is_named, is_of, subscription_of, timers_of};
ghost use Rattle.ncq_book.specs.Books.{timing_of, watchers_of, with_note, InstallsRise};
ghost use Rattle.ncq_book.specs.Books.{subscriptions_of, AskByQuestion, NamesDiffer};

use crate::finders::Finders;
use crate::held::Held;
use crate::listed::{Listed, list_of};
use crate::questions::question_of;
use crate::subscription::Subscription;
use ncq_base::{Bytes, Shared};
use ncq_event::{Firings, Installs};
use ncq_plan::{Expr, NormalQuery};
use ncq_strategy::Choice;
use std::alloc::{AllocError, Global};
use std::collections::BTreeMap;
use std::hash::RandomState;
use std::marker::Model;

/// Live subscriptions, each under an install number above all before it and a name of its own, at
/// an instant of the clock. Contracts see the list of them in that order, and the instant.
pub struct Book {
    subscriptions: BTreeMap<u64, Held>,
    finders: Finders,
}

impl Drop for Book {
    fn drop(self) {
        let Book {
            subscriptions,
            finders,
        } = self;
        drop(subscriptions);
        drop(finders);
    }
}

impl Model for Book {
    ghost use Rattle.ncq_book.specs.Books.{BookState, book_code};
    ghost use Rattle.ncq_book.specs.Kept.{subscriptions_in};
    ghost use Rattle.ncq_book.specs.Questions.{placed_in, IsBook};

    ghost Value = { BookState };

    ghost coded = { book_code };

    ghost view = { λ b. record {
      subscriptions = subscriptions_in (placed_in b.subscriptions.entries);
      instant = b.finders.calendar.instant;
    } };

    ghost invariant = { λ b. IsBook b.subscriptions.entries b.finders };
}

impl Book {
    /// Nobody, at instant 0. Its map of names places them by the seed. It takes no memory.
    pub fn new(alloc: Global, seed: RandomState) -> Book
        ensures { result ≡ record { subscriptions = []; instant = 0 } }
    {
        Book {
            subscriptions: BTreeMap::new(alloc),
            finders: Finders::new(alloc, seed),
        }
    }

    /// Install numbers rise, and no two subscriptions have one name: this call does nothing.
    pub fn facts(&self)
        ensures rise { InstallsRise self.now.subscriptions }
        ensures names { NamesDiffer self.now.subscriptions }
    {
        // A look at a field is what gives a proof the invariant.
        let _ = &self.subscriptions;
    }

    /// How many subscriptions there are.
    pub fn len(&self) -> usize
        ensures { result ≡ length self.now.subscriptions }
    {
        self.subscriptions.len()
    }

    /// The instant of the clock.
    pub fn instant(&self) -> u64
        ensures { result ≡ self.now.instant }
    {
        self.finders.calendar.instant()
    }

    /// Whether a subscription has this name. It takes no memory.
    pub fn has(&self, name: &Bytes) -> bool
        ensures { result ≡ list_any (is_named name.now) self.now.subscriptions }
    {
        self.find(name).is_some()
    }

    /// The install number of the subscription of this name, if it is there. It takes no memory.
    pub fn find(&self, name: &Bytes) -> Option<u64>
        ensures { result ≡ option_map (λ m. m.install) (find (is_named name.now)
            self.now.subscriptions) }
    {
        self.finders.names.find(name)
    }

    /// The subscription of this install number, if it is there. It takes no memory.
    pub fn get(&self, install: u64) -> Option<&Subscription>
        ensures { option_copied result ≡ subscription_of install self.now.subscriptions }
    {
        let held = self.subscriptions.get(&install)?;
        Some(held.get())
    }

    /// The subscriptions of these install numbers, in that order, each with the number of its
    /// question: those of the list that have one question ask alike. Where the next in the book is
    /// the next of the numbers, it is not looked up.
    pub fn listed(&self, alloc: Global, installs: &[u64]) -> Result<Vec<Listed<'_>>, AllocError>
        ensures listed { IfOk result (λ list. map (λ l. l.subscription.now) list.items
            ≡ subscriptions_of installs.now self.now.subscriptions) }
        ensures alike { IfOk result (λ list. AskByQuestion list.items) }
    {
        list_of(alloc, &self.subscriptions, installs)
    }

    /// The install numbers of those that fire at changes and have one of these files, rising, each
    /// once: also of those that have not started. Nobody else is looked at.
    pub fn watchers(&self, alloc: Global, files: &[u64]) -> Result<Installs, AllocError>
        ensures { IfOk result (λ list. list ≡ watchers_of files.now self.now.subscriptions) }
    {
        self.finders.watchers.of(alloc, files)
    }

    /// The install numbers of those that fire at instants and have one of these files, rising, each
    /// once: also of those that have not started. Nobody else is looked at.
    pub fn timers(&self, alloc: Global, files: &[u64]) -> Result<Installs, AllocError>
        ensures { IfOk result (λ list. list ≡ timers_of files.now self.now.subscriptions) }
    {
        self.finders.timers.of(alloc, files)
    }

    /// The firings that a move of the clock to this instant makes due, in the order in which they
    /// are told. Nobody else is looked at.
    pub fn due(&self, alloc: Global, to: u64) -> Result<Firings, AllocError>
        ensures { IfOk result (λ firings. firings
            ≡ due_firings self.now.instant to (map timing_of self.now.subscriptions)) }
    {
        self.finders.calendar.due_firings(alloc, to)
    }

    /// The install numbers of those whose expiry is below this instant, rising. Nobody else is
    /// looked at.
    pub fn expired(&self, alloc: Global, at: u64) -> Result<Installs, AllocError>
        ensures { IfOk result (λ installs. installs
            ≡ expired_at at (map timing_of self.now.subscriptions)) }
    {
        self.finders.calendar.expired(alloc, at)
    }

    /// How many subscriptions have the bare plan. It takes no memory.
    pub fn alike(&self, bare: &Shared<Expr>) -> u64
        ensures { result ≡ alike bare.now self.now.subscriptions }
    {
        self.finders.strategy.live_with(bare)
    }

    /// What stands below in the plan of a query that comes now, given its bare plan: the join,
    /// where the query has two or more arms and at least three subscriptions have its bare plan.
    /// Beside it the bare plan, as those that have it share it.
    pub fn choose(
        &self,
        query: &NormalQuery,
        bare: Shared<Expr>,
    ) -> Result<(Choice, Shared<Expr>), AllocError>
        ensures choice { IfOk result
            (λ r. r.0 ≡ choice_of query.now (alike bare self.now.subscriptions)) }
        ensures bare { IfOk result (λ r. r.1 ≡ bare) }
    {
        self.finders.strategy.choose(query, bare)
    }

    /// One more subscription, under an install number above all others and a name that is free.
    /// Where memory runs out, all is as before.
    pub fn add(&mut self, alloc: Global, subscription: Subscription) -> Result<(), AllocError>
        requires above { AllByRecursion (λ m. m.install < subscription.install)
            self.old.subscriptions }
        requires free { list_any (is_named subscription.name) self.old.subscriptions ≡ false }
        requires few { length self.old.subscriptions < 2 ^ 64 - 1 }
        ensures ok { OnOk result (self.new
            ≡ record self.old { subscriptions = self.old.subscriptions ++ subscription ∷ [] }) }
        ensures err { OnErr result (self.new ≡ self.old) }
    {
        let install = subscription.install;
        let question = question_of(&self.subscriptions, &self.finders.watchers, &subscription);
        let held = Held::new(alloc, subscription, question)?;
        self.finders.enroll(alloc, held.get())?;
        match self.subscriptions.insert(install, held) {
            Ok(_) => Ok(()),
            Err(refused) => {
                let (_, held) = refused.value;
                self.finders.strike(held.get());
                Err(AllocError)
            }
        }
    }

    /// Takes the subscription of this install number away, if it is there. It takes no memory.
    pub fn take(&mut self, install: u64) -> Option<Subscription>
        ensures subscriptions { self.new ≡ record self.old {
          subscriptions = filter (λ m. not (is_of install m)) self.old.subscriptions;
        } }
        ensures taken { result ≡ subscription_of install self.old.subscriptions }
    {
        let held = self.subscriptions.remove(&install)?;
        self.finders.strike(held.get());
        Some(held.into_inner())
    }

    /// Notes this number for the subscription of this install number, if it is there. It takes no
    /// memory.
    pub fn note(&mut self, install: u64, number: u64)
        ensures { self.new ≡ record self.old {
          subscriptions = map (with_note install number) self.old.subscriptions;
        } }
    {
        if let Some(held) = self.subscriptions.get_mut(&install) {
            held.note(number);
        }
    }

    /// Moves the clock. Where memory runs out, all is as before. It costs in proportion to what is
    /// due.
    pub fn move_to(&mut self, alloc: Global, to: u64) -> Result<(), AllocError>
        requires { self.old.instant ≤ to }
        ensures ok { OnOk result (self.new ≡ record self.old { instant = to }) }
        ensures err { OnErr result (self.new ≡ self.old) }
    {
        self.finders.calendar.move_to(alloc, to)
    }
}
