//! What finds subscriptions.
ghost use Rattle.std.specs.Prelude.{◌≡◌, ◌-◌, ◌<◌, ◌≤◌, ◌^◌, [], None, OnOk, OnErr};
ghost use Rattle.std.specs.List.{AllByRecursion};
ghost use Rattle.std.specs.Map.{lookup};
ghost use Rattle.std.specs.Str.{bytes_eq};
ghost use Rattle.ncq_strategy.specs.Numbers.{live_with};
ghost use Rattle.ncq_book.specs.Kept.{AreTimedBy, AreWatchedBy, IsEnrolled, IsFound, IsStruck};
ghost use Rattle.ncq_book.specs.Kept.{FindsAlike};

use crate::names::Names;
use crate::subscription::Subscription;
use crate::watchers::Watchers;
use ncq_event::Calendar;
use ncq_strategy::Strategy;
use std::alloc::{AllocError, Global};
use std::hash::RandomState;

/// What finds subscriptions: their names, their instants, and the files of those that fire at
/// changes and of those that fire at instants; and how many of them have each bare plan.
pub(crate) struct Finders {
    pub names: Names,
    pub calendar: Calendar,
    pub watchers: Watchers,
    pub timers: Watchers,
    pub strategy: Strategy,
}

impl Drop for Finders {
    fn drop(self) {
        let Finders {
            names,
            calendar,
            watchers,
            timers,
            strategy,
        } = self;
        drop(names);
        drop(calendar);
        drop(watchers);
        drop(timers);
        drop(strategy);
    }
}

impl Finders {
    /// What finds nobody. It takes no memory.
    pub(crate) fn new(alloc: Global, seed: RandomState) -> Finders
        ensures names { result.names ≡ [] }
        ensures calendar { result.calendar ≡ record { entries = []; instant = 0 } }
        ensures watchers { result.watchers ≡ [] }
        ensures timers { result.timers ≡ [] }
        ensures strategy { result.strategy ≡ [] }
    {
        Finders {
            names: Names::new(alloc, seed),
            calendar: Calendar::new(alloc),
            watchers: Watchers::new(alloc),
            timers: Watchers::new(alloc),
            strategy: Strategy::new(alloc, seed),
        }
    }

    /// The subscription is found from now on. Where memory runs out, nothing is found that was not.
    pub(crate) fn enroll(
        &mut self,
        alloc: Global,
        subscription: &Subscription,
    ) -> Result<(), AllocError>
        requires above { AllByRecursion (λ e. e.0 < subscription.now.install)
            self.old.calendar.entries }
        requires free { lookup (bytes_eq subscription.now.name) self.old.names ≡ None }
        requires few { live_with self.old.strategy subscription.now.bare < 2 ^ 64 - 1 }
        ensures ok { OnOk result (IsEnrolled subscription.now self.old self.new) }
        ensures err { OnErr result (FindsAlike self.old self.new) }
    {
        self.strategy.note(subscription.bare.share()?)?;
        if self.enroll_name(alloc, subscription).is_err() {
            self.strategy.forget(&subscription.bare);
            return Err(AllocError);
        }
        Ok(())
    }

    /// The subscription is found by its name, its instants and its file from now on. Where memory
    /// runs out, nothing is found that was not.
    fn enroll_name(&mut self, alloc: Global, subscription: &Subscription) -> Result<(), AllocError>
        requires above { AllByRecursion (λ e. e.0 < subscription.now.install)
            self.old.calendar.entries }
        requires free { lookup (bytes_eq subscription.now.name) self.old.names ≡ None }
        ensures ok { OnOk result (IsFound subscription.now self.old self.new) }
        ensures err { OnErr result (FindsAlike self.old self.new) }
        ensures strategy { self.new.strategy ≡ self.old.strategy }
    {
        self.names
            .put(alloc, &subscription.name, subscription.install)?;
        if self
            .calendar
            .add(subscription.install, subscription.timing)
            .is_err()
        {
            self.names.free(&subscription.name);
            return Err(AllocError);
        }
        if self.enroll_file(subscription).is_err() {
            self.names.free(&subscription.name);
            self.calendar.remove(subscription.install);
            return Err(AllocError);
        }
        Ok(())
    }

    /// The subscription is found by its file from now on. Where memory runs out, all is as before.
    fn enroll_file(&mut self, subscription: &Subscription) -> Result<(), AllocError>
        ensures names { self.new.names ≡ self.old.names }
        ensures calendar { self.new.calendar ≡ self.old.calendar }
        ensures watchers { OnOk result (AreWatchedBy subscription.now self.old self.new) }
        ensures timers { OnOk result (AreTimedBy subscription.now self.old self.new) }
        ensures strategy { self.new.strategy ≡ self.old.strategy }
        ensures err { OnErr result (self.new ≡ self.old) }
    {
        let file = subscription.file.0;
        if subscription.timing.every == 0 {
            return self.watchers.add(file, subscription.install);
        }
        self.timers.add(file, subscription.install)
    }

    /// The subscription is not found any more. It takes no memory.
    pub(crate) fn strike(&mut self, subscription: &Subscription)
        requires { 1 ≤ live_with self.old.strategy subscription.now.bare }
        ensures { IsStruck subscription.now self.old self.new }
    {
        let bare = &subscription.bare;
        self.strategy.forget(bare);
        self.names.free(&subscription.name);
        self.calendar.remove(subscription.install);
        let file = subscription.file.0;
        if subscription.timing.every == 0 {
            self.watchers.remove(file, subscription.install);
        } else {
            self.timers.remove(file, subscription.install);
        }
    }
}
