//! Those that ask alike.
ghost use Rattle.std.specs.Prelude.{◌≤◌, ◌<◌, IsTrue};
ghost use Rattle.std.specs.List.{AllByRecursion};
ghost use Rattle.ncq_book.specs.Books.{AskAlike};
ghost use Rattle.ncq_book.specs.Questions.{AreQuestions, AsksLike};

use crate::held::Held;
use crate::subscription::Subscription;
use crate::watchers::Watchers;
use ncq_plan::{same_checks, same_template};
use std::collections::BTreeMap;

/// Whether the two have one file, and ask the same of its rows.
pub fn ask_alike(a: &Subscription, b: &Subscription) -> bool
    ensures { IsTrue result → AskAlike a.now b.now }
{
    a.file.0 == b.file.0
        && same_template(&a.query.template, &b.query.template)
        && same_checks(a.query.residual.as_slice(), b.query.residual.as_slice())
}

/// The question of a subscription that is above all others: that of the last of those that fire at
/// changes and have its file, where that asks alike, and else its own install number. It takes no
/// memory.
pub(crate) fn question_of(
    subscriptions: &BTreeMap<u64, Held>,
    watchers: &Watchers,
    subscription: &Subscription,
) -> u64
    requires questions { AreQuestions subscriptions.now.entries }
    requires above { AllByRecursion (λ e. e.0 < subscription.now.install)
        subscriptions.now.entries }
    ensures alike { AsksLike subscriptions.now.entries result subscription.now }
    ensures up_to { result ≤ subscription.now.install }
{
    let Some(install) = watchers.last_to(subscription.file.0) else {
        return subscription.install;
    };
    match subscriptions.get(&install) {
        Some(held) if ask_alike(held.get(), subscription) => held.question(),
        _ => subscription.install,
    }
}
