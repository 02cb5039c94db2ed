//! What a subscriber is told, and what is done with it.
ghost use Rattle.std.specs.Prelude.{◌≡◌, ◌≤◌, ◌++◌, IfOk, IfSome, OnOk, length};
ghost use Rattle.std.specs.Io.{StartsWith};
ghost use Rattle.ncq_bag.specs.Counts.{IsChange, turns};
ghost use Rattle.ncq_callback.specs.KeptTexts.{printed_text, rest_text};

use crate::kept_text::KeptText;
use crate::texts::{write_instant, write_rest};
use ncq_bag::{Counts, Difference, Differences, Pending};
use ncq_base::Bytes;
use std::alloc::{AllocError, Global};
use std::marker::Model;

/// What a handler does with a notice.
#[derive(Clone, Copy, Debug, PartialEq, Eq)]
pub enum Kind {
    /// Writes each difference.
    Print,
    /// Writes the sums of what is gained and of what is lost.
    Count,
    /// Writes each difference behind the line of a mail.
    MailTo,
}

/// What differs in an answer. Contracts see the list of the differences. Only rows make entries:
/// `Gather::finish` gives them, and `distinct` what of them leaves 0 or reaches it. Their text may
/// stand beside them, so that it is copied.
#[derive(Debug)]
pub struct Entries {
    items: Differences,
    text: Option<KeptText>,
}

impl Drop for Entries {
    fn drop(self) {
        let Entries { items, text } = self;
        drop(items);
        drop(text);
    }
}

impl Model for Entries {
    ghost use Rattle.std.specs.Prelude.{IfSome, List};
    ghost use Rattle.std.specs.Coded.{coded_list};
    ghost use Rattle.ncq_bag.specs.declared.bag.Difference.{Difference};
    ghost use Rattle.ncq_bag.specs.contracts.bag.Difference.{the_row};
    ghost use Rattle.ncq_callback.specs.KeptTexts.{IsKeptText};

    ghost Value = { List Difference };

    ghost coded = { coded_list the_row.coded };

    ghost view = { λ e. e.items };

    ghost invariant = { λ e. IfSome e.text
        (λ kept. IsKeptText kept.instant kept.head kept.text.items e.items) };
}

impl Entries {
    pub(crate) fn from_differences(items: Differences) -> Entries
        ensures { result ≡ items }
    {
        Entries { items, text: None }
    }

    pub fn as_slice(&self) -> &[Difference]
        ensures { result.now ≡ self.now }
    {
        self.items.as_slice()
    }

    /// What leaves 0, or reaches it, where these entries change the counts, with the changes to be
    /// made. The counts stay as they are, and get room for the changes.
    pub fn distinct(
        &self,
        alloc: Global,
        counts: &mut Counts,
    ) -> Result<(Entries, Pending), AllocError>
        requires { IsChange counts.old.counts self.now }
        ensures counts { counts.new.counts ≡ counts.old.counts }
        ensures room { OnOk result (length self.now ≤ counts.new.spare) }
        ensures spare { counts.old.spare ≤ counts.new.spare }
        ensures entries { IfOk result (λ r. r.0 ≡ turns counts.old.counts self.now) }
        ensures pending { IfOk result (λ r. r.1 ≡ self.now) }
    {
        let (told, pending) = counts.prepare(alloc, &self.items)?;
        Ok((Entries::from_differences(told), pending))
    }

    /// Writes the text of the entries down once, as it is printed at an instant: handlers then
    /// copy it, or at other instants what stands behind the instant. This changes nothing that is
    /// seen, and is worth its cost where the entries are told more than once.
    pub fn write_down(&mut self, alloc: Global, instant: u64) -> Result<(), AllocError>
        ensures { self.new ≡ self.old }
    {
        if self.text.is_some() {
            return Ok(());
        }
        let text = KeptText::new(alloc, instant, self.items.as_slice())?;
        self.text = Some(text);
        Ok(())
    }

    /// Appends what is printed behind a name at an instant; what was there stays in front.
    pub(crate) fn write_behind(&self, instant: u64, out: &mut Vec<u8>) -> Result<(), AllocError>
        ensures ok { OnOk result
            (out.new.items ≡ out.old.items ++ printed_text instant self.now) }
        ensures front { StartsWith out.new.items out.old.items }
    {
        match self.text_at(instant) {
            Some(text) => out.extend_from_slice(text),
            None => self.write_anew(instant, out),
        }
    }

    /// Appends the entries and `end`; what was there stays in front.
    pub(crate) fn write_rest(&self, out: &mut Vec<u8>) -> Result<(), AllocError>
        ensures ok { OnOk result (out.new.items ≡ out.old.items ++ rest_text self.now) }
        ensures front { StartsWith out.new.items out.old.items }
    {
        match &self.text {
            Some(text) => out.extend_from_slice(text.rest()),
            None => write_rest(self.items.as_slice(), out),
        }
    }

    /// What is printed behind a name at an instant, where it is kept.
    fn text_at(&self, instant: u64) -> Option<&[u8]>
        ensures { IfSome result (λ text. text.now ≡ printed_text instant self.now) }
    {
        if let Some(text) = &self.text {
            if text.instant == instant {
                return Some(text.whole());
            }
        }
        None
    }

    /// Appends the instant behind a name, the entries and `end`; what was there stays in front.
    fn write_anew(&self, instant: u64, out: &mut Vec<u8>) -> Result<(), AllocError>
        ensures ok { OnOk result
            (out.new.items ≡ out.old.items ++ printed_text instant self.now) }
        ensures front { StartsWith out.new.items out.old.items }
    {
        write_instant(instant, b"\n", out)?;
        self.write_rest(out)
    }
}

/// What a subscription is told at an instant.
#[derive(Debug, Drop)]
pub struct Notice {
    /// What the subscription is called.
    pub name: Bytes,
    /// When it fires.
    pub instant: u64,
    /// What differs since its previous firing.
    pub entries: Entries,
}
