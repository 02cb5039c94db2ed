//! The text of entries that are told more than once, as it is printed behind a name: who is told
//! the same again gets a copy.
ghost use Rattle.std.specs.Prelude.{◌≡◌, ◌≤◌, IfOk, drop, length};
ghost use Rattle.ncq_callback.specs.KeptTexts.{IsKeptText};

use crate::texts::{write_instant, write_rest};
use ncq_bag::Difference;
use std::alloc::{AllocError, Global};

/// What stands behind the name in a notice that is printed at an instant. The head is the length
/// of what depends on the instant.
#[derive(Debug, Drop)]
pub(crate) struct KeptText {
    pub(crate) instant: u64,
    head: usize,
    text: Vec<u8>,
}

impl KeptText {
    /// The text of the entries at an instant.
    pub(crate) fn new(
        alloc: Global,
        instant: u64,
        entries: &[Difference],
    ) -> Result<KeptText, AllocError>
        ensures { IfOk result (λ kept.
            IsKeptText kept.instant kept.head kept.text.items entries.now) }
    {
        let mut text = Vec::new(alloc);
        write_instant(instant, b"\n", &mut text)?;
        let head = text.len();
        write_rest(entries, &mut text)?;
        Ok(KeptText {
            instant,
            head,
            text,
        })
    }

    /// What stands behind the name.
    pub(crate) fn whole(&self) -> &[u8]
        ensures { result.now ≡ self.now.text.items }
    {
        self.text.as_slice()
    }

    /// The entries and `end`.
    pub(crate) fn rest(&self) -> &[u8]
        requires { self.now.head ≤ length self.now.text.items }
        ensures { result.now ≡ drop self.now.head self.now.text.items }
    {
        &self.text[self.head..]
    }
}
