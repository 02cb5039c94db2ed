//! A named closure that writes the notices of its kind.
ghost use Rattle.std.specs.Prelude.{◌≡◌, ◌++◌, OnOk, OnErr, length, take};
ghost use Rattle.std.specs.Str.{bytes_eq};
ghost use Rattle.std.specs.Io.{StartsWith};
ghost use Rattle.ncq_callback.specs.Facts.{Writes};
ghost use Rattle.ncq_callback.specs.Texts.{render};

use crate::notice::{Kind, Notice};
use ncq_base::Bytes;
use std::alloc::AllocError;

/// What is done with a notice: it is appended, with the argument of its action.
pub type Call = Box<dyn Fn(&[u8], &Notice, &mut Vec<u8>) -> Result<(), AllocError>>;

/// A closure with its name and its kind. Beside the closure stands that it appends the text of
/// that kind.
#[derive(Drop)]
pub struct Handler {
    name: Bytes,
    kind: Kind,
    call: Call,
    ghost callable: { Call.IsAlwaysCallable call },
    ghost writes: { (argument : _) (notice : _) (out : _) (result : _) (after : _)
        → Call.post call argument notice out result after
        → Writes
        (render kind argument.now notice.now.name notice.now.instant notice.now.entries)
        out.now.items after.now.items result },
}

impl Handler {
    pub fn new(name: Bytes, kind: Kind, call: Call) -> Handler
        requires callable { Call.IsAlwaysCallable call }
        requires writes { (argument : _) (notice : _) (out : _) (result : _) (after : _)
            → Call.post call argument notice out result after
            → Writes
            (render kind argument.now notice.now.name notice.now.instant notice.now.entries)
            out.now.items after.now.items result }
        ensures name { result.name ≡ name }
        ensures kind { result.kind ≡ kind }
    {
        Handler { name, kind, call }
    }

    pub fn name(&self) -> &Bytes
        ensures { result.now ≡ self.now.name }
    {
        &self.name
    }

    pub fn kind(&self) -> Kind
        ensures { result ≡ self.now.kind }
    {
        self.kind
    }

    /// Whether it has this name.
    pub(crate) fn is_called(&self, name: &[u8]) -> bool
        ensures { result ≡ bytes_eq name.now self.now.name }
    {
        name == self.name.as_slice()
    }

    /// Appends the text of the kind. After want of memory the earlier bytes of `out` stand in
    /// front.
    pub(crate) fn run(
        &self,
        argument: &[u8],
        notice: &Notice,
        out: &mut Vec<u8>,
    ) -> Result<(), AllocError>
        ensures ok { OnOk result (out.new.items ≡ out.old.items
            ++ render self.now.kind argument.now
            notice.now.name notice.now.instant notice.now.entries) }
        ensures err { OnErr result (StartsWith out.new.items out.old.items) }
    {
        (self.call)(argument, notice, out)
    }
}
