//! Why a reader of the grammar gives nothing.
use std::alloc::AllocError;

/// Why nothing was read.
#[derive(Debug, Drop)]
pub(crate) enum Mismatch {
    OutOfMemory,
    /// The tokens spell nothing of the kind.
    NotSpelled,
}

impl From<AllocError> for Mismatch {
    ghost use Rattle.std.specs.Prelude.{◌≡◌};
    ghost use Rattle.ncq_xmlql.specs.declared.mismatch.Mismatch.TheVariants.{OutOfMemory};

    ghost from_gives = { λ _ e. e ≡ OutOfMemory };

    fn from(_refused: AllocError) -> Mismatch {
        Mismatch::OutOfMemory
    }
}
