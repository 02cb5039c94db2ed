use std::alloc::AllocError;
use thiserror::Error;

/// Why the lines spell no items.
#[derive(Debug, Drop, Error)]
pub enum PyxError {
    #[error("line {line} is bad")]
    BadLine { line: u64 },
    #[error("line {line} opens too deep an element")]
    TooDeep { line: u64 },
    #[error("out of memory")]
    OutOfMemory,
}

impl From<AllocError> for PyxError {
    ghost use Rattle.ncq_pyx.specs.declared.error.PyxError.TheVariants.{OutOfMemory};
    ghost use Rattle.std.specs.Prelude.{◌≡◌};

    ghost from_gives = { λ _ e. e ≡ OutOfMemory };

    fn from(_refused: AllocError) -> PyxError {
        PyxError::OutOfMemory
    }
}
