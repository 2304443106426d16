ghost use Rattle.std.specs.Prelude.{◌≡◌};
ghost use Rattle.gl_limit.specs.declared.fault.WriteFault.TheVariants.{Memory as NoMemory};

use gl_fault::Memory;
use std::alloc::{AllocError, AllocFailed};
use thiserror::Error;

/// Why a text is not written.
#[derive(Debug, Drop, Error)]
pub enum WriteFault {
    /// It is longer than a file may be: 67,108,864 bytes.
    #[error("a text is longer than a file may be")]
    TooLong,
    /// There was no memory.
    #[error("no memory")]
    Memory,
}

impl From<Memory> for WriteFault {
    ghost from_gives = { λ _ e. e ≡ NoMemory };

    fn from(_: Memory) -> Self {
        WriteFault::Memory
    }
}

impl From<AllocError> for WriteFault {
    ghost from_gives = { λ _ e. e ≡ NoMemory };

    fn from(_: AllocError) -> Self {
        WriteFault::Memory
    }
}

impl<T: Drop> From<AllocFailed<T>> for WriteFault {
    ghost from_gives = { λ _ e. e ≡ NoMemory };

    fn from(_: AllocFailed<T>) -> Self {
        WriteFault::Memory
    }
}
