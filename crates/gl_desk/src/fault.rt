ghost use Rattle.std.specs.Prelude.{◌≡◌};
ghost use Rattle.gl_desk.specs.declared.fault.ReadFault.TheVariants.{Failed as DeskFailed, Memory as NoMemory};

use std::alloc::AllocError;

/// A call of a desk failed.
#[derive(Clone, Copy, Debug, PartialEq, Eq)]
pub struct Failed;

/// Why a whole read failed.
#[derive(Clone, Copy, Debug, PartialEq, Eq)]
pub enum ReadFault {
    /// A call of the desk failed: the count of the slot's faults rose.
    Failed,
    /// The input is longer than a file may be.
    Long {
        /// How many bytes were taken: one more than a file may have.
        number: u32,
    },
    /// No memory was found.
    Memory,
}

impl From<Failed> for ReadFault {
    ghost from_gives = { λ _ e. e ≡ DeskFailed };

    fn from(_: Failed) -> Self {
        ReadFault::Failed
    }
}

impl From<AllocError> for ReadFault {
    ghost from_gives = { λ _ e. e ≡ NoMemory };

    fn from(_: AllocError) -> Self {
        ReadFault::Memory
    }
}
