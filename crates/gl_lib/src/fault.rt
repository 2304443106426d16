ghost use Rattle.std.specs.Prelude.{◌≡◌};
ghost use Rattle.gl_lib.specs.declared.fault.KeepFault.TheVariants.{Memory as NoMemory};

use gl_card::{Memory, Name};
use std::alloc::{AllocError, AllocFailed};
use thiserror::Error;

/// Why there is no circuit in which the nets of some names are kept.
#[derive(Debug, Drop, Error)]
pub enum KeepFault {
    /// A kept name is no net of a device. `0`, a rail or a port of the top that stands on no device is no net.
    #[error("a kept name that is no net of a device")]
    UnknownKeep {
        /// The first such name, in the order that they are given.
        name: Name,
    },
    /// There was no memory.
    #[error("no memory")]
    Memory,
}

impl From<AllocError> for KeepFault {
    ghost from_gives = { λ _ e. e ≡ NoMemory };

    fn from(_: AllocError) -> Self {
        KeepFault::Memory
    }
}

impl<T: Drop> From<AllocFailed<T>> for KeepFault {
    ghost from_gives = { λ _ e. e ≡ NoMemory };

    fn from(_: AllocFailed<T>) -> Self {
        KeepFault::Memory
    }
}

impl From<Memory> for KeepFault {
    ghost from_gives = { λ _ e. e ≡ NoMemory };

    fn from(_: Memory) -> Self {
        KeepFault::Memory
    }
}
