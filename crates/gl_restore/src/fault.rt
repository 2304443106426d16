ghost use Rattle.std.specs.Prelude.{◌≡◌};
ghost use Rattle.gl_restore.specs.declared.fault.RestoreFault.TheVariants.{Memory as NoMemory};

use gl_line::{Memory, Name};
use std::alloc::{AllocError, AllocFailed};
use thiserror::Error;

/// Why a flat deck has no text under the old names of a map. The first that applies is given, in the order of the variants.
/// Devices stand on the map's lines from 2 on, and nets behind them.
#[derive(Debug, Drop, Error)]
pub enum RestoreFault {
    /// A device of the flat deck has no `device` line with its name as the new one, or a net no `net` line.
    #[error("a device or net without a line")]
    Missing {
        /// The first such name, devices before nets, each in the order of the flat deck.
        name: Name,
    },
    /// The new name of a line is that of no device, or of no net, of the flat deck.
    #[error("line {line}: its new name is none of the deck's")]
    Extra {
        /// The number of the first such line.
        line: u32,
    },
    /// The old name of a `net` line stands in an earlier `net` line.
    #[error("line {line}: its old name has an earlier net")]
    NetMerge {
        /// The number of the first such line.
        line: u32,
    },
    /// The first bytes of the two names of a `device` line differ.
    #[error("line {line}: its names have two letters")]
    LetterChanged {
        /// The number of the first such line.
        line: u32,
    },
    /// The old name of a `device` line stands in an earlier `device` line.
    #[error("line {line}: its old name has an earlier device")]
    DeviceMerge {
        /// The number of the first such line.
        line: u32,
    },
    /// There was no memory.
    #[error("no memory")]
    Memory,
}

impl From<Memory> for RestoreFault {
    ghost from_gives = { λ _ e. e ≡ NoMemory };

    fn from(_: Memory) -> Self {
        RestoreFault::Memory
    }
}

impl From<AllocError> for RestoreFault {
    ghost from_gives = { λ _ e. e ≡ NoMemory };

    fn from(_: AllocError) -> Self {
        RestoreFault::Memory
    }
}

impl<T: Drop> From<AllocFailed<T>> for RestoreFault {
    ghost from_gives = { λ _ e. e ≡ NoMemory };

    fn from(_: AllocFailed<T>) -> Self {
        RestoreFault::Memory
    }
}
