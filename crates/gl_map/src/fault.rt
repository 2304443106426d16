ghost use Rattle.std.specs.Prelude.{◌≡◌};
ghost use Rattle.gl_map.specs.declared.fault.MapFault.TheVariants.{Memory as NoMemory};

use gl_line::Memory;
use std::alloc::{AllocError, AllocFailed};
use thiserror::Error;

/// Why bytes are no map. `BadHeader` comes first, then the first line with `BadLine`, then `NoEnd`, then the first line with
/// `DoubleNew`. Lines are numbered from 1.
#[derive(Debug, Drop, Error)]
pub enum MapFault {
    /// There is no first line, or it is not `gatelift map 1`.
    #[error("the first line is not that of a map")]
    BadHeader,
    /// A later line is none of a map's, a `device` line follows a `net` line, or a line follows `end`.
    #[error("line {line}: it may not stand here")]
    BadLine {
        /// The number of the first such line.
        line: u32,
    },
    /// No line is `end`.
    #[error("no line is the end")]
    NoEnd,
    /// The new name of a `device` line stands in an earlier `device` line, or that of a `net` line in an earlier `net` line.
    #[error("line {line}: its new name has an earlier line")]
    DoubleNew {
        /// The number of the first such line.
        line: u32,
    },
    /// There was no memory.
    #[error("no memory")]
    Memory,
}

impl From<Memory> for MapFault {
    ghost from_gives = { λ _ e. e ≡ NoMemory };

    fn from(_: Memory) -> Self {
        MapFault::Memory
    }
}

impl From<AllocError> for MapFault {
    ghost from_gives = { λ _ e. e ≡ NoMemory };

    fn from(_: AllocError) -> Self {
        MapFault::Memory
    }
}

impl<T: Drop> From<AllocFailed<T>> for MapFault {
    ghost from_gives = { λ _ e. e ≡ NoMemory };

    fn from(_: AllocFailed<T>) -> Self {
        MapFault::Memory
    }
}
