ghost use Rattle.std.specs.Prelude.{◌≡◌};
ghost use Rattle.gl_flat.specs.declared.fault.FlatFault.TheVariants.{Memory as NoMemory};

use gl_deck::{Memory, Name};
use std::alloc::{AllocError, AllocFailed};
use thiserror::Error;

/// What there is too much of.
#[derive(Clone, Copy, Debug, PartialEq, Eq)]
pub enum What {
    /// Devices and X cards that are gone through.
    Cards,
    /// Flat devices.
    Devices,
}

/// Why a deck has no flat deck. The first that applies is given, in the order `NoTop`, `TopDevices`, `TooDeep`, `TooMany`,
/// `LongText`, `LongFlatName`, `NameClash`.
#[derive(Debug, Drop, Error)]
pub enum FlatFault {
    /// Two flat devices have one name, or two different nets have one flat name.
    #[error("a second device or net of this flat name")]
    NameClash {
        /// The first name, by device and its own name before its nodes, that an earlier device or an earlier other net has.
        name: Name,
    },
    /// A flat name is longer than 1,024 bytes.
    #[error("a flat name of {len} bytes")]
    LongFlatName {
        /// The length in bytes of the first such name, by device and its own name before its nodes.
        len: u32,
    },
    /// More than 400,000 cards are gone through, or else there are more than 200,000 flat devices.
    #[error("{number} cards or devices are more than may be")]
    TooMany {
        /// What there is too much of.
        what: What,
        /// The limit and one.
        number: u32,
    },
    /// A chain of X cards from the top is longer than 32.
    #[error("a chain of {number} X cards")]
    TooDeep {
        /// The limit and one.
        number: u32,
    },
    /// The deck has no subcircuit of the name that is to be the top.
    #[error("no subcircuit of the top's name")]
    NoTop {
        /// The name.
        name: Name,
    },
    /// A subcircuit is to be the top, and a device or X card stands outside subcircuits.
    #[error("line {line}: a card beside the top subcircuit")]
    TopDevices {
        /// The number of the first such card's line.
        line: u32,
    },
    /// The flat deck's text is longer than 67,108,864 bytes.
    #[error("{number} bytes of text")]
    LongText {
        /// The limit and one.
        number: u32,
    },
    /// There was no memory.
    #[error("no memory")]
    Memory,
}

impl From<Memory> for FlatFault {
    ghost from_gives = { λ _ e. e ≡ NoMemory };

    fn from(_: Memory) -> Self {
        FlatFault::Memory
    }
}

impl From<AllocError> for FlatFault {
    ghost from_gives = { λ _ e. e ≡ NoMemory };

    fn from(_: AllocError) -> Self {
        FlatFault::Memory
    }
}

impl<T: Drop> From<AllocFailed<T>> for FlatFault {
    ghost from_gives = { λ _ e. e ≡ NoMemory };

    fn from(_: AllocFailed<T>) -> Self {
        FlatFault::Memory
    }
}
