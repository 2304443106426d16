ghost use Rattle.std.specs.Prelude.{◌≡◌};
ghost use Rattle.gl_card.specs.declared.fault.CardFault.TheVariants.{Memory as NoMemory};

use std::alloc::AllocError;
use thiserror::Error;

/// Why a line is no card, in the order in which they are looked for: the first that applies counts.
#[derive(Debug, Drop, Error)]
pub enum CardFault {
    /// A name is longer than 1,024 bytes; the first such field counts.
    #[error("line {line}: a name of {len} bytes")]
    LongName {
        /// The number of the card's first line.
        line: u32,
        /// The name's length in bytes.
        len: u32,
    },
    /// The first byte begins no card.
    #[error("line {line}: byte {byte} begins no card")]
    UnknownCard {
        /// The number of the card's first line.
        line: u32,
        /// The byte as it is written.
        byte: u8,
    },
    /// There are fewer fields than the card needs.
    #[error("line {line}: {has} fields, {needs} needed")]
    ShortCard {
        /// The number of the card's first line.
        line: u32,
        /// How many fields it has.
        has: u32,
        /// How many it needs.
        needs: u32,
    },
    /// The first field is `.control`.
    #[error("line {line}: a control block")]
    ControlBlock {
        /// The number of the card's first line.
        line: u32,
    },
    /// The text of an X or `.subckt` card holds an equal sign.
    #[error("line {line}: parameters")]
    Parameters {
        /// The number of the card's first line.
        line: u32,
    },
    /// The tail is longer than 65,536 bytes.
    #[error("line {line}: a tail of {len} bytes")]
    LongTail {
        /// The number of the card's first line.
        line: u32,
        /// The normalised tail's length in bytes.
        len: u32,
    },
    /// There was no memory for the card.
    #[error("out of memory")]
    Memory,
}

impl From<AllocError> for CardFault {
    ghost from_gives = { λ _ e. e ≡ NoMemory };

    fn from(_: AllocError) -> Self {
        CardFault::Memory
    }
}
