ghost use Rattle.std.specs.Prelude.{◌≡◌};
ghost use Rattle.gl_card.specs.Reading as card;
ghost use Rattle.gl_line.specs.Answers as line_answers;
ghost use Rattle.gl_deck.specs.Refusals.{fault_of};
ghost use Rattle.gl_deck.specs.declared.fault.DeckFault.TheVariants.{Memory as NoMemory};

use gl_card::{CardFault, Memory};
use gl_line::LineFault;
use std::alloc::{AllocError, AllocFailed};
use thiserror::Error;

/// Why a file is no deck. The first line with a refusal of its own counts, and on it the one that stands first here; then
/// a subcircuit that is still open at the end; then the first X card whose call is refused.
#[derive(Debug, Drop, Error)]
pub enum DeckFault {
    /// A line that begins with `+` has no card before it.
    #[error("line {line}: a `+` line has no card before it")]
    LoosePlus {
        /// The number of the `+` line.
        line: u32,
    },
    /// The title or a logical line is longer than 131,072 bytes.
    #[error("line {line}: {len} bytes, more than a card may have")]
    LongLine {
        /// The number of its first line.
        line: u32,
        /// Its length in bytes.
        len: u32,
    },
    /// A name is longer than 1,024 bytes.
    #[error("line {line}: a name of {len} bytes")]
    LongName {
        /// The number of the card's first line.
        line: u32,
        /// The name's length in bytes.
        len: u32,
    },
    /// The first byte begins no card.
    #[error("line {line}: byte {byte} begins no card")]
    UnknownCard {
        /// The number of the card's first line.
        line: u32,
        /// The byte as it is written.
        byte: u8,
    },
    /// There are fewer fields than the card needs.
    #[error("line {line}: {has} fields, {needs} needed")]
    ShortCard {
        /// The number of the card's first line.
        line: u32,
        /// How many fields it has.
        has: u32,
        /// How many it needs.
        needs: u32,
    },
    /// The first field is `.control`.
    #[error("line {line}: a control block")]
    ControlBlock {
        /// The number of the card's first line.
        line: u32,
    },
    /// A `.subckt` stands inside a subcircuit.
    #[error("line {line}: a subcircuit inside a subcircuit")]
    NestedSubckt {
        /// The number of the `.subckt`'s line.
        line: u32,
    },
    /// An `.ends` stands outside a subcircuit.
    #[error("line {line}: no subcircuit is open")]
    LooseEnds {
        /// The number of the `.ends`'s line.
        line: u32,
    },
    /// An `.ends` names another subcircuit than the open one.
    #[error("line {line}: another subcircuit is open")]
    WrongEnds {
        /// The number of the `.ends`'s line.
        line: u32,
    },
    /// A subcircuit is still open at the end.
    #[error("line {line}: a subcircuit without an end")]
    OpenSubckt {
        /// The number of the `.subckt`'s line.
        line: u32,
    },
    /// A `.model`, `.global` or passed card stands inside a subcircuit.
    #[error("line {line}: a card that belongs to the top stands inside a subcircuit")]
    LocalCard {
        /// The number of the card's first line.
        line: u32,
    },
    /// The text of an X or `.subckt` card holds an equal sign.
    #[error("line {line}: parameters")]
    Parameters {
        /// The number of the card's first line.
        line: u32,
    },
    /// An earlier card has the name: a device or X card of the same circuit, a model, or a subcircuit.
    #[error("line {line}: the name of line {first}")]
    DuplicateName {
        /// The number of the card's first line.
        line: u32,
        /// The number of the earlier card's first line.
        first: u32,
    },
    /// A `.subckt` has a port twice.
    #[error("line {line}: a port twice")]
    DuplicatePort {
        /// The number of the `.subckt`'s line.
        line: u32,
    },
    /// A `.subckt` has the port `0`.
    #[error("line {line}: the port 0")]
    ZeroPort {
        /// The number of the `.subckt`'s line.
        line: u32,
    },
    /// The tail is longer than 65,536 bytes.
    #[error("line {line}: a tail of {len} bytes")]
    LongTail {
        /// The number of the card's first line.
        line: u32,
        /// The normalised tail's length in bytes.
        len: u32,
    },
    /// An X card calls a subcircuit that the file lacks.
    #[error("line {line}: no such subcircuit")]
    UnknownSubckt {
        /// The number of the X card's first line.
        line: u32,
    },
    /// An X card has another number of nodes than its subcircuit has ports.
    #[error("line {line}: {has} nodes, {needs} ports")]
    WrongNodeCount {
        /// The number of the X card's first line.
        line: u32,
        /// How many nodes it has.
        has: u32,
        /// How many ports there are.
        needs: u32,
    },
    /// An X card's call leads back to the subcircuit that it stands in.
    #[error("line {line}: a call that leads back to its own subcircuit")]
    Recursive {
        /// The number of the X card's first line.
        line: u32,
    },
    /// There was no memory for the deck.
    #[error("out of memory")]
    Memory,
}

impl From<AllocError> for DeckFault {
    ghost from_gives = { λ _ e. e ≡ NoMemory };

    fn from(_: AllocError) -> Self {
        DeckFault::Memory
    }
}

impl<T: Drop> From<AllocFailed<T>> for DeckFault {
    ghost from_gives = { λ _ e. e ≡ NoMemory };

    fn from(_: AllocFailed<T>) -> Self {
        DeckFault::Memory
    }
}

impl From<Memory> for DeckFault {
    ghost from_gives = { λ _ e. e ≡ NoMemory };

    fn from(_: Memory) -> Self {
        DeckFault::Memory
    }
}

impl From<CardFault> for DeckFault {
    ghost from_gives = { λ c e. fault_of e ≡ card.fault_of c };

    fn from(fault: CardFault) -> Self {
        match fault {
            CardFault::LongName { line, len } => DeckFault::LongName { line, len },
            CardFault::UnknownCard { line, byte } => DeckFault::UnknownCard { line, byte },
            CardFault::ShortCard { line, has, needs } => DeckFault::ShortCard { line, has, needs },
            CardFault::ControlBlock { line } => DeckFault::ControlBlock { line },
            CardFault::Parameters { line } => DeckFault::Parameters { line },
            CardFault::LongTail { line, len } => DeckFault::LongTail { line, len },
            CardFault::Memory => DeckFault::Memory,
        }
    }
}

impl From<LineFault> for DeckFault {
    ghost from_gives = { λ l e. fault_of e ≡ line_answers.fault_of l };

    fn from(fault: LineFault) -> Self {
        match fault {
            LineFault::LoosePlus { line } => DeckFault::LoosePlus { line },
            LineFault::LongLine { line, len } => DeckFault::LongLine { line, len },
            LineFault::Memory => DeckFault::Memory,
        }
    }
}
