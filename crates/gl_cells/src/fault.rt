ghost use Rattle.std.specs.Prelude.{◌≡◌, option_map};
ghost use Rattle.gl_base.specs.Libraries.{refused};
ghost use Rattle.gl_deck.specs.Refusals.{fault_of};
ghost use Rattle.gl_cells.specs.Causes.{cause_of};
ghost use Rattle.gl_cells.specs.declared.fault.LibFault.TheVariants.{Memory as NoMemory};

use gl_deck::{DeckFault, Memory, Name};
use std::alloc::{AllocError, AllocFailed};
use thiserror::Error;

/// What a library, or a cell of it, has too much of.
#[derive(Clone, Copy, Debug, PartialEq, Eq)]
pub enum Limit {
    /// Cells: at most 256.
    Cells,
    /// Devices and X cards of a cell: at most 256.
    Devices,
    /// Ports of a cell: at most 64.
    Ports,
    /// The level of a cell: at most 15.
    Level,
    /// Cards that a cell expands to: at most 65,536.
    Flat,
}

/// Why a file is no library. The first that applies is given, in the order that they have here.
#[derive(Debug, Drop, Error)]
pub enum LibFault {
    /// A line that begins with `+` has no card before it.
    #[error("line {line}: a `+` line has no card before it")]
    LoosePlus {
        /// The number of the `+` line.
        line: u32,
    },
    /// The title or a logical line is longer than 131,072 bytes.
    #[error("line {line}: {len} bytes, more than a card may have")]
    LongLine {
        /// The number of its first line.
        line: u32,
        /// Its length in bytes.
        len: u32,
    },
    /// A name is longer than 1,024 bytes.
    #[error("line {line}: a name of {len} bytes")]
    LongName {
        /// The number of the card's first line.
        line: u32,
        /// The name's length in bytes.
        len: u32,
    },
    /// The first byte begins no card.
    #[error("line {line}: byte {byte} begins no card")]
    UnknownCard {
        /// The number of the card's first line.
        line: u32,
        /// The byte as it is written.
        byte: u8,
    },
    /// There are fewer fields than the card needs.
    #[error("line {line}: {has} fields, {needs} needed")]
    ShortCard {
        /// The number of the card's first line.
        line: u32,
        /// How many fields it has.
        has: u32,
        /// How many it needs.
        needs: u32,
    },
    /// The first field is `.control`.
    #[error("line {line}: a control block")]
    ControlBlock {
        /// The number of the card's first line.
        line: u32,
    },
    /// A `.subckt` stands inside a subcircuit.
    #[error("line {line}: a subcircuit inside a subcircuit")]
    NestedSubckt {
        /// The number of the `.subckt`'s line.
        line: u32,
    },
    /// An `.ends` stands outside a subcircuit.
    #[error("line {line}: no subcircuit is open")]
    LooseEnds {
        /// The number of the `.ends`'s line.
        line: u32,
    },
    /// An `.ends` names another subcircuit than the open one.
    #[error("line {line}: another subcircuit is open")]
    WrongEnds {
        /// The number of the `.ends`'s line.
        line: u32,
    },
    /// A subcircuit is still open at the end.
    #[error("line {line}: a subcircuit without an end")]
    OpenSubckt {
        /// The number of the `.subckt`'s line.
        line: u32,
    },
    /// A `.model`, `.global` or passed card stands inside a subcircuit.
    #[error("line {line}: a card that belongs to the top stands inside a subcircuit")]
    LocalCard {
        /// The number of the card's first line.
        line: u32,
    },
    /// The text of an X or `.subckt` card holds an equal sign.
    #[error("line {line}: parameters")]
    Parameters {
        /// The number of the card's first line.
        line: u32,
    },
    /// An earlier card has the name: a device or X card of the same circuit, a model, or a subcircuit.
    #[error("line {line}: the name of line {first}")]
    DuplicateName {
        /// The number of the card's first line.
        line: u32,
        /// The number of the earlier card's first line.
        first: u32,
    },
    /// A `.subckt` has a port twice.
    #[error("line {line}: a port twice")]
    DuplicatePort {
        /// The number of the `.subckt`'s line.
        line: u32,
    },
    /// A `.subckt` has the port `0`.
    #[error("line {line}: the port 0")]
    ZeroPort {
        /// The number of the `.subckt`'s line.
        line: u32,
    },
    /// The tail is longer than 65,536 bytes.
    #[error("line {line}: a tail of {len} bytes")]
    LongTail {
        /// The number of the card's first line.
        line: u32,
        /// The normalised tail's length in bytes.
        len: u32,
    },
    /// An X card calls a subcircuit that the file lacks.
    #[error("line {line}: no such subcircuit")]
    UnknownSubckt {
        /// The number of the X card's first line.
        line: u32,
    },
    /// An X card has another number of nodes than its subcircuit has ports.
    #[error("line {line}: {has} nodes, {needs} ports")]
    WrongNodeCount {
        /// The number of the X card's first line.
        line: u32,
        /// How many nodes it has.
        has: u32,
        /// How many ports there are.
        needs: u32,
    },
    /// An X card's call leads back to the subcircuit that it stands in.
    #[error("line {line}: a call that leads back to its own subcircuit")]
    Recursive {
        /// The number of the X card's first line.
        line: u32,
    },
    /// A device or X card stands outside subcircuits.
    #[error("line {line}: a card outside subcircuits")]
    TopCard {
        /// The number of the first such card's line, from 1.
        line: u32,
    },
    /// There are too many cells, or a cell has too much of something. The first cell counts, and of it the first limit.
    #[error("{number} are more than a library may have")]
    CellLimit {
        /// The cell's name; of too many cells, that of the 257th.
        cell: Name,
        /// What there is too much of.
        what: Limit,
        /// The number: of cells 257, of cards that a cell expands to 65,537, else the cell's own.
        number: u32,
    },
    /// Two flat devices of a cell that is flattened as a top have one name, or two different nets of it have one.
    #[error("a second device or net of one flat name")]
    CellClash {
        /// The first such cell's name.
        cell: Name,
        /// The first flat name that an earlier device or an earlier other net has.
        name: Name,
    },
    /// There was no memory.
    #[error("out of memory")]
    Memory,
}

impl From<AllocError> for LibFault {
    ghost from_gives = { λ _ e. e ≡ NoMemory };

    fn from(_: AllocError) -> Self {
        LibFault::Memory
    }
}

impl<T: Drop> From<AllocFailed<T>> for LibFault {
    ghost from_gives = { λ _ e. e ≡ NoMemory };

    fn from(_: AllocFailed<T>) -> Self {
        LibFault::Memory
    }
}

impl From<Memory> for LibFault {
    ghost from_gives = { λ _ e. e ≡ NoMemory };

    fn from(_: Memory) -> Self {
        LibFault::Memory
    }
}

impl From<DeckFault> for LibFault {
    ghost from_gives = { λ d e. cause_of e ≡ option_map refused (fault_of d) };

    fn from(fault: DeckFault) -> Self {
        match fault {
            DeckFault::LoosePlus { line } => LibFault::LoosePlus { line },
            DeckFault::LongLine { line, len } => LibFault::LongLine { line, len },
            DeckFault::LongName { line, len } => LibFault::LongName { line, len },
            DeckFault::UnknownCard { line, byte } => LibFault::UnknownCard { line, byte },
            DeckFault::ShortCard { line, has, needs } => LibFault::ShortCard { line, has, needs },
            DeckFault::ControlBlock { line } => LibFault::ControlBlock { line },
            DeckFault::NestedSubckt { line } => LibFault::NestedSubckt { line },
            DeckFault::LooseEnds { line } => LibFault::LooseEnds { line },
            DeckFault::WrongEnds { line } => LibFault::WrongEnds { line },
            DeckFault::OpenSubckt { line } => LibFault::OpenSubckt { line },
            DeckFault::LocalCard { line } => LibFault::LocalCard { line },
            DeckFault::Parameters { line } => LibFault::Parameters { line },
            DeckFault::DuplicateName { line, first } => LibFault::DuplicateName { line, first },
            DeckFault::DuplicatePort { line } => LibFault::DuplicatePort { line },
            DeckFault::ZeroPort { line } => LibFault::ZeroPort { line },
            DeckFault::LongTail { line, len } => LibFault::LongTail { line, len },
            DeckFault::UnknownSubckt { line } => LibFault::UnknownSubckt { line },
            DeckFault::WrongNodeCount { line, has, needs } => LibFault::WrongNodeCount {
                line,
                has,
                needs,
            },
            DeckFault::Recursive { line } => LibFault::Recursive { line },
            DeckFault::Memory => LibFault::Memory,
        }
    }
}
