//! What is said of refusals of a library.
ghost use Rattle.std.specs.Prelude.{◌≡◌, [], codes};
ghost use Rattle.gl_deck.specs.Refusals.{fault_of};
ghost use Rattle.gl_cells.specs.Causes.{cause_of, limit_of};
ghost use Rattle.gl_cells.specs.Texts.{cell_text, limit_name, reading_of};
ghost use Rattle.gl_said.specs.Texts.{numbered, named, parts_text, text_if_any};

use crate::{DeckFault, LibFault, Limit, Name};
use gl_deck::deck_parts;
use gl_said::{Part, Parts, one};

/// What there is too much of.
fn limit_text(what: Limit) -> &'static str
    ensures text { result.now ≡ limit_name (limit_of what) }
{
    match what {
        Limit::Cells => "Cells",
        Limit::Devices => "Devices",
        Limit::Ports => "Ports",
        Limit::Level => "Level",
        Limit::Flat => "Flat",
    }
}

/// The limit that a cell breaks.
fn limit_parts<'a>(cell: &'a Name, what: Limit, number: u32) -> Parts<'a>
    ensures text { parts_text result ≡ named (codes "31 CellLimit cell=") cell.now
        (named (codes " what=") (limit_name (limit_of what)) (numbered (codes " number=") number [])) }
{
    [
        Part::Text("31 CellLimit cell="),
        Part::Name(cell.as_bytes()),
        Part::Text(" what="),
        Part::Text(limit_text(what)),
        Part::Text(" number="),
        Part::Number(number),
    ]
}

/// The cell in which a name clashes.
fn clash_parts<'a>(cell: &'a Name, name: &'a Name) -> Parts<'a>
    ensures text { parts_text result
        ≡ named (codes "33 CellClash cell=") cell.now (named (codes " name=") name.now []) }
{
    let none = Part::Text("");
    [
        Part::Text("33 CellClash cell="),
        Part::Name(cell.as_bytes()),
        Part::Text(" name="),
        Part::Name(name.as_bytes()),
        none,
        none,
    ]
}

/// The refusal of reading that a fault of a library tells; want of memory where it tells none.
fn reading_fault(fault: &LibFault) -> DeckFault
    ensures reading { fault_of result ≡ reading_of (cause_of fault.now) }
{
    match *fault {
        LibFault::LoosePlus { line } => DeckFault::LoosePlus { line },
        LibFault::LongLine { line, len } => DeckFault::LongLine { line, len },
        LibFault::LongName { line, len } => DeckFault::LongName { line, len },
        LibFault::UnknownCard { line, byte } => DeckFault::UnknownCard { line, byte },
        LibFault::ShortCard { line, has, needs } => DeckFault::ShortCard { line, has, needs },
        LibFault::ControlBlock { line } => DeckFault::ControlBlock { line },
        LibFault::NestedSubckt { line } => DeckFault::NestedSubckt { line },
        LibFault::LooseEnds { line } => DeckFault::LooseEnds { line },
        LibFault::WrongEnds { line } => DeckFault::WrongEnds { line },
        LibFault::OpenSubckt { line } => DeckFault::OpenSubckt { line },
        LibFault::LocalCard { line } => DeckFault::LocalCard { line },
        LibFault::Parameters { line } => DeckFault::Parameters { line },
        LibFault::DuplicateName { line, first } => DeckFault::DuplicateName { line, first },
        LibFault::DuplicatePort { line } => DeckFault::DuplicatePort { line },
        LibFault::ZeroPort { line } => DeckFault::ZeroPort { line },
        LibFault::LongTail { line, len } => DeckFault::LongTail { line, len },
        LibFault::UnknownSubckt { line } => DeckFault::UnknownSubckt { line },
        LibFault::WrongNodeCount { line, has, needs } => {
            DeckFault::WrongNodeCount { line, has, needs }
        }
        LibFault::Recursive { line } => DeckFault::Recursive { line },
        LibFault::TopCard { .. }
        | LibFault::CellLimit { .. }
        | LibFault::CellClash { .. }
        | LibFault::Memory => DeckFault::Memory,
    }
}

/// What is said of a refusal of a library; nothing of want of memory.
pub fn library_parts<'a>(fault: &'a LibFault) -> Parts<'a>
    ensures text { parts_text result ≡ text_if_any cell_text (cause_of fault.now) }
{
    match fault {
        LibFault::TopCard { line } => one("30 TopCard line=", *line),
        LibFault::CellLimit { cell, what, number } => limit_parts(cell, *what, *number),
        LibFault::CellClash { cell, name } => clash_parts(cell, name),
        _ => deck_parts(&reading_fault(fault)),
    }
}
