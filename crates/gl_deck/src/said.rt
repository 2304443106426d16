//! What is said of refusals of reading.
ghost use Rattle.std.specs.Prelude.{◌≡◌};
ghost use Rattle.gl_deck.specs.Refusals.{fault_of};
ghost use Rattle.gl_deck.specs.Texts.{fault_text};
ghost use Rattle.gl_said.specs.Texts.{parts_text, text_if_any};

use crate::DeckFault;
use gl_said::{Parts, anew, counts, nothing, one, two};

/// The same, of texts and numbers alone.
fn fixed_parts(fault: &DeckFault) -> Parts<'static>
    ensures text { parts_text result ≡ text_if_any fault_text (fault_of fault.now) }
{
    match fault {
        DeckFault::LoosePlus { line } => one("1 LoosePlus line=", *line),
        DeckFault::LongLine { line, len } => two("2 LongLine line=", *line, " len=", *len),
        DeckFault::LongName { line, len } => two("3 LongName line=", *line, " len=", *len),
        DeckFault::UnknownCard { line, byte } => {
            two("4 UnknownCard line=", *line, " byte=", *byte as u32)
        }
        DeckFault::ShortCard { line, has, needs } => {
            counts("5 ShortCard line=", *line, *has, *needs)
        }
        DeckFault::ControlBlock { line } => one("6 ControlBlock line=", *line),
        DeckFault::NestedSubckt { line } => one("7 NestedSubckt line=", *line),
        DeckFault::LooseEnds { line } => one("8 LooseEnds line=", *line),
        DeckFault::WrongEnds { line } => one("9 WrongEnds line=", *line),
        DeckFault::OpenSubckt { line } => one("10 OpenSubckt line=", *line),
        DeckFault::LocalCard { line } => one("11 LocalCard line=", *line),
        DeckFault::Parameters { line } => one("12 Parameters line=", *line),
        DeckFault::DuplicateName { line, first } => {
            two("13 DuplicateName line=", *line, " first=", *first)
        }
        DeckFault::DuplicatePort { line } => one("14 DuplicatePort line=", *line),
        DeckFault::ZeroPort { line } => one("15 ZeroPort line=", *line),
        DeckFault::LongTail { line, len } => two("16 LongTail line=", *line, " len=", *len),
        DeckFault::UnknownSubckt { line } => one("17 UnknownSubckt line=", *line),
        DeckFault::WrongNodeCount { line, has, needs } => {
            counts("18 WrongNodeCount line=", *line, *has, *needs)
        }
        DeckFault::Recursive { line } => one("19 Recursive line=", *line),
        DeckFault::Memory => nothing(),
    }
}

/// What is said of a refusal of reading; nothing of want of memory.
pub fn deck_parts<'a>(fault: &DeckFault) -> Parts<'a>
    ensures text { parts_text result ≡ text_if_any fault_text (fault_of fault.now) }
{
    anew(fixed_parts(fault))
}
