//! What is said of refusals of flattening.
ghost use Rattle.std.specs.Prelude.{◌≡◌};
ghost use Rattle.gl_flat.specs.Refusals.{fault_of, too_many};
ghost use Rattle.gl_deck.specs.Texts.{fault_text};
ghost use Rattle.gl_said.specs.Texts.{parts_text, text_if_any};

use crate::fault::{FlatFault, What};
use gl_said::{Parts, name as behind, nothing, one};

/// That there are too many cards or devices.
fn too_many_parts<'a>(what: What, number: u32) -> Parts<'a>
    ensures text { parts_text result ≡ fault_text (too_many what number) }
{
    match what {
        What::Cards => one("22 TooMany what=Cards number=", number),
        What::Devices => one("22 TooMany what=Devices number=", number),
    }
}

/// What is said of a refusal of flattening; nothing of want of memory.
pub fn flat_parts<'a>(fault: &'a FlatFault) -> Parts<'a>
    ensures text { parts_text result ≡ text_if_any fault_text (fault_of fault.now) }
{
    match fault {
        FlatFault::NameClash { name } => behind("20 NameClash name=", name.as_bytes()),
        FlatFault::LongFlatName { len } => one("21 LongFlatName len=", *len),
        FlatFault::TooMany { what, number } => too_many_parts(*what, *number),
        FlatFault::TooDeep { number } => one("23 TooDeep number=", *number),
        FlatFault::NoTop { name } => behind("24 NoTop name=", name.as_bytes()),
        FlatFault::TopDevices { line } => one("25 TopDevices line=", *line),
        FlatFault::LongText { number } => one("26 LongText number=", *number),
        FlatFault::Memory => nothing(),
    }
}
