//! What is said of refusals of reading a map.
ghost use Rattle.std.specs.Prelude.{◌≡◌};
ghost use Rattle.gl_said.specs.Texts.{parts_text, text_if_any};
ghost use Rattle.gl_map.specs.Refusals.{fault_of};
ghost use Rattle.gl_map.specs.Texts.{fault_text};

use crate::MapFault;
use gl_said::{Parts, nothing, one, one_text};

/// What is said of a refusal of reading a map; nothing of want of memory.
pub fn map_parts<'a>(fault: &'a MapFault) -> Parts<'a>
    ensures text { parts_text result ≡ text_if_any fault_text (fault_of fault.now) }
{
    match fault {
        MapFault::BadHeader => one_text("40 BadHeader"),
        MapFault::BadLine { line } => one("41 BadLine line=", *line),
        MapFault::NoEnd => one_text("42 NoEnd"),
        MapFault::DoubleNew { line } => one("43 DoubleNew line=", *line),
        MapFault::Memory => nothing(),
    }
}
