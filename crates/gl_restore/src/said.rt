//! What is said of refusals of restoring.
ghost use Rattle.std.specs.Prelude.{◌≡◌};
ghost use Rattle.gl_said.specs.Texts.{parts_text, text_if_any};
ghost use Rattle.gl_restore.specs.Refusals.{fault_of};
ghost use Rattle.gl_restore.specs.Texts.{fault_text};

use crate::RestoreFault;
use gl_said::{Parts, name as behind, nothing, one};

/// What is said of a refusal of restoring; nothing of want of memory.
pub fn restore_parts<'a>(fault: &'a RestoreFault) -> Parts<'a>
    ensures text { parts_text result ≡ text_if_any fault_text (fault_of fault.now) }
{
    match fault {
        RestoreFault::Missing { name } => behind("44 Missing name=", name.as_bytes()),
        RestoreFault::Extra { line } => one("45 Extra line=", *line),
        RestoreFault::NetMerge { line } => one("46 NetMerge line=", *line),
        RestoreFault::LetterChanged { line } => one("47 LetterChanged line=", *line),
        RestoreFault::DeviceMerge { line } => one("48 DeviceMerge line=", *line),
        RestoreFault::Memory => nothing(),
    }
}
