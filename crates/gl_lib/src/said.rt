//! What is said of kept names that are unknown.
ghost use Rattle.std.specs.Prelude.{◌≡◌, codes};
ghost use Rattle.gl_lib.specs.Kept.{unknown_of};
ghost use Rattle.gl_lib.specs.Texts.{keep_text};
ghost use Rattle.gl_said.specs.Texts.{parts_text, text_if_any};

use crate::fault::KeepFault;
use gl_said::{Parts, name as behind, nothing};

/// What is said of a kept name that is unknown; nothing of want of memory.
pub fn keep_parts<'a>(fault: &'a KeepFault) -> Parts<'a>
    ensures text { parts_text result ≡ text_if_any keep_text (unknown_of fault.now) }
{
    match fault {
        KeepFault::UnknownKeep { name } => behind("32 UnknownKeep name=", name.as_bytes()),
        KeepFault::Memory => nothing(),
    }
}

/// The text of an unknown kept name by hand.
pub fn unknown_keep_row()
    ensures text { keep_text (codes "x") ≡ codes "32 UnknownKeep name=x" }
{}
