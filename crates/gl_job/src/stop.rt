ghost use Rattle.std.specs.Prelude.{◌≡◌};
ghost use Rattle.gl_job.specs.Texts.{slot_name, stop_text};
ghost use Rattle.gl_said.specs.Texts.{parts_text};
ghost use Rattle.gl_job.specs.declared.stop.Stop.{Stop as Why};

use crate::kind::Kind;
use gl_desk::Slot;
use gl_said::{Part, Parts, one_text};

/// What stops a run at a slot, or anywhere for want of memory.
#[derive(Clone, Copy, Debug, PartialEq, Eq)]
pub enum Stop {
    /// A call on an input failed.
    Read {
        /// The input.
        slot: Slot,
    },
    /// The file at an input is longer than a file may be.
    LongFile {
        /// The input.
        slot: Slot,
    },
    /// A call on an output failed.
    Write {
        /// The output.
        slot: Slot,
    },
    /// There was no memory.
    Memory,
}

/// The name of a slot, as messages have it.
fn name_of(slot: Slot) -> &'static str
    ensures name { result.now ≡ slot_name slot }
{
    match slot {
        Slot::Deck => "Deck",
        Slot::Library => "Library",
        Slot::Map => "Map",
        Slot::Lifted => "Lifted",
        Slot::NewMap => "NewMap",
        Slot::Report => "Report",
        Slot::Out => "Out",
        Slot::Says => "Says",
    }
}

/// That the file at an input is too long.
fn long_file<'a>(slot: Slot) -> Parts<'a>
    ensures text { parts_text result ≡ stop_text (Why.LongFile slot) }
{
    let none = Part::Text("");
    [
        Part::Text("LongFile slot="),
        Part::Text(name_of(slot)),
        Part::Text(" number=67108865"),
        none,
        none,
        none,
    ]
}

impl Stop {
    ghost use Rattle.std.specs.Prelude.{◌≡◌};
    ghost use Rattle.gl_job.specs.Texts.{stop_kind, stop_text};
    ghost use Rattle.gl_said.specs.Texts.{parts_text};

    /// Of which kind it is.
    pub fn kind(self) -> Kind
        ensures kind { result ≡ stop_kind self }
    {
        match self {
            Stop::Read { .. } => Kind::Read,
            Stop::LongFile { .. } => Kind::Limit,
            Stop::Write { .. } => Kind::Write,
            Stop::Memory => Kind::Memory,
        }
    }

    /// What is said of it.
    pub fn parts<'a>(self) -> Parts<'a>
        ensures text { parts_text result ≡ stop_text self }
    {
        match self {
            Stop::Read { slot } => one_text(name_of(slot)),
            Stop::LongFile { slot } => long_file(slot),
            Stop::Write { slot } => one_text(name_of(slot)),
            Stop::Memory => one_text(""),
        }
    }
}
