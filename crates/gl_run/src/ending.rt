//! How a run ends.
ghost use Rattle.std.specs.Prelude.{◌≡◌, true};
ghost use Rattle.gl_desk.specs.Desk.{OthersSame, NamesSame};
ghost use Rattle.gl_job.specs.Texts.{status_of, line_of, Speaks};
ghost use Rattle.gl_said.specs.Texts.{parts_text};
ghost use Rattle.gl_run.specs.Endings.{end_of, lift_end, kind_of, text_of, is_done};

use crate::kinds::{deck_kind, flat_kind, keep_kind, library_kind, map_kind, name_kind, text_kind};
use gl_cells::{LibFault, library_parts};
use gl_deck::{DeckFault, deck_parts};
use gl_desk::{Desk, Slot};
use gl_flat::{FlatFault, flat_parts};
use gl_job::{Kind, Stop, say};
use gl_lib::{KeepFault, keep_parts};
use gl_lift::LiftFault;
use gl_limit::{OutLimit, limit_parts};
use gl_map::{MapFault, map_parts};
use gl_restore::{RestoreFault, TextFault, restore_parts, text_parts};
use gl_said::{Parts, one_text};

/// How a run ends. A fault is that of the layer that answered.
#[derive(Debug, Drop)]
pub enum Ending {
    /// All is written.
    Done,
    /// The words name no job.
    Words,
    /// The deck is refused as it is read.
    Deck(DeckFault),
    /// The library is refused.
    Library(LibFault),
    /// The deck is refused as it is flattened.
    Flat(FlatFault),
    /// A kept name is unknown.
    Keep(KeepFault),
    /// What is to be written passes a limit.
    Limit(OutLimit),
    /// The map of names is refused as it is read.
    Map(MapFault),
    /// The map's names and those of the lifted deck do not go together.
    Names(RestoreFault),
    /// The restored deck is too long.
    Text(TextFault),
    /// A slot, or want of memory, stops the run.
    Stopped(Stop),
}

/// How a run ends whose deck and library were read, and of which nothing is written.
pub fn lift_ending(fault: LiftFault) -> Ending
    ensures end { end_of result ≡ lift_end fault }
{
    match fault {
        LiftFault::Flat(fault) => Ending::Flat(fault),
        LiftFault::Keep(fault) => Ending::Keep(fault),
        LiftFault::Limit(limit) => Ending::Limit(limit),
        LiftFault::Memory => Ending::Stopped(Stop::Memory),
    }
}

impl Ending {
    /// Whether all is written.
    fn is_success(&self) -> bool
        ensures done { result ≡ is_done self.now }
    {
        match self {
            Ending::Done => true,
            Ending::Words => false,
            Ending::Deck(_) => false,
            Ending::Library(_) => false,
            Ending::Flat(_) => false,
            Ending::Keep(_) => false,
            Ending::Limit(_) => false,
            Ending::Map(_) => false,
            Ending::Names(_) => false,
            Ending::Text(_) => false,
            Ending::Stopped(_) => false,
        }
    }

    /// Of which kind it is, unless all is written.
    fn kind(&self) -> Kind
        ensures kind { result ≡ kind_of self.now }
    {
        match self {
            Ending::Done => Kind::Memory,
            Ending::Words => Kind::Words,
            Ending::Deck(fault) => deck_kind(Kind::Deck, fault),
            Ending::Library(fault) => library_kind(Kind::Library, fault),
            Ending::Flat(fault) => flat_kind(Kind::Deck, fault),
            Ending::Keep(fault) => keep_kind(Kind::Deck, fault),
            Ending::Limit(_) => Kind::Limit,
            Ending::Map(fault) => map_kind(Kind::Map, fault),
            Ending::Names(fault) => name_kind(Kind::Map, fault),
            Ending::Text(fault) => text_kind(Kind::Limit, fault),
            Ending::Stopped(stop) => stop.kind(),
        }
    }

    /// What is said of it.
    fn parts<'a>(&'a self) -> Parts<'a>
        ensures text { parts_text result ≡ text_of self.now }
    {
        match self {
            Ending::Done => one_text(""),
            Ending::Words => one_text(""),
            Ending::Deck(fault) => deck_parts(fault),
            Ending::Library(fault) => library_parts(fault),
            Ending::Flat(fault) => flat_parts(fault),
            Ending::Keep(fault) => keep_parts(fault),
            Ending::Limit(limit) => limit_parts(*limit),
            Ending::Map(fault) => map_parts(fault),
            Ending::Names(fault) => restore_parts(fault),
            Ending::Text(fault) => text_parts(fault),
            Ending::Stopped(stop) => stop.parts(),
        }
    }

    /// The status that the program ends with.
    pub fn status(&self) -> u8
        ensures status { result ≡ status_of (end_of self.now) }
    {
        if self.is_success() {
            0
        } else {
            self.kind().status()
        }
    }
}

/// Says the line of an ending, or its front up to a call that fails; nothing where all is written. It takes no memory.
pub fn say_ending<D: Desk>(desk: &mut D, ending: &Ending)
    requires says { (D.shows desk.old Slot.Says).used ≡ true }
    ensures line { Speaks (line_of (end_of ending.now))
        (D.shows desk.old Slot.Says) (D.shows desk.new Slot.Says) }
    ensures others { OthersSame D.shows desk.old desk.new Slot.Says }
    ensures names { NamesSame D.held D.wants desk.old desk.new }
{
    if ending.is_success() {
        return;
    }
    say(desk, ending.kind(), &ending.parts());
}
