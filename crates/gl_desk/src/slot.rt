/// A place where a program reads or writes. `Deck`, `Library` and `Map` are read, the others are
/// written. `Says` is the program's own output and is in use from the start.
#[derive(Clone, Copy, Debug, PartialEq, Eq)]
pub enum Slot {
    /// The deck that a job reads.
    Deck,
    /// The library of cells.
    Library,
    /// The name map that a job reads.
    Map,
    /// The lifted deck.
    Lifted,
    /// The name map that a job writes.
    NewMap,
    /// The report.
    Report,
    /// The one output of a job that writes a single file.
    Out,
    /// What the program says.
    Says,
}

impl Slot {
    ghost use Rattle.std.specs.Prelude.{◌≡◌, ◌<◌};
    ghost use Rattle.gl_desk.specs.Desk.{is_input};
    ghost use Rattle.gl_desk.specs.Places.{place_of};

    /// Whether the slot is read.
    pub(crate) fn reads(self) -> bool
        ensures { result ≡ is_input self }
    {
        matches!(self, Slot::Deck | Slot::Library | Slot::Map)
    }

    /// Where a desk keeps what belongs to the slot, from 0.
    pub(crate) fn place(self) -> usize
        ensures place { result ≡ place_of self }
        ensures below { result < 8 }
    {
        match self {
            Slot::Deck => 0,
            Slot::Library => 1,
            Slot::Map => 2,
            Slot::Lifted => 3,
            Slot::NewMap => 4,
            Slot::Report => 5,
            Slot::Out => 6,
            Slot::Says => 7,
        }
    }
}
