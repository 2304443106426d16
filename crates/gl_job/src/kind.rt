ghost use Rattle.std.specs.Prelude.{◌≡◌};
ghost use Rattle.gl_job.specs.Texts.{kind_status, front_of};

/// Of which kind the reason is that ends a run.
#[derive(Clone, Copy, Debug, PartialEq, Eq)]
pub enum Kind {
    /// The words name no job.
    Words,
    /// The deck is refused.
    Deck,
    /// The library is refused.
    Library,
    /// The map is refused.
    Map,
    /// The budget is used up.
    Budget,
    /// A limit is passed.
    Limit,
    /// An input cannot be read.
    Read,
    /// An output cannot be written.
    Write,
    /// There is no memory.
    Memory,
}

impl Kind {
    /// The status that the program ends with.
    pub fn status(self) -> u8
        ensures status { result ≡ kind_status self }
    {
        match self {
            Kind::Words => 1,
            Kind::Deck => 2,
            Kind::Library => 3,
            Kind::Map => 4,
            Kind::Budget => 5,
            Kind::Limit => 6,
            Kind::Read => 7,
            Kind::Write => 8,
            Kind::Memory => 9,
        }
    }

    /// What the line begins with.
    pub(crate) fn front(self) -> &'static str
        ensures front { result.now ≡ front_of self }
    {
        match self {
            Kind::Words => "gatelift: 1 words",
            Kind::Deck => "gatelift: 2 deck: ",
            Kind::Library => "gatelift: 3 library: ",
            Kind::Map => "gatelift: 4 map: ",
            Kind::Budget => "gatelift: 5 budget: ",
            Kind::Limit => "gatelift: 6 limit: ",
            Kind::Read => "gatelift: 7 read: ",
            Kind::Write => "gatelift: 8 write: ",
            Kind::Memory => "gatelift: 9 memory",
        }
    }
}
