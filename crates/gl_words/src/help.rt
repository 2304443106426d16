//! Words that ask for a text, and the texts.
ghost use Rattle.std.specs.Prelude.{◌≡◌, map, string_bytes};
ghost use Rattle.gl_words.specs.Topics.{job_topic, alone_topic, paired_topic, topic_named, usage_named, topic_text};

/// What a text tells of.
#[derive(Clone, Copy, Debug, PartialEq, Eq)]
pub enum Topic {
    /// All jobs.
    All,
    /// The version.
    Version,
    /// The job `lift`.
    Lift,
    /// The job `flat`.
    Flat,
    /// The job `restore`.
    Restore,
}

/// The text of the version.
const VERSION: &str = "gatelift 0.1.0\n";

/// The text of all jobs.
const ALL: &str = "gatelift finds the cells of a library in a transistor netlist.

usage: gatelift JOB WORD..

  lift DECK LIBRARY LIFTED MAP REPORT [--top NAME] [--keep NAME,NAME..]
      writes the deck again with the library's cells as calls of subcircuits, a map of
      its names, and a report of all instances
  flat DECK OUT [--top NAME]
      writes the deck as one flat deck
  restore LIFTED MAP OUT [--top NAME]
      writes a lifted deck as the flat deck that it was made of, by its map of names

  gatelift help JOB, gatelift JOB --help   tells of a job
  gatelift --version                       tells the version

statuses:
  0  all is written              6  a limit on files is passed
  1  the words name no job       7  an input could not be read
  2  the deck is refused         8  an output could not be written
  3  the library is refused      9  there was too little memory
  4  the map is refused

example:
  gatelift lift deck.sp library.sp lifted.sp map.txt report.txt
";

/// The text of the job `lift`.
const LIFT: &str =
    "usage: gatelift lift DECK LIBRARY LIFTED MAP REPORT [--top NAME] [--keep NAME,NAME..]

Writes the deck again with the library's cells as calls of subcircuits, a map of its names,
and a report of all instances. Nothing is written where one of the three passes a limit.

  DECK      the netlist that is read; its first line is its title
  LIBRARY   the cells that are looked for, each a .subckt; it has no title
  LIFTED    the lifted deck: flattened, each chosen instance a call of a subcircuit
  MAP       the map of names: under which name each device and net of the flat deck
            stands in the lifted deck, flattened; `restore` takes both
  REPORT    the instances of each cell, round by round, and how many devices are left

  --top NAME          the circuit is this subcircuit of the deck, whose ports no cell
                      may take as inner nets; no card may stand outside subcircuits
  --keep NAME,NAME..  no cell may take these nets as inner nets

example:
  gatelift lift deck.sp library.sp lifted.sp map.txt report.txt --top chip --keep clk,rst
";

/// The text of the job `flat`.
const FLAT: &str = "usage: gatelift flat DECK OUT [--top NAME]

Writes the deck as one flat deck.

  DECK   the netlist that is read; its first line is its title
  OUT    the flat deck

  --top NAME   the circuit is this subcircuit of the deck

example:
  gatelift flat deck.sp flat.sp --top chip
";

/// The text of the job `restore`.
const RESTORE: &str = "usage: gatelift restore LIFTED MAP OUT [--top NAME]

Writes a lifted deck as the flat deck that it was made of: flattened, under the old names
of its map, the devices in the map's order. A file that was edited in between is taken
where every name has its line, and refused where not.

  LIFTED   the lifted deck; its first line is its title
  MAP      the map of names, with the new name of each device and net before the old one
  OUT      the flat deck under the old names

  --top NAME   the circuit is this subcircuit of the lifted deck, the name that `lift`
               was given

example:
  gatelift restore lifted.sp map.txt flat.sp --top chip
";

/// A job of this name.
fn job_topic_of(word: &str) -> Option<Topic>
    ensures topic { result ≡ job_topic word.now }
{
    if word == "lift" {
        Some(Topic::Lift)
    } else if word == "flat" {
        Some(Topic::Flat)
    } else if word == "restore" {
        Some(Topic::Restore)
    } else {
        None
    }
}

/// A word that asks for a text alone.
fn alone_topic_of(word: &str) -> Option<Topic>
    ensures topic { result ≡ alone_topic word.now }
{
    if word == "help" {
        Some(Topic::All)
    } else if word == "--help" {
        Some(Topic::All)
    } else if word == "--version" {
        Some(Topic::Version)
    } else {
        None
    }
}

/// Two words that ask for the text of a job.
fn paired_topic_of(word: &str, other: &str) -> Option<Topic>
    ensures topic { result ≡ paired_topic word.now other.now }
{
    if word == "help" {
        job_topic_of(other)
    } else if other == "--help" {
        job_topic_of(word)
    } else {
        None
    }
}

/// What the words ask for, if it is a text.
pub fn topic_of(words: &[String]) -> Option<Topic>
    ensures topic { result ≡ topic_named (map string_bytes words.now) }
{
    match words {
        [word] => alone_topic_of(word.as_str()),
        [word, other] => paired_topic_of(word.as_str(), other.as_str()),
        _ => None,
    }
}

/// The job that the first word names, or all jobs.
pub fn usage_of(words: &[String]) -> Topic
    ensures usage { result ≡ usage_named (map string_bytes words.now) }
{
    match words {
        [word, ..] => job_topic_of(word.as_str()).unwrap_or(Topic::All),
        [] => Topic::All,
    }
}

impl Topic {
    /// The text.
    pub fn text(self) -> &'static str
        ensures text { result.now ≡ topic_text self }
    {
        match self {
            Topic::All => ALL,
            Topic::Version => VERSION,
            Topic::Lift => LIFT,
            Topic::Flat => FLAT,
            Topic::Restore => RESTORE,
        }
    }
}
