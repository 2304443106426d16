ghost use Rattle.std.specs.Prelude.{◌≡◌};
ghost use Rattle.gl_said.specs.Texts.{parts_text};
ghost use Rattle.gl_limit.specs.Texts.{limit_text};
ghost use Rattle.gl_limit.specs.Limits.{limit_value};

use gl_said::{Parts, one};

/// A limit of what is written that is passed.
#[derive(Clone, Copy, Debug, Drop, PartialEq, Eq)]
pub enum OutLimit {
    /// A name of the lifted deck, flattened, or of one of its subcircuits has more than 1,024 bytes.
    Name,
    /// The lifted deck is expanded to more than 400,000 cards.
    Cards,
    /// The lifted deck has more than 67,108,864 bytes.
    LiftedText,
    /// The text of the lifted deck, flattened, has more than 67,108,864 bytes.
    LiftedFlat,
    /// The map of names has more than 67,108,864 bytes.
    MapText,
    /// The report has more than 67,108,864 bytes.
    ReportText,
}

/// What is said of a limit that is passed.
pub fn limit_parts<'a>(limit: OutLimit) -> Parts<'a>
    ensures text { parts_text result ≡ limit_text (limit_value limit) }
{
    match limit {
        OutLimit::Name => one("50 OutLimit which=Name number=", 1_024),
        OutLimit::Cards => one("50 OutLimit which=Cards number=", 400_000),
        OutLimit::LiftedText => one("50 OutLimit which=LiftedText number=", 67_108_864),
        OutLimit::LiftedFlat => one("50 OutLimit which=LiftedFlat number=", 67_108_864),
        OutLimit::MapText => one("50 OutLimit which=MapText number=", 67_108_864),
        OutLimit::ReportText => one("50 OutLimit which=ReportText number=", 67_108_864),
    }
}
