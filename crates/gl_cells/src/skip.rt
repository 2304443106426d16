use gl_deck::Name;

/// Why a cell is skipped. The first that applies is given.
#[derive(Debug, Drop, PartialEq, Eq)]
pub enum Skip {
    /// It has no cards.
    Empty,
    /// This port, the first such, stands on no card.
    Loose(Name),
    /// It calls this cell, the first such by its cards, and that is skipped.
    Uses(Name),
}
