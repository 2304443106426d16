use crate::{Deck, Head, Name};

/// What of a flat deck is no device.
#[derive(Clone, Copy)]
pub struct Frame<'a> {
    /// The deck that is flattened: its title, models and passed cards are the flat deck's.
    pub deck: &'a Deck,
    /// The rails but `0`.
    pub rails: &'a [Name],
    /// The head of the subcircuit that is the top.
    pub head: Option<&'a Head>,
}
