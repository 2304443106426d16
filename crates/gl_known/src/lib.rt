//! What is known of every deck that was read.
#![tactic(auto)]

mod laws;

pub use laws::{flat_decks_are_known, lines_are_short, read_decks_are_known, sizes};
