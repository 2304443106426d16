//! Flat texts flatten to themselves.
#![tactic(auto)]

mod laws;

pub use laws::{flat_decks_flatten_again, flat_decks_stay, flat_texts_flatten_to_themselves};
