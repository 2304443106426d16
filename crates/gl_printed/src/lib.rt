//! Printed cards and decks read back.
#![tactic(auto)]

mod laws;

pub use laws::{
    decks_are_printed_cards, decks_that_read_back_are_fine, fine_cards_are_read,
    fine_decks_read_back, flat_decks_are_fine, flat_texts_are_printed_decks, flat_texts_read_back,
    flattening_sees_no_line_numbers, globals_are_rails, printed_cards_are_lines,
    printed_texts_flatten_alike, printed_texts_stay, read_cards_are_fine, read_decks_are_fine,
    read_decks_read_back,
};
