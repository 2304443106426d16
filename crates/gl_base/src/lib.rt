//! The definitions that stand between decks and circuits: rails, types, the circuit of a deck, the pattern of a cell, and reports.
#![tactic(auto)]

mod keeping;
mod laws;

pub use keeping::{kept_names_pin_once, unknown_names_are_no_nets};
pub use laws::{
    names_stand_once, numbers_lead_back, rails_differ, same_types_are_equal, tried_stems_and_lists,
};
