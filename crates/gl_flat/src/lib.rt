//! Decks flattened: every device with its flat name and its nets, or the first refusal.
#![tactic(auto)]

mod cell;
mod chosen;
mod clash;
mod copy;
mod device;
mod dot;
mod expand;
mod fault;
mod flat;
mod flat_name;
mod flattening;
mod frame;
mod laws;
mod length;
mod long;
mod names;
mod naming;
mod net;
mod number;
mod print;
mod said;
mod same;
mod scene;
mod seen;
mod step;
mod tables;
mod text;
mod way;

pub use cell::first_clash;
pub use fault::{FlatFault, What};
pub use flat::{Flat, KeptDevice};
pub use flattening::{flatten, flattened_text};
pub use gl_deck::{
    Body, CallCard, Deck, DevCard, Head, Letter, Memory, ModelCard, Name, Sub, Subs, Tail,
};
pub use laws::{flat_decks_are_bounded, flat_names_are_one_to_one, plain_decks_stay};
pub use names::Names;
pub use said::flat_parts;
