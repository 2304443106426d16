//! From a deck and a library to the lifted deck, the map of names and the report: the deck flattened, its circuit, all rounds, and the texts.
#![tactic(auto)]

mod fault;
mod laws;
mod lift;
mod limits;
mod texts;

pub use fault::LiftFault;
pub use gl_cells::{Deck, LibFault, Library};
pub use gl_flat::FlatFault;
pub use gl_lib::KeepFault;
pub use gl_limit::OutLimit;
pub use laws::{
    counted_limits_are_limits, flat_decks_are_sound, plain_texts_are_texts, read_files_are_lifted,
    read_values_are_lifted, texts_lead_back,
};
pub use lift::texts_of;
pub use texts::Texts;
