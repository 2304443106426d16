//! What a run leaves, written: the deck with its gates as calls of subcircuits.
#![tactic(auto)]

mod carried;
mod deck;
mod device;
mod long_names;
mod naming;
mod turned;
mod variant;
mod variant_card;
mod variants;
mod words;
mod written;

pub use gl_match::Memory;
pub use written::{Written, lifted_text};
