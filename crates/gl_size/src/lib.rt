//! How many cards a deck expands to, and how deep, counted without expanding it.
#![tactic(auto)]

mod chains;
mod counted;
mod excess;
mod limits;
mod rounds;
mod sizes;
mod tally;

pub use excess::{Excess, first_excess};
pub use gl_deck::{Body, Memory, Name, Sub, Subs};
pub use sizes::Sizes;
