//! The choice without overlap: of the instances of some lists, the first that have no device in common.
#![tactic(auto)]

mod choice;
mod laws;
mod owners;

pub use choice::choose;
pub use gl_match::{Memory, Pick};
pub use laws::{chosen_instances_are_apart, others_meet_a_chosen_one, picks_are_the_choice};
