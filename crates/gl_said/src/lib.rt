//! Parts of a message, and its text: what the texts of refusals are made of. Nothing here takes memory.
#![tactic(auto)]

mod makers;
mod part;

pub use makers::{Parts, anew, counts, name, nothing, one, one_text, two};
pub use part::Part;
