//! Refusals: the words in which every contract says what an answer means, and the one refusal for want of memory.
#![tactic(auto)]

mod laws;
mod memory;

pub use laws::{answers, chains_of_refusals, first_refusals};
pub use memory::Memory;
