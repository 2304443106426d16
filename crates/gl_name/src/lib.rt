//! The stem of the names of chosen instances: the shortest that stands in no name of a flat deck.
#![tactic(auto)]

mod fewest;
mod laws;
#[cfg(test)]
mod tests;
mod underscores;

pub use fewest::stem;
pub use gl_flat::Flat;
pub use laws::at_most_one_stem;
