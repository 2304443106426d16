//! Trials: instances and legal maps, against values worked out by hand.
#![tactic(auto)]

#[cfg(test)]
mod instances;
pub mod made;
