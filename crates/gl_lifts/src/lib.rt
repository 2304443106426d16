//! Decks that are lifted, and the whole text that is written of each, worked out by hand.
#![tactic(auto)]

#[cfg(test)]
mod decks;
#[cfg(test)]
mod way;
