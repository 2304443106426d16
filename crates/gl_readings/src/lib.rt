//! Readings: files that the code reads line by line, card by card and as decks, how much these expand to, and what must come of each, worked out by hand.
#![tactic(auto)]

#[cfg(test)]
mod cards;
#[cfg(test)]
mod decks;
#[cfg(test)]
mod lines;
#[cfg(test)]
mod sizes;
