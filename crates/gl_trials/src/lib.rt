//! Trials: desks and maps of names, against values worked out by hand.
#![tactic(auto)]

#[cfg(test)]
mod desks;
#[cfg(test)]
mod maps;
