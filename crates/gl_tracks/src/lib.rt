//! Tracks: where searches begin and in which order they go, against values worked out by hand.
#![tactic(auto)]

#[cfg(test)]
mod courses;
#[cfg(test)]
mod large;
#[cfg(test)]
mod made;
