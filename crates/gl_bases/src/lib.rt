//! The rails of a run, against values worked out by hand.
#![tactic(auto)]

#[cfg(test)]
mod rails;
