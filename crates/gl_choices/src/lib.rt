//! Trials: circuits, choices and a history, against values worked out by hand.
#![tactic(auto)]

#[cfg(test)]
mod choices;
#[cfg(test)]
mod circuits;
#[cfg(test)]
mod histories;
