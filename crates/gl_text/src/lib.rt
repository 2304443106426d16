//! Texts and what they are read as.
#![tactic(auto)]

mod laws;

pub use laws::{calls_are_read, devices_are_read, going_down_ends, tails_are_normal};
