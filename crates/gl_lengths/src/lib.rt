//! Laws of how long what is lifted is, told by the original deck and the map before any text is made.
#![tactic(auto)]

mod laws;

pub use laws::{lifted_flats_are_counted, limits_are_counted};
