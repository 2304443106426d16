//! The chosen instances of a run, one after the other in the order of their numbers, and the composites that they are.
#![tactic(auto)]

mod found;
mod laws;

pub use found::{Found, gather_found};
pub use gl_history::{Lifted, Origin};
pub use gl_legal::{DevId, Instance};
pub use gl_match::Memory;
pub use laws::composites_are_found;
