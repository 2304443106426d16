//! Cases: files that the code flattens, or reads as libraries, and what must come of each, worked out by hand; and the text of each refusal.
#![tactic(auto)]

#[cfg(test)]
mod flat;
#[cfg(test)]
mod libraries;
mod texts;

pub use texts::{flattening_refusals, library_refusals, reading_refusals};
