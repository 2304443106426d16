//! The probe of a run: where a search for each cell begins, in the circuit of each round, printed.
#![tactic(auto)]

mod depth;
mod keys;
mod laws;
mod lines;
mod nets;
mod probe;
mod round;
mod rows;
mod words;

pub use gl_cells::Library;
pub use gl_graph::Cell;
pub use gl_history::Round;
pub use gl_match::Memory;
pub use laws::{lifted_rounds_are_probed, probed_keys_are_the_keys, probed_rounds_tell_the_keys};
pub use probe::print_probe;
pub use rows::key_lines;
