//! The report of a run over all its rounds: exactly its text, or that it is too long.
#![tactic(auto)]

mod cells;
mod lines;
mod names;
mod originals;
mod parts;
mod report;
mod words;

pub use gl_cells::Library;
pub use gl_flat::Flat;
pub use gl_history::Lifted;
pub use gl_limit::WriteFault;
pub use report::report_text;
