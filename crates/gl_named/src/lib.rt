//! The map of names of a run: under which name each original device and net stands in the lifted deck, flattened; and what it counts.
#![tactic(auto)]

mod firsts;
mod frame;
mod images;
mod length;
mod long;
mod names;
mod new_name;
mod new_nets;
mod plan;
mod renames;
mod text;
mod ways;

pub use gl_found::Lifted;
pub use gl_limit::WriteFault;
pub use gl_map::Memory;
pub use names::Names;
