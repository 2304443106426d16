//! The top call: what is written is the stated function of what is read, and each status has its cause.
#![tactic(auto)]

mod back;
mod ending;
mod flat;
mod inputs;
mod job;
mod kinds;
mod laws;
mod lift;
mod restore;
mod writing;

pub use ending::Ending;
pub use job::run;
pub use laws::{lifted_files_lead_back, said_lines};
