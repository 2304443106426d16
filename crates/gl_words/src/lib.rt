//! The words of a run: the first is the job, the others are read as its command reads them.
#![tactic(auto)]

mod commands;
mod help;
mod job;
mod keep;
mod reading;

pub use gl_line::Name;
pub use help::{Topic, topic_of, usage_of};
pub use job::{Flat, Job, Lift, Restore, job_of};
