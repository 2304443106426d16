//! The limits of what is written: how long a text may be, and what is said of a limit that is passed.
#![tactic(auto)]

mod check;
mod fault;
mod laws;
mod limit;

pub use check::{FILE_LENGTH, check_length};
pub use fault::WriteFault;
pub use gl_fault::Memory;
pub use laws::fronts_are_shorter;
pub use limit::{OutLimit, limit_parts};
