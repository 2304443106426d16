//! The form of a job: what it reads, what refuses it and what it writes, as data; reading an input, writing outputs and saying a line over any desk.
#![tactic(auto)]

mod kind;
mod reading;
mod says;
mod stop;
mod writing;

pub use kind::Kind;
pub use reading::read;
pub use says::say;
pub use stop::Stop;
pub use writing::{Output, write_outputs};
