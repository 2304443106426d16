//! The way back: a flat deck under the old names of a map, printed, or the first refusal.
#![tactic(auto)]

mod back;
mod devices;
mod fault;
mod length;
mod lines;
mod places;
mod print;
mod refused;
mod restored;
mod said;
mod too_long;

pub use fault::RestoreFault;
pub use gl_flat::Flat;
pub use gl_line::{Memory, Name};
pub use gl_map::NameMap;
pub use restored::{Restored, restore};
pub use said::restore_parts;
pub use too_long::{TextFault, text_parts};
