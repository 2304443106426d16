//! A round: cells listed against one circuit, each list complete, and the choice over all of them.
#![tactic(auto)]

mod count;
mod lists;
mod round;

pub use gl_cover::Pick;
pub use gl_graph::{Circuit, Pattern};
pub use gl_legal::CellList;
pub use gl_match::Memory;
pub use round::{Round, round_among, round_of};
