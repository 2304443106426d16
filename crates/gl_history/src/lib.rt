//! The rounds of a run: at each level all searched cells are listed and chosen from, and what is chosen becomes a device of the next round's circuit.
#![tactic(auto)]

mod circuit;
mod fate;
mod finding;
mod laws;
mod lift;
mod lifted;
mod marks;
mod origin;
mod replacing;
mod round;
mod searching;
mod slot;

pub use gl_graph::Cell;
pub use gl_legal::CellList;
pub use gl_match::{Memory, Pick};
pub use laws::reached_shows_the_history;
pub use lift::Lift;
pub use lifted::Lifted;
pub use origin::Origin;
pub use round::{Round, RoundCell};
