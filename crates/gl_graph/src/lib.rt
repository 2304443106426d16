//! Circuits and patterns: what is built is sound, holds what was given, and looks each answer up.
#![tactic(auto)]

mod cell;
mod checks;
mod circuit;
mod device;
mod fault;
mod incidence;
mod making;
mod marks;
mod pattern;
mod railed;
mod roles;
mod shape;
mod tables;
mod turning;

pub use cell::Cell;
pub use circuit::Circuit;
pub use device::Device;
pub use fault::BuildFault;
pub use gl_match::{Class, DevId, NetId, Role, Spot, TypeId, Vertex};
pub use pattern::Pattern;
pub use shape::Shape;
pub use tables::Places;
