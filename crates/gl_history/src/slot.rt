use crate::Origin;
use gl_graph::Device;
use std::marker::Model;

/// A device of a circuit, and where it comes from.
#[derive(Drop)]
pub struct Slot {
    /// The device.
    pub device: Device,
    /// Where it comes from.
    pub origin: Origin,
}

impl Model for Slot {
    ghost use Rattle.gl_lifting.specs.Replacement.{Slot as SlotValue};
    ghost use Rattle.gl_history.specs.Plain.{origin_value};

    ghost Value = { SlotValue };

    ghost view = { λ s. record { device = s.device; origin = origin_value s.origin } };
}
