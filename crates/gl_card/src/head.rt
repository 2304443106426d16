ghost use Rattle.std.specs.Prelude.{◌≡◌};

use gl_line::Name;
use std::marker::Model;

/// What a `.subckt` card names: the subcircuit and its ports.
#[derive(Debug, Drop)]
pub struct Head {
    /// The subcircuit's name.
    pub name: Name,
    /// The ports, in order.
    pub ports: Vec<Name>,
}

impl Model for Head {
    ghost use Rattle.gl_text.specs.Cards.{Head as HeadValue};

    ghost Value = { HeadValue };

    ghost view = { λ h. record { name = h.name; ports = h.ports.items } };
}

impl Head {
    /// The subcircuit's name.
    pub fn name(&self) -> &Name
        ensures name { result.now ≡ self.now.name }
    {
        &self.name
    }

    /// The ports, in order.
    pub fn ports(&self) -> &[Name]
        ensures ports { result.now ≡ self.now.ports }
    {
        &self.ports
    }
}
