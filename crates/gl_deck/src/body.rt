ghost use Rattle.std.specs.Prelude.{◌≡◌};
ghost use Rattle.gl_deck.specs.Bodies.{line_of};

use crate::{CallCard, DevCard};

/// A card of a circuit: a device or a call of a subcircuit, with the number of its line, from 1.
#[derive(Debug, Drop)]
pub enum Body {
    /// A device.
    Dev(u32, DevCard),
    /// A call of a subcircuit.
    Call(u32, CallCard),
}

impl Body {
    /// The number of its line.
    pub fn line(&self) -> u32
        ensures line { result ≡ line_of self.now }
    {
        match self {
            Body::Dev(line, _) => *line,
            Body::Call(line, _) => *line,
        }
    }
}
