ghost use Rattle.std.specs.Prelude.{◌≡◌, ◌<◌, length, MatchOption};
ghost use Rattle.gl_card.specs.Named.{call_by};

use crate::parts::{but_last, last};
use crate::slices::behind;
use gl_line::Name;
use std::marker::Model;

/// An X card. Contracts see it as its name, nodes and the called subcircuit's name.
#[derive(Debug, Drop)]
pub struct CallCard {
    /// Its names in one piece of memory: its own, its letter first, then those of the nodes, one for each port of the
    /// subcircuit, then that of the subcircuit that it calls.
    pub(crate) names: Vec<Name>,
}

impl Model for CallCard {
    ghost use Rattle.std.specs.Prelude.{◌<◌, length};
    ghost use Rattle.gl_text.specs.Cards.{Call};
    ghost use Rattle.gl_card.specs.Named.{call_by};

    ghost Value = { Call };

    ghost view = { λ c. call_by c.names.items };

    ghost invariant = { λ c. 0 < length c.names.items };
}

impl CallCard {
    /// The X card with these names, its own first, then its nodes', then that of the subcircuit. There is none with
    /// fewer than two names.
    pub fn of(names: Vec<Name>) -> Option<CallCard>
        ensures call { MatchOption result (length names.items < 2) (λ c. c ≡ call_by names.items) }
    {
        if names.len() < 2 {
            return None;
        }
        Some(CallCard { names })
    }

    /// Its name.
    pub fn name(&self) -> &Name
        ensures name { result.now ≡ self.now.name }
    {
        &self.names[0]
    }

    /// Its nodes, port by port.
    pub fn nodes(&self) -> &[Name]
        ensures nodes { result.now ≡ self.now.nodes }
    {
        but_last(behind(&self.names, 1))
    }

    /// The name of the subcircuit that it calls.
    pub fn sub(&self) -> &Name
        ensures sub { result.now ≡ self.now.sub }
    {
        last(&self.names)
    }
}
