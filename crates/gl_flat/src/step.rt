ghost use Rattle.std.specs.Prelude.{◌≡◌};
ghost use Rattle.std.specs.Option.{option_copied};
ghost use Rattle.gl_flat.specs.Ways.{actual_node};

use crate::{CallCard, Name};
use indexmap::IndexSet;

/// An X card on the way to a card.
#[derive(Clone, Copy)]
pub struct Step<'a> {
    /// The X card.
    pub call: &'a CallCard,
    /// The ports of the subcircuit that it calls.
    pub ports: &'a IndexSet<Name>,
}

/// The node of the X card that stands for a port.
pub fn actual<'a>(step: &Step<'a>, name: &Name) -> Option<&'a Name>
    ensures node { option_copied result ≡ actual_node step.now name.now }
{
    let place = step.ports.get_index_of(name)?;
    step.call.nodes().get(place)
}
