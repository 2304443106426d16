ghost use Rattle.std.specs.Prelude.{◌≡◌, option_map, IfOk};
ghost use Rattle.gl_text.specs.Flattening.{excess_in};
ghost use Rattle.gl_deck.specs.Bodies.{bodies_value};
ghost use Rattle.gl_size.specs.Excesses.{fault_of_excess};

use crate::limits::{CARDS, DEVICES};
use crate::{Body, Memory, Sizes, Subs};
use std::alloc::Global;

/// Why a deck is not expanded. The first comes first.
#[derive(Clone, Copy, Debug, PartialEq, Eq)]
pub enum Excess {
    /// A chain of 33 X cards, each but the first in the subcircuit that the one before it calls.
    TooDeep,
    /// More than 400,000 devices and X cards.
    TooManyCards,
    /// More than 200,000 devices.
    TooManyDevices,
}

/// What cards exceed that are to be expanded with all that they call, by these subcircuits.
pub fn first_excess(alloc: Global, subs: &Subs, cards: &[Body]) -> Result<Option<Excess>, Memory>
    ensures first { IfOk result
        (λ e. option_map fault_of_excess e ≡ excess_in subs.now (bodies_value cards.now)) }
{
    let sizes = Sizes::of(alloc, subs)?;
    if sizes.is_too_deep(subs, cards) {
        return Ok(Some(Excess::TooDeep));
    }
    if sizes.cards(subs, cards) > CARDS {
        return Ok(Some(Excess::TooManyCards));
    }
    if sizes.devices(subs, cards) > DEVICES {
        return Ok(Some(Excess::TooManyDevices));
    }
    Ok(None)
}
