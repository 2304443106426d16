ghost use Rattle.std.specs.Prelude.{◌≡◌, Some, Ok, IfOk, IfErr};
ghost use Rattle.std.specs.Option.{option_copied};
ghost use Rattle.gl_text.specs.Flattening as flat;
ghost use Rattle.gl_deck.specs.Bodies.{bodies_value};
ghost use Rattle.gl_flat.specs.Refusals.{IsFaultOf, Refuses};
ghost use Rattle.gl_flat.specs.Steps.{IsChoice, beside_fault};

use crate::copy::name_copy;
use crate::{Body, Deck, FlatFault, Head, Name};
use std::alloc::Global;

/// What is flattened.
#[derive(Clone, Copy)]
pub struct Chosen<'a> {
    /// The head of the subcircuit that is the top.
    pub head: Option<&'a Head>,
    /// The cards.
    pub cards: &'a [Body],
}

/// The refusal of the first card outside subcircuits, beside a subcircuit that is the top.
fn beside_refusal(cards: &[Body]) -> Option<FlatFault>
    ensures beside { Refuses result (beside_fault (bodies_value cards.now)) }
{
    match cards.first() {
        Some(card) => Some(FlatFault::TopDevices { line: card.line() }),
        None => None,
    }
}

/// The subcircuit of a name as the top.
fn choose_sub<'a>(alloc: Global, deck: &'a Deck, name: &Name) -> Result<Chosen<'a>, FlatFault>
    ensures ok { IfOk result (IsChoice deck.now (Some name.now)) }
    ensures refused { IfErr result (IsFaultOf (flat.chosen deck.now (Some name.now))) }
{
    let Some(sub) = deck.subs().get(name) else {
        return Err(FlatFault::NoTop {
            name: name_copy(alloc, name)?,
        });
    };
    if let Some(fault) = beside_refusal(deck.top()) {
        return Err(fault);
    }
    Ok(Chosen {
        head: Some(sub.head()),
        cards: sub.cards(),
    })
}

/// The cards outside subcircuits, or the subcircuit of a name as the top.
pub fn choose<'a>(
    alloc: Global,
    deck: &'a Deck,
    top: Option<&Name>,
) -> Result<Chosen<'a>, FlatFault>
    ensures ok { IfOk result (IsChoice deck.now (option_copied top.entry)) }
    ensures refused { IfErr result (IsFaultOf (flat.chosen deck.now (option_copied top.entry))) }
{
    match top {
        Some(name) => choose_sub(alloc, deck, name),
        None => Ok(Chosen {
            head: None,
            cards: deck.top(),
        }),
    }
}
