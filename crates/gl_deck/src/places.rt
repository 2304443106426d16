//! Where the subcircuits stand in a table that names and cards call.
ghost use Rattle.std.specs.Prelude.{◌≡◌, [], ◌∷◌, IfOk, option_to_list};
ghost use Rattle.gl_deck.specs.Bodies.{bodies_value, body_value};
ghost use Rattle.gl_deck.specs.Places.{calls_of, place_called};

use crate::{Body, Memory, Subs};
use std::alloc::Global;

/// Where the subcircuit that a card calls stands in the table.
pub fn called_place(subs: &Subs, card: &Body) -> Option<usize>
    ensures place { result ≡ place_called subs.now (body_value card.now) }
    ensures calls { option_to_list result ≡ calls_of subs.now (bodies_value (card.now ∷ [])) }
{
    match card {
        Body::Dev(_, _) => None,
        Body::Call(_, call) => subs.place_of(call.sub()),
    }
}

/// The places of the subcircuits that cards call, in order, as far as there are any.
pub fn called_places(alloc: Global, subs: &Subs, cards: &[Body]) -> Result<Vec<usize>, Memory>
    ensures places { IfOk result (λ v. v.items ≡ calls_of subs.now (bodies_value cards.now)) }
{
    let mut places = Vec::new(alloc);
    let mut rest = cards;
    while let [card, behind @ ..] = rest {
        if let Some(place) = called_place(subs, card) {
            places.push(place)?;
        }
        rest = behind;
    }
    Ok(places)
}
