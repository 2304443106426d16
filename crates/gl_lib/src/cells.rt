//! The devices among the cards of a cell.
ghost use Rattle.std.specs.Prelude.{◌≡◌, ◌++◌, ◌∷◌, [], map, IfOk, OnOk};
ghost use Rattle.gl_text.specs.CellCards.{devices_in};
ghost use Rattle.gl_deck.specs.Bodies.{body_value, bodies_value};

use gl_card::DevCard;
use gl_cells::Body;
use std::alloc::{AllocError, Global};

/// Adds a card, if it is a device.
fn add_card<'a>(devices: &mut Vec<&'a DevCard>, card: &'a Body) -> Result<(), AllocError>
    ensures added { OnOk result (map (λ d. d.now) devices.new.items
        ≡ map (λ d. d.now) devices.old.items ++ devices_in (body_value card.now ∷ [])) }
{
    if let Body::Dev(_, device) = card {
        devices.push(device)?;
    }
    Ok(())
}

/// The devices among cards, in their order.
pub fn cards_of<'a>(alloc: Global, cards: &'a [Body]) -> Result<Vec<&'a DevCard>, AllocError>
    ensures cards { IfOk result
        (λ devices. map (λ d. d.now) devices.items ≡ devices_in (bodies_value cards.now)) }
{
    let mut devices = Vec::new(alloc);
    for card in cards {
        add_card(&mut devices, card)?;
    }
    Ok(devices)
}
