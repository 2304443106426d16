//! Names behind X cards, by the text of the way to them.
ghost use Rattle.std.specs.Prelude.{◌≡◌, ◌++◌, ◌∷◌, [], filter_map, IfOk, OnOk};
ghost use Rattle.gl_text.specs.Cards as cards;
ghost use Rattle.gl_text.specs.Decks.{body_name};
ghost use Rattle.gl_text.specs.Flattening.{path_text};
ghost use Rattle.gl_base.specs.RoundReports.{instance_name};
ghost use Rattle.gl_deck.specs.Bodies.{body_value, bodies_value};
ghost use Rattle.gl_history.specs.Plain.{origin_value};
ghost use Rattle.gl_named.specs.Firsts.{Adds};
ghost use Rattle.gl_named.specs.Walks as walks;

use crate::firsts::put_first;
use gl_deck::Body;
use gl_found::{Found, Origin};
use gl_map::{Memory, Name, put_instance_name};
use std::alloc::Global;

/// The name of a card.
fn name_of(card: &Body) -> &Name
    ensures name { result.now ≡ body_name (body_value card.now) }
{
    match card {
        Body::Dev(_, device) => device.name(),
        Body::Call(_, call) => call.name(),
    }
}

/// A way, and a name behind it.
pub fn joined(alloc: Global, way: &[u8], name: &Name) -> Result<Name, Memory>
    ensures text { IfOk result (λ text. text ≡ way.now ++ name.now) }
{
    let mut text = Vec::new(alloc);
    text.extend_from_slice(way)?;
    text.extend_from_slice(name.as_bytes())?;
    Name::of(alloc, &text)
}

/// The text of the way through a card.
fn way_through(alloc: Global, way: &[u8], name: &Name) -> Result<Name, Memory>
    ensures way { IfOk result (λ text. text ≡ walks.way_behind way.now name.now) }
{
    let mut text = Vec::new(alloc);
    text.extend_from_slice(way)?;
    text.extend_from_slice(name.as_bytes())?;
    text.extend_from_slice(b".")?;
    Name::of(alloc, &text)
}

/// The text of the way to a composite at the top: its own name and a dot.
pub fn top_way(alloc: Global, stem: &[u8], number: u32) -> Result<Name, Memory>
    ensures way { IfOk result
        (λ text. text ≡ path_text (instance_name stem.now number ∷ [])) }
{
    let mut text = Vec::new(alloc);
    put_instance_name(&mut text, stem, number)?;
    text.extend_from_slice(b".")?;
    Name::of(alloc, &text)
}

/// The first byte of a name; 0 where there is none.
fn first_byte(name: &[u8]) -> u8
    ensures byte { result ≡ cards.first_byte name.now }
{
    match name {
        [byte, ..] => *byte,
        [] => 0,
    }
}

/// The flat name of a device behind the text of a way.
fn named_device(alloc: Global, way: &[u8], name: &Name) -> Result<Name, Memory>
    ensures name { IfOk result (λ text. text ≡ walks.device_behind way.now name.now) }
{
    if way.is_empty() {
        return Name::of(alloc, name.as_bytes());
    }
    let mut text = Vec::new(alloc);
    text.push(first_byte(name.as_bytes()))?;
    text.extend_from_slice(b".")?;
    text.extend_from_slice(way)?;
    text.extend_from_slice(name.as_bytes())?;
    Name::of(alloc, &text)
}

/// Puts the way to the composite that a card was matched with, where it was one.
fn add_way(
    alloc: Global,
    ways: &mut Vec<Option<Name>>,
    way: &[u8],
    card: &Body,
    origin: Origin,
) -> Result<(), Memory>
    ensures added { OnOk result (Adds ways.old.items ways.new.items
        (filter_map (walks.way_row way.now) ((body_value card.now, origin_value origin) ∷ []))) }
{
    match origin {
        Origin::Base(_) => Ok(()),
        Origin::Made(number) => {
            let text = way_through(alloc, way, name_of(card))?;
            put_first(ways, number as usize, text)
        }
    }
}

/// Puts the ways to the composites that a chosen instance was made from.
pub fn add_ways(
    alloc: Global,
    ways: &mut Vec<Option<Name>>,
    way: &[u8],
    cards: &[Body],
    found: &Found<'_>,
) -> Result<(), Memory>
    ensures added { OnOk result (Adds ways.old.items ways.new.items
        (filter_map (walks.way_row way.now)
        (walks.cards_from found.now (bodies_value cards.now)))) }
{
    let instance = found.instance;
    for (card, spot) in cards.iter().zip(&instance.least) {
        add_way(alloc, ways, way, card, found.origin(spot.dev))?;
    }
    Ok(())
}

/// Puts the new name of the original device that a card was matched with, where it was one.
fn add_device(
    alloc: Global,
    devices: &mut Vec<Option<Name>>,
    way: &[u8],
    card: &Body,
    origin: Origin,
) -> Result<(), Memory>
    ensures added { OnOk result (Adds devices.old.items devices.new.items
        (filter_map (walks.device_row way.now)
        ((body_value card.now, origin_value origin) ∷ []))) }
{
    match (card, origin) {
        (Body::Dev(_, device), Origin::Base(dev)) => {
            let name = named_device(alloc, way, device.name())?;
            put_first(devices, dev.0 as usize, name)
        }
        _ => Ok(()),
    }
}

/// Puts the new names of the original devices that a chosen instance was made from.
pub fn add_devices(
    alloc: Global,
    devices: &mut Vec<Option<Name>>,
    way: &[u8],
    cards: &[Body],
    found: &Found<'_>,
) -> Result<(), Memory>
    ensures added { OnOk result (Adds devices.old.items devices.new.items
        (filter_map (walks.device_row way.now)
        (walks.cards_from found.now (bodies_value cards.now)))) }
{
    let instance = found.instance;
    for (card, spot) in cards.iter().zip(&instance.least) {
        add_device(alloc, devices, way, card, found.origin(spot.dev))?;
    }
    Ok(())
}
