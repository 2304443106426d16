ghost use Rattle.std.specs.Prelude.{◌≡◌, ◌∷◌, ◌++◌, OnOk, map};
ghost use Rattle.gl_match.specs.declared.spot.Spot.{Spot as SpotValue};
ghost use Rattle.gl_text.specs.Flattening.{device_name};
ghost use Rattle.gl_base.specs.Reports.{name_at, part, parts};
ghost use Rattle.gl_base.specs.RoundReports.{card_name};
ghost use Rattle.gl_lifting.specs.HistoryReports.{origin_name};
ghost use Rattle.gl_history.specs.Plain.{origin_value};
ghost use Rattle.gl_deck.specs.Bodies.{body_value, bodies_value};
ghost use Rattle.gl_flat.specs.Kept.{KeptDevice as Kept};
ghost use Rattle.gl_report.specs.Pieces.{behind_blanks};

use crate::names::RoundNames;
use crate::words::{put, put_chosen, put_front, put_part};
use gl_deck::Body;
use gl_flat::{Flat, KeptDevice};
use gl_history::Origin;
use gl_line::Name;
use gl_match::{DevId, Memory, NetId, Spot};

/// The name of a net; none past the last.
fn net_name(nets: &[Name], net: NetId) -> &[u8]
    ensures name { result.now ≡ name_at nets.now net }
{
    match nets.get(net.0 as usize) {
        Some(name) => name.as_bytes(),
        None => b"",
    }
}

/// Appends a part for each port, with the net of the binding.
pub fn put_ports(
    out: &mut Vec<u8>,
    ports: &[Name],
    nets: &[Name],
    binding: &[NetId],
) -> Result<(), Memory>
    ensures ok { OnOk result (out.new.items
        ≡ out.old.items ++ behind_blanks (parts ports.now (map (name_at nets.now) binding.now))) }
{
    for (port, net) in ports.iter().zip(binding) {
        put_part(out, port.as_bytes(), net_name(nets, *net))?;
    }
    Ok(())
}

/// The name of a card.
fn name_of(card: &Body) -> &Name
    ensures name { result.now ≡ card_name (body_value card.now) }
{
    match card {
        Body::Dev(_, device) => device.name(),
        Body::Call(_, call) => call.name(),
    }
}

/// Appends the name of an original device; nothing past the last.
fn put_original(out: &mut Vec<u8>, devices: &[KeptDevice], dev: DevId) -> Result<(), Memory>
    ensures ok { OnOk result (out.new.items
        ≡ out.old.items ++ name_at (map (λ (d : Kept). d.name) devices.now) dev) }
{
    match devices.get(dev.0 as usize) {
        Some(device) => put(out, device.name().as_bytes()),
        None => Ok(()),
    }
}

/// Appends the name of a circuit's device, by where it comes from.
fn put_origin(out: &mut Vec<u8>, stem: &[u8], flat: &Flat, origin: &Origin) -> Result<(), Memory>
    ensures ok { OnOk result (out.new.items ≡ out.old.items
        ++ origin_name stem.now (map device_name flat.now.devices) (origin_value origin.now)) }
{
    match origin {
        Origin::Base(dev) => put_original(out, flat.devices(), *dev),
        Origin::Made(number) => put_chosen(out, stem, *number),
    }
}

/// Appends the name of a device of a round's circuit; nothing past the last.
fn put_device(out: &mut Vec<u8>, names: &RoundNames<'_>, dev: DevId) -> Result<(), Memory>
    ensures ok { OnOk result (out.new.items ≡ out.old.items ++ name_at names.now.devices dev) }
{
    match names.origins.get(dev.0 as usize) {
        Some(origin) => put_origin(out, names.stem, names.flat, origin),
        None => Ok(()),
    }
}

/// Appends the part of a card, with the image at a spot.
fn put_image(
    out: &mut Vec<u8>,
    names: &RoundNames<'_>,
    card: &Body,
    spot: &Spot,
) -> Result<(), Memory>
    ensures ok { OnOk result (out.new.items ≡ out.old.items
        ++ 32 ∷ part (card_name (body_value card.now), name_at names.now.devices spot.now.dev)) }
{
    put_front(out, name_of(card).as_bytes())?;
    put_device(out, names, spot.dev)
}

/// Appends a part for each card of a cell, with its image.
pub fn put_images(
    out: &mut Vec<u8>,
    names: &RoundNames<'_>,
    cards: &[Body],
    least: &[Spot],
) -> Result<(), Memory>
    ensures ok { OnOk result (out.new.items ≡ out.old.items
        ++ behind_blanks (parts (map card_name (bodies_value cards.now))
        (map (λ (s : SpotValue). name_at names.now.devices s.dev) least.now))) }
{
    for (card, spot) in cards.iter().zip(least) {
        put_image(out, names, card, spot)?;
    }
    Ok(())
}
