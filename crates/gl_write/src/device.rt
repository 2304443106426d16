//! The cards of the last circuit's devices.
ghost use Rattle.std.specs.Prelude.{◌≡◌, ◌++◌, map, OnOk, IfErr};
ghost use Rattle.gl_text.specs.Cards as cards;
ghost use Rattle.gl_text.specs.Decks.{body_line, line_of};
ghost use Rattle.gl_base.specs.BaseCircuit.{nets_of};
ghost use Rattle.gl_base.specs.Reports as told;
ghost use Rattle.gl_base.specs.RoundReports.{instance_name};
ghost use Rattle.gl_base.specs.Rounds.{cards_of};
ghost use Rattle.gl_flat.specs.Kept.{device_line};
ghost use Rattle.gl_history.specs.Plain.{origin_value};
ghost use Rattle.gl_history.specs.Replacing.{slots_of};
ghost use Rattle.gl_lifting.specs.LiftedDecks.{slot_card};
ghost use Rattle.gl_limit.specs.Bounds.{Tells};
ghost use Rattle.gl_lifting.specs.Variants.{card_at, variant_of};
ghost use Rattle.gl_write.specs.Texts.{slots_text};

use crate::variants::number_in;
use crate::words::{name_or_empty, put, put_model, put_nets, put_numbers, put_tail, put_word};
use gl_flat::{Flat, KeptDevice};
use gl_graph::{DevId, Device, NetId};
use gl_history::Origin;
use gl_limit::{WriteFault, check_length, fronts_are_shorter};
use gl_line::Name;
use gl_map::put_instance_name;
use gl_match::Memory;

/// What the cards of a last circuit are written with.
#[derive(Clone, Copy)]
pub struct Scene<'a> {
    /// The flat deck.
    pub flat: &'a Flat,
    /// The stem of the names of chosen instances.
    pub stem: &'a [u8],
    /// The names of variants, by their numbers.
    pub names: &'a [Name],
    /// The number of the variant of each chosen instance, from that of number 1 on.
    pub numbers: &'a [u32],
}

/// Appends the line of a device.
fn put_device(out: &mut Vec<u8>, nets: &[Name], device: &KeptDevice) -> Result<(), Memory>
    ensures ok { OnOk result (out.new.items ≡ out.old.items ++ device_line nets.now device.now) }
{
    put(out, device.name().as_bytes())?;
    put_numbers(out, nets, device.nets())?;
    put_model(out, device.model())?;
    put_tail(out, device.tail().as_bytes())?;
    put(out, b"\n")?;
    Ok(())
}

/// Appends the line of an original device; an empty line past the last.
#[tactic(auto, using(crate::proofs::KeptLaws::line_there, crate::proofs::KeptLaws::line_absent))]
fn put_base(out: &mut Vec<u8>, flat: &Flat, dev: DevId) -> Result<(), Memory>
    ensures ok { OnOk result (out.new.items
        ≡ out.old.items ++ line_of (cards.dev (card_at (cards_of flat.now) dev))) }
{
    match flat.devices().get(dev.0 as usize) {
        Some(device) => put_device(out, flat.nets().items(), device),
        None => put(out, b"\n"),
    }
}

/// Appends the call of the variant of a composite.
fn put_made(out: &mut Vec<u8>, scene: &Scene<'_>, number: u32, nets: &[NetId]) -> Result<(), Memory>
    ensures ok { OnOk result (out.new.items ≡ out.old.items ++ line_of (cards.call (record {
      name = instance_name scene.now.stem.now number;
      nodes = map (told.name_at (nets_of (cards_of scene.now.flat.now))) nets.now;
      sub = told.name_at scene.now.names.now (variant_of scene.now.numbers.now number);
    }))) }
{
    put_instance_name(out, scene.stem, number)?;
    put_nets(out, scene.flat.nets().items(), nets)?;
    let variant = number_in(scene.numbers, number);
    put_word(out, name_or_empty(scene.names, variant as usize))?;
    put(out, b"\n")?;
    Ok(())
}

/// Appends the card of a device of the last circuit.
fn put_slot(
    out: &mut Vec<u8>,
    scene: &Scene<'_>,
    device: &Device,
    origin: Origin,
) -> Result<(), Memory>
    ensures ok { OnOk result (out.new.items ≡ out.old.items ++ body_line (slot_card
        scene.now.stem.now (cards_of scene.now.flat.now) scene.now.names.now scene.now.numbers.now
        (record { device = device.now; origin = origin_value origin }))) }
{
    match origin {
        Origin::Base(dev) => put_base(out, scene.flat, dev),
        Origin::Made(number) => put_made(out, scene, number, device.nets()),
    }
}

/// Appends the card of a device of the last circuit; the text is then no longer than a file may be.
fn put_short_slot(
    out: &mut Vec<u8>,
    scene: &Scene<'_>,
    device: &Device,
    origin: Origin,
) -> Result<(), WriteFault>
    ensures ok { OnOk result (out.new.items ≡ out.old.items ++ body_line (slot_card
        scene.now.stem.now (cards_of scene.now.flat.now) scene.now.names.now scene.now.numbers.now
        (record { device = device.now; origin = origin_value origin }))) }
    ensures fault { IfErr result (λ fault. Tells fault (out.old.items ++ body_line (slot_card
        scene.now.stem.now (cards_of scene.now.flat.now) scene.now.names.now scene.now.numbers.now
        (record { device = device.now; origin = origin_value origin })))) }
{
    put_slot(out, scene, device, origin)?;
    check_length(out)
}

/// Appends the cards of devices, each with where it comes from, until the text is longer than a file may be.
pub fn put_slots(
    out: &mut Vec<u8>,
    scene: &Scene<'_>,
    devices: &[Device],
    origins: &[Origin],
) -> Result<(), WriteFault>
    ensures ok { OnOk result (out.new.items ≡ out.old.items ++ slots_text scene.now.stem.now
        scene.now.flat.now scene.now.names.now scene.now.numbers.now
        (slots_of devices.now (map origin_value origins.now))) }
    ensures fault { IfErr result (λ fault. Tells fault (out.old.items ++ slots_text
        scene.now.stem.now scene.now.flat.now scene.now.names.now scene.now.numbers.now
        (slots_of devices.now (map origin_value origins.now)))) }
{
    fronts_are_shorter();
    for (device, origin) in devices.iter().zip(origins) {
        put_short_slot(out, scene, device, *origin)?;
    }
    Ok(())
}
