ghost use Rattle.std.specs.Prelude.{◌≡◌, ◌∷◌, [], ◌++◌, None, Some, OnOk, is_ok, length, take, if◌then◌else◌};
ghost use Rattle.std.specs.Option.{option_copied};
ghost use Rattle.gl_text.specs.Cards as cards;
ghost use Rattle.gl_text.specs.Cards.{spaced};
ghost use Rattle.gl_text.specs.Decks as decks;
ghost use Rattle.gl_text.specs.Flattening.{around, flat_text};
ghost use Rattle.gl_base.specs.Reports.{name_at};
ghost use Rattle.gl_card.specs.Lines.{spaced_all};
ghost use Rattle.gl_flat.specs.Kept.{device_line, device_lines, numbers_text};
ghost use Rattle.gl_flat.specs.Lines.{model_text};

use crate::{Flat, Head, KeptDevice, Memory, Name};
use gl_deck::{put, put_all_passed, put_ends, put_globals, put_head, put_models, put_text};

/// The name of a net, by its number.
fn net_name<'a>(nets: &'a [Name], number: u32) -> &'a [u8]
    ensures name { result.now ≡ name_at nets.now number }
{
    match nets.get(number as usize) {
        Some(name) => name.as_bytes(),
        None => &[],
    }
}

/// Appends a space and a word.
pub fn put_word(out: &mut Vec<u8>, word: &[u8]) -> Result<(), Memory>
    ensures ok { OnOk result (out.new.items ≡ out.old.items ++ spaced_all (word.now ∷ [])) }
    ensures front { take (length out.old.items) out.new.items ≡ out.old.items }
{
    put(out, b" ")?;
    put(out, word)
}

/// Appends a space and the net's name for each of the numbers.
fn put_nodes(out: &mut Vec<u8>, nets: &[Name], nodes: &[u32]) -> Result<(), Memory>
    ensures ok { OnOk result (out.new.items ≡ out.old.items ++ numbers_text nets.now nodes.now) }
    ensures front { take (length out.old.items) out.new.items ≡ out.old.items }
{
    for node in nodes {
        put_word(out, net_name(nets, *node))?;
    }
    Ok(())
}

/// Appends a space and the model's name, if there is one.
fn put_device_model(out: &mut Vec<u8>, device: &KeptDevice) -> Result<(), Memory>
    ensures ok { OnOk result (out.new.items ≡ out.old.items ++ model_text device.now.model) }
    ensures front { take (length out.old.items) out.new.items ≡ out.old.items }
{
    match device.model() {
        Some(name) => put_word(out, name.as_bytes()),
        None => Ok(()),
    }
}

/// Appends a space and the tail, if it is not empty.
pub fn put_tail(out: &mut Vec<u8>, tail: &[u8]) -> Result<(), Memory>
    ensures ok { OnOk result (out.new.items ≡ out.old.items ++ spaced tail.now) }
    ensures front { take (length out.old.items) out.new.items ≡ out.old.items }
{
    if tail.is_empty() {
        return Ok(());
    }
    put(out, b" ")?;
    put(out, tail)
}

/// Appends a device.
fn put_device(out: &mut Vec<u8>, nets: &[Name], device: &KeptDevice) -> Result<(), Memory>
    ensures ok { OnOk result (out.new.items ≡ out.old.items ++ device_line nets.now device.now) }
    ensures front { take (length out.old.items) out.new.items ≡ out.old.items }
{
    put(out, device.name().as_bytes())?;
    put_nodes(out, nets, device.nets())?;
    put_device_model(out, device)?;
    put_tail(out, device.tail().as_bytes())?;
    put(out, b"\n")?;
    Ok(())
}

/// Appends the devices.
fn put_devices(out: &mut Vec<u8>, nets: &[Name], devices: &[KeptDevice]) -> Result<(), Memory>
    ensures ok { OnOk result (out.new.items ≡ out.old.items ++ device_lines nets.now devices.now) }
    ensures front { take (length out.old.items) out.new.items ≡ out.old.items }
{
    for device in devices {
        put_device(out, nets, device)?;
    }
    Ok(())
}

/// Appends the devices, between the cards of the top subcircuit if there is one.
fn put_around(
    out: &mut Vec<u8>,
    top: Option<&Head>,
    nets: &[Name],
    devices: &[KeptDevice],
) -> Result<(), Memory>
    ensures ok { OnOk result (out.new.items
        ≡ out.old.items ++ around (option_copied top.entry) (device_lines nets.now devices.now)) }
    ensures front { take (length out.old.items) out.new.items ≡ out.old.items }
{
    match top {
        None => put_devices(out, nets, devices),
        Some(head) => {
            put_head(out, head)?;
            put_devices(out, nets, devices)?;
            put_ends(out, head.name())
        }
    }
}

/// Appends the flat deck. What stood before stays, also where no memory is found.
fn put_flat(out: &mut Vec<u8>, flat: &Flat) -> Result<(), Memory>
    ensures ok { OnOk result (out.new.items ≡ out.old.items ++ flat_text flat.now) }
    ensures front { take (length out.old.items) out.new.items ≡ out.old.items }
{
    put_text(out, flat.title())?;
    put_globals(out, flat.rails())?;
    put_models(out, flat.models())?;
    put_around(out, flat.top(), flat.nets().items(), flat.devices())?;
    put_all_passed(out, flat.passed())?;
    put_text(out, b".end")?;
    Ok(())
}

impl Flat {
    /// Appends the flat deck's text: the title, `.global` cards of one name for the rails, models, devices (between `.subckt`
    /// and `.ends` of the top subcircuit, if there is one), passed cards and `.end`, each on a line. Without memory for all of
    /// it nothing is appended.
    pub fn print(&self, out: &mut Vec<u8>) -> Result<(), Memory>
        ensures printed { out.new.items
            ≡ (if is_ok result then out.old.items ++ flat_text self.now else out.old.items) }
    {
        let start = out.len();
        if put_flat(out, self).is_err() {
            out.truncate(start);
            return Err(Memory);
        }
        Ok(())
    }
}
