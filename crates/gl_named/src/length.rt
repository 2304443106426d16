//! Lengths of the lines of devices under their new names, counted and not built.
ghost use Rattle.std.specs.Prelude.{◌≡◌, ◌∷◌};
ghost use Rattle.std.specs.Option.{option_copied};
ghost use Rattle.gl_text.specs.Cards.{spaced};
ghost use Rattle.gl_flat.specs.Kept.{device_line, device_lines, numbers_text};
ghost use Rattle.gl_flat.specs.Lengths.{after};
ghost use Rattle.gl_flat.specs.Lines.{model_text};
ghost use Rattle.gl_named.specs.Firsts.{at_number};
ghost use Rattle.gl_named.specs.Named.{devices_from, under_name};

use crate::new_name::new_name;
use crate::new_nets::NewNets;
use gl_flat::KeptDevice;
use gl_map::Name;

/// Adds a text's length. A count that would be too large stays at the largest.
fn add(total: usize, text: &[u8]) -> usize
    ensures total { result ≡ after total text.now }
{
    total.saturating_add(text.len())
}

/// Adds the length of a space and a word.
fn add_word(total: usize, word: &[u8]) -> usize
    ensures total { result ≡ after total (32 ∷ word.now) }
{
    add(add(total, b" "), word)
}

/// Adds the lengths of spaces and nets' new names.
fn add_nodes(total: usize, nets: &NewNets<'_>, nodes: &[u32]) -> usize
    ensures total { result ≡ after total (numbers_text nets.now nodes.now) }
{
    let mut sum = total;
    for node in nodes {
        sum = add_word(sum, nets.name(*node));
    }
    sum
}

/// Adds the length of a space and the model's name, if there is one.
fn add_model(total: usize, model: Option<&Name>) -> usize
    ensures total { result ≡ after total (model_text (option_copied model.entry)) }
{
    match model {
        Some(name) => add_word(total, name.as_bytes()),
        None => total,
    }
}

/// Adds the length of a space and a tail, if it is not empty.
fn add_tail(total: usize, tail: &[u8]) -> usize
    ensures total { result ≡ after total (spaced tail.now) }
{
    if tail.is_empty() {
        return total;
    }
    add_word(total, tail)
}

/// Adds the length of a device's line under a new name.
fn add_device(total: usize, nets: &NewNets<'_>, name: &Name, device: &KeptDevice) -> usize
    ensures total { result
        ≡ after total (device_line nets.now (under_name name.now device.now)) }
{
    let named = add(total, name.as_bytes());
    let placed = add_nodes(named, nets, device.nets());
    let modelled = add_model(placed, device.model());
    let tailed = add_tail(modelled, device.tail().as_bytes());
    add(tailed, b"\n")
}

/// Adds the lengths of devices' lines under their new names.
pub fn add_devices(
    total: usize,
    nets: &NewNets<'_>,
    table: &[Option<Name>],
    devices: &[KeptDevice],
) -> usize
    ensures total { result ≡ after total
        (device_lines nets.now (devices_from (at_number table.now) 0 devices.now)) }
{
    let mut sum = total;
    let mut number: usize = 0;
    for device in devices {
        let name = new_name(table, number, device.name());
        sum = add_device(sum, nets, name, device);
        number += 1;
    }
    sum
}
