ghost use Rattle.std.specs.Prelude.{◌≡◌, ◌∷◌, [], Ok, map, flat_map, OnOk, IfOk, IfErr};
ghost use Rattle.gl_text.specs.Flattening as flat;
ghost use Rattle.gl_text.specs.Flattening.{bearers};
ghost use Rattle.gl_flat.specs.Kept.{kept};
ghost use Rattle.gl_flat.specs.Refusals.{IsFaultOf};
ghost use Rattle.gl_flat.specs.SeenNames.{HasRoom, bearers_of, top_nets, net_names, number_in, numbers_in, seen_all, seen_one, top_bearers};

use crate::copy::{option_copy, tail_copy};
use crate::device::FlatDevice;
use crate::naming::device_text;
use crate::net::Net;
use crate::seen::Seen;
use crate::{FlatFault, KeptDevice, Name};
use std::alloc::Global;

/// Adds a net, and gives its number.
fn number_net<'a>(alloc: Global, seen: &mut Seen<'a>, net: &Net<'a>) -> Result<u32, FlatFault>
    requires few { HasRoom seen.old (flat.net_name net.now ∷ []) }
    ensures ok { OnOk result (seen_one seen.old (flat.net net.now) ≡ Ok seen.new) }
    ensures number { IfOk result (λ number. number ≡ number_in seen.new net.now) }
    ensures refused { IfErr result (IsFaultOf (seen_one seen.old (flat.net net.now))) }
{
    let number = seen.add_net(alloc, net)?;
    Ok(number as u32)
}

/// Adds nets, and gives their numbers; or refuses the first that clashes.
fn number_nets<'a>(
    alloc: Global,
    seen: &mut Seen<'a>,
    nets: &[Net<'a>],
) -> Result<Vec<u32>, FlatFault>
    requires few { HasRoom seen.old (map flat.net_name nets.now) }
    ensures ok { OnOk result (seen_all seen.old (map flat.net nets.now) ≡ Ok seen.new) }
    ensures numbers { IfOk result (λ numbers. numbers.items ≡ numbers_in seen.new nets.now) }
    ensures refused { IfErr result (IsFaultOf (seen_all seen.old (map flat.net nets.now))) }
{
    let mut numbers = Vec::with_capacity(alloc, nets.len())?;
    for net in nets {
        numbers.push(number_net(alloc, seen, net)?)?;
    }
    Ok(numbers)
}

/// Adds nets of the top by their names, and gives their numbers; or refuses the first that clashes.
fn number_top_nets<'a>(
    alloc: Global,
    seen: &mut Seen<'a>,
    names: &'a [Name],
) -> Result<Vec<u32>, FlatFault>
    requires few { HasRoom seen.old (map flat.net_name (top_nets names.now)) }
    ensures ok { OnOk result (seen_all seen.old (top_bearers names.now) ≡ Ok seen.new) }
    ensures numbers { IfOk result (λ numbers. numbers.items ≡ numbers_in seen.new (top_nets names.now)) }
    ensures refused { IfErr result (IsFaultOf (seen_all seen.old (top_bearers names.now))) }
{
    let mut numbers = Vec::with_capacity(alloc, names.len())?;
    for name in names {
        let net = Net::of_top(alloc, name);
        numbers.push(number_net(alloc, seen, &net)?)?;
    }
    Ok(numbers)
}

/// Adds a device's nets, and gives their numbers; or refuses the first that clashes.
fn number_places<'a>(
    alloc: Global,
    seen: &mut Seen<'a>,
    device: &FlatDevice<'a>,
) -> Result<Vec<u32>, FlatFault>
    requires few { HasRoom seen.old (map flat.net_name device.now.nets) }
    ensures ok { OnOk result (seen_all seen.old (map flat.net device.now.nets) ≡ Ok seen.new) }
    ensures numbers { IfOk result (λ numbers. numbers.items ≡ numbers_in seen.new device.now.nets) }
    ensures refused { IfErr result (IsFaultOf (seen_all seen.old (map flat.net device.now.nets))) }
{
    match &device.nets {
        None => number_top_nets(alloc, seen, device.card.nodes()),
        Some(nets) => number_nets(alloc, seen, nets),
    }
}

/// Adds a device's name and its nets, and gives the device with its nets by their numbers; or refuses the first that clashes.
fn number_device<'a>(
    alloc: Global,
    seen: &mut Seen<'a>,
    device: &FlatDevice<'a>,
) -> Result<KeptDevice, FlatFault>
    requires few { HasRoom seen.old (map flat.net_name device.now.nets) }
    ensures ok { OnOk result (seen_all seen.old (bearers device.now) ≡ Ok seen.new) }
    ensures device { IfOk result (λ d. d ≡ kept (net_names seen.new) device.now) }
    ensures refused { IfErr result (IsFaultOf (seen_all seen.old (bearers device.now))) }
{
    let name = device_text(alloc, device)?;
    seen.add_device(alloc, &name)?;
    let nets = number_places(alloc, seen, device)?;
    let card = device.card;
    Ok(KeptDevice {
        name,
        letter: card.letter(),
        nets,
        model: option_copy(alloc, card.model())?,
        tail: tail_copy(alloc, card.tail())?,
    })
}

/// Adds the names of devices and their nets, and gives the devices with their nets by their numbers; or refuses the first that
/// clashes.
pub fn number_devices<'a>(
    alloc: Global,
    seen: &mut Seen<'a>,
    devices: &[FlatDevice<'a>],
) -> Result<Vec<KeptDevice>, FlatFault>
    requires few { HasRoom seen.old (flat_map (λ d. map flat.net_name d.nets) devices.now) }
    ensures ok { OnOk result (seen_all seen.old (bearers_of devices.now) ≡ Ok seen.new) }
    ensures devices { IfOk result (λ ds. ds.items ≡ map (kept (net_names seen.new)) devices.now) }
    ensures refused { IfErr result (IsFaultOf (seen_all seen.old (bearers_of devices.now))) }
{
    let mut numbered = Vec::with_capacity(alloc, devices.len())?;
    for device in devices {
        numbered.push(number_device(alloc, seen, device)?)?;
    }
    Ok(numbered)
}
