ghost use Rattle.std.specs.Prelude.{◌≡◌, map, All, IfOk};
ghost use Rattle.indexmap.specs.IndexMap.{get};
ghost use Rattle.gl_text.specs.LogicalLines.{same_text};
ghost use Rattle.gl_base.specs.TypeNames.{type_by};
ghost use Rattle.gl_base.specs.BaseCircuit.{net_number};
ghost use Rattle.gl_lib.specs.Numbered.{AreNets, IsAmongTypes};
ghost use Rattle.gl_lib.specs.Sources.{device_of_flat};

use crate::kinds::Kinds;
use crate::words::{Words, flat_type};
use gl_card::Name;
use gl_flat::{KeptDevice, Names};
use gl_graph::{Device, NetId};
use std::alloc::{AllocError, Global};

/// The numbers of names that are among the nets.
pub fn numbers_of(alloc: Global, nets: &Names, names: &[Name]) -> Result<Vec<NetId>, AllocError>
    requires { AreNets nets.now names.now }
    ensures numbers { IfOk result (λ numbers. numbers.items ≡ map (net_number nets.now) names.now) }
{
    let mut numbers = Vec::with_capacity(alloc, names.len())?;
    for name in names {
        numbers.push(NetId(nets.number(name)))?;
    }
    Ok(numbers)
}

/// A flat device as a device.
fn flat_device(
    alloc: Global,
    words: &Words,
    kinds: &Kinds,
    device: &KeptDevice,
) -> Result<Device, AllocError>
    requires { IsAmongTypes (type_by (get same_text words.now)) kinds.now device.now }
    ensures device { IfOk result (λ made. made ≡ device_of_flat (type_by (get same_text words.now)) kinds.now device.now) }
{
    let kind = kinds.number(&flat_type(alloc, words, device)?);
    let nets = device.nets().iter().map(|net| NetId(*net)).collect(alloc)?;
    Ok(Device { kind, nets })
}

/// Flat devices as devices, in their order.
pub fn flat_devices(
    alloc: Global,
    words: &Words,
    kinds: &Kinds,
    flat: &[KeptDevice],
) -> Result<Vec<Device>, AllocError>
    requires { All (IsAmongTypes (type_by (get same_text words.now)) kinds.now) flat.now }
    ensures devices { IfOk result (λ devices. devices.items ≡ map (device_of_flat (type_by (get same_text words.now)) kinds.now) flat.now) }
{
    let mut devices = Vec::with_capacity(alloc, flat.len())?;
    for device in flat {
        devices.push(flat_device(alloc, words, kinds, device)?)?;
    }
    Ok(devices)
}
