ghost use Rattle.std.specs.Prelude.{◌≡◌, ◌<◌, ◌^◌, map, flat_map, option_map};
ghost use Rattle.gl_text.specs.LogicalLines.{long_flat_name};
ghost use Rattle.gl_text.specs.Flattening.{bearers, net, top_net, long_in};
ghost use Rattle.gl_flat.specs.LongNames.{AreCountable, long_length};

use crate::Name;
use crate::device::FlatDevice;
use crate::length::{device_length, net_length};
use crate::net::Net;

/// The most bytes that a flat name may have.
const NAME: usize = 1024;

/// A length, if a flat name of it is too long.
fn too_long(len: usize) -> Option<u32>
    requires short { len < 2 ^ 32 }
    ensures long { option_map long_flat_name result ≡ long_length len }
{
    if len > NAME {
        return Some(len as u32);
    }
    None
}

/// The length of the first net's flat name that is too long.
fn long_net(nets: &[Net<'_>]) -> Option<u32>
    requires short { AreCountable (map net nets.now) }
    ensures long { option_map long_flat_name result ≡ long_in (map net nets.now) }
{
    let mut rest = nets;
    while let [net, behind @ ..] = rest {
        if let Some(len) = too_long(net_length(net)) {
            return Some(len);
        }
        rest = behind;
    }
    None
}

/// The length of the first name of a net of the top that is too long.
fn long_top(names: &[Name]) -> Option<u32>
    requires short { AreCountable (map net (map top_net names.now)) }
    ensures long { option_map long_flat_name result ≡ long_in (map net (map top_net names.now)) }
{
    let mut rest = names;
    while let [name, behind @ ..] = rest {
        if let Some(len) = too_long(name.as_bytes().len()) {
            return Some(len);
        }
        rest = behind;
    }
    None
}

/// The length of the first flat name of a device's nets that is too long.
fn long_place(device: &FlatDevice<'_>) -> Option<u32>
    requires short { AreCountable (map net device.now.nets) }
    ensures long { option_map long_flat_name result ≡ long_in (map net device.now.nets) }
{
    match &device.nets {
        None => long_top(device.card.nodes()),
        Some(nets) => long_net(nets),
    }
}

/// The length of the first flat name of a device and its nets that is too long.
fn long_of(device: &FlatDevice<'_>) -> Option<u32>
    requires short { AreCountable (bearers device.now) }
    ensures long { option_map long_flat_name result ≡ long_in (bearers device.now) }
{
    match too_long(device_length(device)) {
        Some(len) => Some(len),
        None => long_place(device),
    }
}

/// The length of the first flat name that is too long, by device and its own name before those of its nets.
pub fn first_long(devices: &[FlatDevice<'_>]) -> Option<u32>
    requires short { AreCountable (flat_map bearers devices.now) }
    ensures long { option_map long_flat_name result ≡ long_in (flat_map bearers devices.now) }
{
    let mut rest = devices;
    while let [device, behind @ ..] = rest {
        if let Some(len) = long_of(device) {
            return Some(len);
        }
        rest = behind;
    }
    None
}
