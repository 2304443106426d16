//! A circuit of other devices.
ghost use Rattle.std.specs.Prelude.{◌≡◌, ◌+◌, length, nat_lt, None, IfOk};
ghost use Rattle.gl_graph.specs.Built.{count_places};
ghost use Rattle.gl_graph.specs.Faults.{circuit_fault};

use gl_graph::{BuildFault, Circuit, Device, NetId, Shape, TypeId};
use gl_match::Memory;
use std::alloc::Global;

/// How many parts a circuit may have.
const MOST_PARTS: u64 = 4_294_967_294;

/// The shapes of a circuit's types, copied.
fn shapes_of(alloc: Global, circuit: &Circuit) -> Result<Vec<Shape>, Memory>
    ensures shapes { IfOk result (λ shapes. shapes.items ≡ circuit.now.shapes) }
{
    let mut shapes = Vec::with_capacity(alloc, circuit.kinds() as usize)?;
    for kind in 0..circuit.kinds() {
        let classes = circuit.shape(TypeId(kind)).classes().to_vec(alloc)?;
        shapes.push(Shape { classes })?;
    }
    Ok(shapes)
}

/// The rails of a circuit, copied.
fn rails_of(alloc: Global, circuit: &Circuit) -> Result<Vec<Option<NetId>>, Memory>
    ensures rails { IfOk result (λ rails. rails.items ≡ circuit.now.rails) }
{
    let mut rails = Vec::with_capacity(alloc, circuit.rails() as usize)?;
    for rail in 0..circuit.rails() {
        rails.push(circuit.rail(rail))?;
    }
    Ok(rails)
}

/// Whether so many parts and the devices with their places are few enough.
fn has_room(parts: u64, devices: &[Device]) -> bool
    ensures room { result
        ≡ nat_lt (parts + length devices.now + count_places devices.now) 4294967295 }
{
    let Some(parts) = parts.checked_add(devices.len() as u64) else {
        return false;
    };
    let Some(mut left) = MOST_PARTS.checked_sub(parts) else {
        return false;
    };
    for device in devices {
        let Some(less) = left.checked_sub(device.nets().len() as u64) else {
            return false;
        };
        left = less;
    }
    true
}

/// The one fault of what nothing else refuses.
fn want_of_memory(fault: BuildFault) -> Memory
    requires { fault ≡ BuildFault.Memory }
{
    match fault {
        BuildFault::Memory => Memory,
        _ => unreachable!(),
    }
}

/// The circuit with other devices: types, nets, rails and pinned nets stay. Where there are more parts than numbers, which no memory holds, it
/// answers as for want of memory.
pub fn with_devices(
    alloc: Global,
    circuit: &Circuit,
    pinned: &[NetId],
    devices: Vec<Device>,
) -> Result<Circuit, Memory>
    requires pinned { pinned.now ≡ circuit.now.pinned }
    requires sound { circuit_fault (record (circuit.now) { devices = devices.items }) ≡ None }
    ensures circuit { IfOk result (λ c. c ≡ record (circuit.now) { devices = devices.items }) }
{
    let shapes = shapes_of(alloc, circuit)?;
    let rails = rails_of(alloc, circuit)?;
    let pins = pinned.to_vec(alloc)?;
    let nets = circuit.nets();
    let parts = shapes.len() as u64 + u64::from(nets) + rails.len() as u64 + pins.len() as u64;
    if !has_room(parts, &devices) {
        return Err(Memory);
    }
    match Circuit::build(alloc, shapes, devices, nets, rails, pins) {
        Ok(circuit) => Ok(circuit),
        Err(fault) => Err(want_of_memory(fault)),
    }
}
