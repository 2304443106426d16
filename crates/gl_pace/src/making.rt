//! Circuits of many transistors.
ghost use Rattle.std.specs.Prelude.{◌≡◌, ◌≤◌, ◌<◌, length, IfOk};
ghost use Rattle.gl_graph.specs.Built.{count_places};

use gl_graph::{Circuit, Class, Device, NetId, Shape, TypeId};
use gl_match::Memory;
use std::alloc::Global;

/// What a circuit is made of: gates with two inputs each, the inputs being outputs of gates picked as if by
/// chance; or inverters one behind the other, in a ring or in a chain. No two inverters of a chain look
/// alike in the end, nor do those of the ring, one of whose transistors is of another type.
#[derive(Clone, Copy, PartialEq)]
pub enum Plan {
    Gates,
    Ring,
    Chain,
}

/// The most transistors of a circuit.
pub const MOST: u32 = 1_000_000;

/// Drain, gate, source and bulk of a transistor of a gate. Net 0 is the ground and net 1 the supply.
fn gate_nets(dev: u32, count: u32) -> [u32; 4]
    requires dev { dev < count }
    requires few { count ≤ 1000000 }
{
    let gates = u64::from(count / 4 + 1);
    let gate = u64::from(dev / 4);
    let out = dev / 4 * 2 + 2;
    let one = (gate * gate % gates) as u32 * 2 + 2;
    let other = (gate * gate * gate % gates) as u32 * 2 + 2;
    match dev % 4 {
        0 => [out, one, 1, 1],
        1 => [out, other, 1, 1],
        2 => [out, one, out + 1, 0],
        _ => [out + 1, other, 0, 0],
    }
}

/// Drain, gate, source and bulk of a transistor of an inverter.
fn inverter_nets(plan: Plan, dev: u32, count: u32) -> [u32; 4]
    requires dev { dev < count }
    requires few { count ≤ 1000000 }
{
    let stage = dev / 2;
    let next = if plan == Plan::Ring && dev + 2 >= count {
        0
    } else {
        stage + 1
    };
    let rail = 1 - dev % 2;
    [next + 2, stage + 2, rail, rail]
}

/// The type of a transistor: 1 at the supply, 0 at the ground.
fn kind_at(plan: Plan, dev: u32) -> TypeId {
    match plan {
        Plan::Gates => TypeId(1 - dev % 4 / 2),
        Plan::Ring if dev == 0 => TypeId(0),
        _ => TypeId(1 - dev % 2),
    }
}

/// A transistor.
fn device_at(alloc: Global, plan: Plan, dev: u32, count: u32) -> Result<Device, Memory>
    requires dev { dev < count }
    requires few { count ≤ 1000000 }
    ensures places { IfOk result (λ d. length d.nets ≡ 4) }
{
    let given = match plan {
        Plan::Gates => gate_nets(dev, count),
        _ => inverter_nets(plan, dev, count),
    };
    let mut nets = Vec::with_capacity(alloc, 4)?;
    let [drain, gate, source, bulk] = given;
    nets.push(NetId(drain))?;
    nets.push(NetId(gate))?;
    nets.push(NetId(source))?;
    nets.push(NetId(bulk))?;
    Ok(Device {
        kind: kind_at(plan, dev),
        nets,
    })
}

/// All transistors.
fn devices_of(alloc: Global, plan: Plan, count: u32) -> Result<Vec<Device>, Memory>
    requires few { count ≤ 1000000 }
    ensures count { IfOk result (λ v. length v.items ≤ 1000000) }
    ensures places { IfOk result (λ v. count_places v.items ≤ 4000000) }
{
    let mut devices = Vec::new(alloc);
    for dev in 0..count {
        devices.push(device_at(alloc, plan, dev, count)?)?;
    }
    Ok(devices)
}

/// Drain, gate, source and bulk.
fn transistor(alloc: Global) -> Result<Shape, Memory> {
    let classes = vec![in alloc; Class(0), Class(1), Class(0), Class(2)]?;
    Ok(Shape { classes })
}

/// The shapes of two types of transistors.
fn shapes_of(alloc: Global) -> Result<Vec<Shape>, Memory>
    ensures count { IfOk result (λ v. length v.items ≡ 2) }
{
    Ok(vec![in alloc; transistor(alloc)?, transistor(alloc)?]?)
}

/// A circuit of at most a million transistors.
pub fn circuit_of(alloc: Global, plan: Plan, count: u32) -> anyhow::Result<Circuit>
    requires few { count ≤ 1000000 }
{
    let devices = devices_of(alloc, plan, count)?;
    let shapes = shapes_of(alloc)?;
    let rails = vec![in alloc; Some(NetId(0)), Some(NetId(1))]?;
    let nets = count / 2 + 6;
    let pinned = Vec::new(alloc);
    Ok(Circuit::build(alloc, shapes, devices, nets, rails, pinned)?)
}
