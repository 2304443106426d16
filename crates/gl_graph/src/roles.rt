//! The refusals of a pattern: of its devices, its roles, its ports, and that it has no device.
ghost use Rattle.std.specs.Prelude.{◌≡◌, ◌+◌, ◌<◌, ◌^◌, ◌==◌, not, ◌||◌, false, length, take, All, IfOk, slice_index_or};
ghost use Rattle.std.specs.Bool.{OnTrue};
ghost use Rattle.gl_match.specs.Graph.{Circuit as Graph, FitsInto, is_in};
ghost use Rattle.gl_fault.specs.Refusals.{when};
ghost use Rattle.gl_graph.specs.Built.{IsBuiltPattern, pattern_size, pattern_of};
ghost use Rattle.gl_graph.specs.Faults.{first_in, role_fault, is_bad_role, port_fault, is_bad_port, pattern_fault, AnswersBy, Finds};
ghost use Rattle.gl_graph.specs.Kept.{IsTable, IsRoleTable};
ghost use Rattle.gl_graph.specs.declared.fault.BuildFault.TheVariants.{NoDevice};

use crate::checks::check_devices;
use crate::marks::{mark_new, nets_in, nets_on_devices};
use crate::{BuildFault, Device, NetId, Role, Shape};
use std::alloc::Global;

/// Marks the rail of the next net, if it is one, and tells whether the net's role holds.
fn add_role(
    seen: &mut Vec<bool>,
    roles: &[Role],
    ports: &[NetId],
    ported: &[bool],
    net: u32,
) -> bool
    requires net { net < length roles.now }
    requires ported { IsTable (is_in ports.now) (length roles.now) ported.now }
    requires seen { IsRoleTable (take net roles.now) (length seen.old.items) seen.old.items }
    ensures sound { let role = slice_index_or roles.now net Role.Inner in
        result ≡ not (is_bad_role (length seen.old.items) roles.now ports.now net role) }
    ensures seen { let count = length seen.old.items in
        OnTrue result (IsRoleTable (take (net + 1) roles.now) count seen.new.items) }
{
    match roles[net as usize] {
        Role::Port(port) => ports.get(port as usize).is_some_and(|found| found.0 == net),
        Role::Rail(rail) => mark_new(seen, rail as usize),
        Role::Inner => !ported[net as usize],
    }
}

/// Tells whether the next net stands on a device and its role holds.
fn add_net(
    seen: &mut Vec<bool>,
    roles: &[Role],
    ports: &[NetId],
    placed: &[bool],
    ported: &[bool],
    net: u32,
) -> bool
    requires net { net < length roles.now }
    requires placed { length placed.now ≡ length roles.now }
    requires ported { IsTable (is_in ports.now) (length roles.now) ported.now }
    requires seen { IsRoleTable (take net roles.now) (length seen.old.items) seen.old.items }
    ensures sound { let role = slice_index_or roles.now net Role.Inner in
        let is_loose = not (slice_index_or placed.now net false) in
        let seen_rails = length seen.old.items in
        result ≡ not (is_loose || is_bad_role seen_rails roles.now ports.now net role) }
    ensures seen { let count = length seen.old.items in
        OnTrue result (IsRoleTable (take (net + 1) roles.now) count seen.new.items) }
{
    placed[net as usize] && add_role(seen, roles, ports, ported, net)
}

/// Refuses the first net that stands on no device or whose role does not hold.
fn check_roles(
    alloc: Global,
    rails: u32,
    devices: &[Device],
    roles: &[Role],
    ports: &[NetId],
) -> Result<(), BuildFault>
    requires { length roles.now < 2 ^ 32 }
    ensures answer { let given = pattern_of devices.now roles.now ports.now in
        AnswersBy result (λ _. Unit {0}) (first_in (role_fault rails given) 0 roles.now) }
{
    let placed = nets_on_devices(alloc, devices, roles.len()).map_err(|_| BuildFault::Memory)?;
    let ported = nets_in(alloc, ports, roles.len()).map_err(|_| BuildFault::Memory)?;
    let mut seen = vec![in alloc; false; rails as usize].map_err(|_| BuildFault::Memory)?;
    for net in 0..roles.len() as u32 {
        if !add_net(&mut seen, roles, ports, &placed, &ported, net) {
            let net = NetId(net);
            return Err(BuildFault::BadRole { net });
        }
    }
    Ok(())
}

/// Marks the net of the next port, and tells whether it is a net and that of no earlier port.
fn add_port(seen: &mut Vec<bool>, ports: &[NetId], index: usize) -> bool
    requires index { index < length ports.now }
    requires seen { IsTable (is_in (take index ports.now)) (length seen.old.items) seen.old.items }
    ensures sound { let net = slice_index_or ports.now index 0 in
        result ≡ not (is_bad_port (length seen.old.items) ports.now index net) }
    ensures seen { let count = length seen.old.items in
        OnTrue result (IsTable (is_in (take (index + 1) ports.now)) count seen.new.items) }
{
    let net = ports[index];
    mark_new(seen, net.0 as usize)
}

/// Refuses the first port whose net is out of range or is that of an earlier port.
fn check_ports(alloc: Global, nets: usize, ports: &[NetId]) -> Result<(), BuildFault>
    requires { length ports.now < 2 ^ 32 }
    ensures answer { AnswersBy result (λ _. Unit {0})
        (first_in (port_fault nets ports.now) 0 ports.now) }
{
    let mut seen = vec![in alloc; false; nets].map_err(|_| BuildFault::Memory)?;
    for index in 0..ports.len() {
        if !add_port(&mut seen, ports, index) {
            let index = index as u32;
            return Err(BuildFault::BadPort { index });
        }
    }
    Ok(())
}

/// Refuses a pattern without devices. It takes no memory, and never tells of want of it.
fn check_some(devices: &[Device]) -> Result<(), BuildFault>
    ensures first { Finds result (when (length devices.now == 0) NoDevice) }
{
    if devices.is_empty() {
        return Err(BuildFault::NoDevice);
    }
    Ok(())
}

/// Refuses the parts of a pattern by their first fault.
pub fn check_pattern(
    alloc: Global,
    shapes: &[Shape],
    rails: u32,
    devices: &[Device],
    roles: &[Role],
    ports: &[NetId],
) -> Result<(), BuildFault>
    requires size { let given = pattern_of devices.now roles.now ports.now in
        length shapes.now + rails + pattern_size given < 4294967295 }
    requires places { All (λ classes. length classes < 2 ^ 32) shapes.now }
    ensures answer { let given = pattern_of devices.now roles.now ports.now in
        AnswersBy result (λ _. Unit {0}) (pattern_fault shapes.now rails given) }
    ensures built { IfOk result (λ _. IsBuiltPattern (pattern_of devices.now roles.now ports.now)) }
    ensures fits { let given = pattern_of devices.now roles.now ports.now in
        IfOk result
        (λ _. (c : Graph) → c.shapes ≡ shapes.now → length c.rails ≡ rails → FitsInto c given) }
{
    check_devices(shapes, roles.len() as u32, devices)?;
    check_roles(alloc, rails, devices, roles, ports)?;
    check_ports(alloc, roles.len(), ports)?;
    check_some(devices)?;
    Ok(())
}
