//! Refusals and answers of circuits and patterns, against values worked out by hand.
ghost use Rattle.std.specs.Prelude.{◌≡◌, IfOk};

use gl_graph::{Circuit, DevId, NetId, Pattern, Role, TypeId};
use gl_listings::made::{M, R, devices_of, nets_of, shapes_of};
use std::alloc::Global;
use std::process::Abort;
use std::test::Fail;

/// Seven exchangeable places, which have 5,040 turns.
const WIDE: [u8; 7] = [0, 0, 0, 0, 0, 0, 0];

/// Sixty-five places.
const LONG: [u8; 65] = [7; 65];

/// What is to be a circuit over four nets.
struct CircuitRow {
    name: &'static str,
    shapes: &'static [&'static [u8]],
    devices: &'static [(u32, &'static [u32])],
    rails: &'static [Option<u32>],
    pinned: &'static [u32],
    wanted: &'static str,
}

/// What comes of it, as a line.
fn circuit_line(rt: &impl Abort, alloc: Global, row: &CircuitRow) -> Result<String, Fail> {
    let shapes = shapes_of(alloc, row.shapes)?;
    let devices = devices_of(alloc, row.devices)?;
    let mut rails = Vec::new(alloc);
    for rail in row.rails {
        rails.push(rail.map(|net| NetId(net)))?;
    }
    let pinned = nets_of(alloc, row.pinned)?;
    assert!(rt; shapes.len() <= 8 && rails.len() <= 8 && pinned.len() <= 8);
    match Circuit::build(alloc, shapes, devices, 4, rails, pinned) {
        Ok(circuit) => Ok(format!(in alloc; "{} devices", circuit.devices())?),
        Err(fault) => Ok(format!(in alloc; "{fault}")?),
    }
}

const CIRCUITS: [CircuitRow; 10] = [
    CircuitRow {
        name: "sound",
        shapes: &[&M],
        devices: &[(0, &[0, 1, 2, 3])],
        rails: &[None, Some(3)],
        pinned: &[0, 0],
        wanted: "1 devices",
    },
    CircuitRow {
        name: "kind",
        shapes: &[&M],
        devices: &[(5, &[0, 1, 2, 3])],
        rails: &[None, Some(3)],
        pinned: &[0, 0],
        wanted: "2 BadType device=0",
    },
    CircuitRow {
        name: "length",
        shapes: &[&M],
        devices: &[(0, &[0, 1, 2])],
        rails: &[None, Some(3)],
        pinned: &[0, 0],
        wanted: "3 BadLength device=0 has=3 needs=4",
    },
    CircuitRow {
        name: "net",
        shapes: &[&M],
        devices: &[(0, &[0, 1, 9, 3])],
        rails: &[None, Some(3)],
        pinned: &[0, 0],
        wanted: "1 BadNet device=0 place=2",
    },
    CircuitRow {
        name: "device by device",
        shapes: &[&M],
        devices: &[(0, &[0, 1, 4, 4]), (5, &[])],
        rails: &[Some(4)],
        pinned: &[0, 0],
        wanted: "1 BadNet device=0 place=2",
    },
    CircuitRow {
        name: "turns",
        shapes: &[&R, &WIDE],
        devices: &[(5, &[])],
        rails: &[None, Some(3)],
        pinned: &[0, 0],
        wanted: "4 BadShape kind=1",
    },
    CircuitRow {
        name: "places",
        shapes: &[&LONG],
        devices: &[(0, &[0, 1, 2, 3])],
        rails: &[None, Some(3)],
        pinned: &[0, 0],
        wanted: "4 BadShape kind=0",
    },
    CircuitRow {
        name: "rail out of range",
        shapes: &[&M],
        devices: &[(0, &[0, 1, 2, 3])],
        rails: &[Some(4)],
        pinned: &[9],
        wanted: "5 BadRail rail=0",
    },
    CircuitRow {
        name: "rail twice",
        shapes: &[&M],
        devices: &[(0, &[0, 1, 2, 3])],
        rails: &[Some(1), None, Some(1)],
        pinned: &[0, 0],
        wanted: "5 BadRail rail=2",
    },
    CircuitRow {
        name: "pin",
        shapes: &[&M],
        devices: &[(0, &[0, 1, 2, 3])],
        rails: &[None, Some(3)],
        pinned: &[3, 4],
        wanted: "6 BadPin index=1",
    },
];

#[test]
fn circuits_are_refused(rt: HostRuntime) -> Result<(), Fail> {
    for row in &CIRCUITS {
        let line = circuit_line(&rt, rt.alloc(), row)?;
        assert_eq!(rt; line.as_str(), row.wanted, "{}", row.name);
    }
    Ok(())
}

/// What is to be a pattern of transistors for two rails.
struct PatternRow {
    name: &'static str,
    devices: &'static [(u32, &'static [u32])],
    roles: &'static [Role],
    ports: &'static [u32],
    wanted: &'static str,
}

/// What comes of it, as a line.
fn pattern_line(rt: &impl Abort, alloc: Global, row: &PatternRow) -> Result<String, Fail> {
    let shapes = shapes_of(alloc, &[&M])?;
    assert!(rt; shapes.len() == 1 && shapes[0].classes().len() == 4);
    let devices = devices_of(alloc, row.devices)?;
    let roles = Vec::from_slice(alloc, row.roles)?;
    let ports = nets_of(alloc, row.ports)?;
    assert!(rt; roles.len() <= 8 && ports.len() <= 8);
    match Pattern::build(alloc, &shapes, 2, devices, roles, ports) {
        Ok(pattern) => Ok(format!(in alloc; "{} devices", pattern.devices())?),
        Err(fault) => Ok(format!(in alloc; "{fault}")?),
    }
}

const PATTERNS: [PatternRow; 13] = [
    PatternRow {
        name: "sound",
        devices: &[(0, &[0, 1, 2, 3])],
        roles: &[Role::Port(1), Role::Rail(1), Role::Inner, Role::Port(0)],
        ports: &[3, 0],
        wanted: "1 devices",
    },
    PatternRow {
        name: "kind",
        devices: &[(1, &[])],
        roles: &[Role::Port(1), Role::Rail(1), Role::Inner, Role::Port(0)],
        ports: &[3, 0],
        wanted: "2 BadType device=0",
    },
    PatternRow {
        name: "length",
        devices: &[(0, &[])],
        roles: &[Role::Port(1), Role::Rail(1), Role::Inner, Role::Port(0)],
        ports: &[3, 0],
        wanted: "3 BadLength device=0 has=0 needs=4",
    },
    PatternRow {
        name: "net",
        devices: &[(0, &[0, 1, 2, 4])],
        roles: &[Role::Port(1), Role::Rail(1), Role::Inner, Role::Port(0)],
        ports: &[3, 0],
        wanted: "1 BadNet device=0 place=3",
    },
    PatternRow {
        name: "loose net",
        devices: &[(0, &[0, 1, 1, 3])],
        roles: &[Role::Port(1), Role::Rail(1), Role::Inner, Role::Port(0)],
        ports: &[3, 0],
        wanted: "7 BadRole net=2",
    },
    PatternRow {
        name: "no such rail",
        devices: &[(0, &[0, 1, 2, 3])],
        roles: &[Role::Port(1), Role::Rail(2), Role::Inner, Role::Port(0)],
        ports: &[3, 0],
        wanted: "7 BadRole net=1",
    },
    PatternRow {
        name: "rail twice",
        devices: &[(0, &[0, 1, 2, 3])],
        roles: &[Role::Rail(0), Role::Rail(1), Role::Rail(0), Role::Port(0)],
        ports: &[3, 0],
        wanted: "7 BadRole net=2",
    },
    PatternRow {
        name: "another port",
        devices: &[(0, &[0, 1, 2, 3])],
        roles: &[Role::Port(0), Role::Rail(1), Role::Inner, Role::Port(1)],
        ports: &[3, 0],
        wanted: "7 BadRole net=0",
    },
    PatternRow {
        name: "inner port",
        devices: &[(0, &[0, 1, 2, 3])],
        roles: &[Role::Port(1), Role::Rail(1), Role::Inner, Role::Port(0)],
        ports: &[3, 0, 2],
        wanted: "7 BadRole net=2",
    },
    PatternRow {
        name: "rail as a port",
        devices: &[(0, &[0, 1, 2, 3])],
        roles: &[Role::Port(1), Role::Rail(1), Role::Inner, Role::Port(0)],
        ports: &[3, 0, 1],
        wanted: "1 devices",
    },
    PatternRow {
        name: "port twice",
        devices: &[(0, &[0, 1, 2, 3])],
        roles: &[Role::Port(1), Role::Rail(1), Role::Inner, Role::Port(0)],
        ports: &[3, 0, 1, 0],
        wanted: "8 BadPort index=3",
    },
    PatternRow {
        name: "port out of range",
        devices: &[(0, &[0, 1, 2, 3])],
        roles: &[Role::Port(1), Role::Rail(1), Role::Inner, Role::Port(0)],
        ports: &[3, 0, 4],
        wanted: "8 BadPort index=2",
    },
    PatternRow {
        name: "nothing",
        devices: &[],
        roles: &[],
        ports: &[],
        wanted: "9 NoDevice",
    },
];

#[test]
fn patterns_are_refused(rt: HostRuntime) -> Result<(), Fail> {
    for row in &PATTERNS {
        let line = pattern_line(&rt, rt.alloc(), row)?;
        assert_eq!(rt; line.as_str(), row.wanted, "{}", row.name);
    }
    Ok(())
}

/// Two transistors in a chain between net 3 and net 0, and a resistor across both ends of the chain.
fn chain(rt: &impl Abort, alloc: Global) -> Result<Circuit, Fail>
    ensures nets { IfOk result (λ c. c.nets ≡ 5) }
{
    let shapes = shapes_of(alloc, &[&M, &R])?;
    let devices = devices_of(
        alloc,
        &[(0, &[3, 1, 2, 2]), (1, &[0, 3]), (0, &[2, 4, 0, 2])],
    )?;
    let mut rails = Vec::new(alloc);
    rails.push(None)?;
    rails.push(Some(NetId(3)))?;
    let pinned = nets_of(alloc, &[4])?;
    assert!(rt; shapes.len() == 2 && pinned.len() == 1);
    match Circuit::build(alloc, shapes, devices, 5, rails, pinned) {
        Ok(circuit) => Ok(circuit),
        Err(_) => Err(Fail::from("refused")),
    }
}

#[test]
fn circuits_answer(rt: HostRuntime) -> Result<(), Fail> {
    let c = chain(&rt, rt.alloc())?;
    let tied: &[(DevId, u8)] = &[(DevId(0), 2), (DevId(0), 3), (DevId(2), 0), (DevId(2), 3)];
    assert_eq!(rt; c.at(NetId(2)), tied);
    assert_eq!(rt; c.degree(NetId(2)), 4);
    assert!(rt; c.is_pinned(NetId(4)) && !c.is_pinned(NetId(3)));
    assert!(rt; c.is_rail_net(NetId(3)) && !c.is_rail_net(NetId(4)));
    assert!(rt; c.devices() == 3 && c.rails() == 2);
    assert_eq!(rt; c.rail(0), None);
    assert_eq!(rt; c.rail(1), Some(NetId(3)));
    assert_eq!(rt; c.device(DevId(1)).nets().len(), 2);
    Ok(())
}

#[test]
fn types_answer(rt: HostRuntime) -> Result<(), Fail> {
    let c = chain(&rt, rt.alloc())?;
    assert!(rt; c.kinds() == 2);
    assert_eq!(rt; c.devices_of(TypeId(0)), [DevId(0), DevId(2)].as_slice());
    assert!(rt; c.turns(TypeId(0)) == 2);
    assert!(rt; c.shape(TypeId(0)).classes().len() == 4);
    assert_eq!(rt; c.turn(TypeId(0), 0), [0, 1, 2, 3].as_slice());
    assert_eq!(rt; c.turn(TypeId(0), 1), [2, 1, 0, 3].as_slice());
    assert_eq!(rt; c.turned(TypeId(0), 1, 2), 0);
    Ok(())
}

#[test]
fn patterns_answer(rt: HostRuntime) -> Result<(), Fail> {
    let alloc = rt.alloc();
    let shapes = shapes_of(alloc, &[&R])?;
    assert!(rt; shapes.len() == 1 && shapes[0].classes().len() == 2);
    let devices = devices_of(alloc, &[(0, &[0, 1]), (0, &[2, 1])])?;
    let roles = vec![in alloc; Role::Port(0), Role::Inner, Role::Rail(1)]?;
    let ports = nets_of(alloc, &[0])?;
    assert!(rt; ports.len() == 1);
    let p = Pattern::build(alloc, &shapes, 2, devices, roles, ports)?;
    assert!(rt; p.devices() == 2 && p.nets() == 3);
    assert_eq!(rt; p.device(1).nets(), [NetId(2), NetId(1)].as_slice());
    assert_eq!(rt; p.device(1).kind(), TypeId(0));
    assert_eq!(rt;
        (p.role(NetId(0)), p.role(NetId(1)), p.role(NetId(2))),
        (Role::Port(0), Role::Inner, Role::Rail(1))
    );
    assert_eq!(rt; p.ports(), [NetId(0)].as_slice());
    Ok(())
}
