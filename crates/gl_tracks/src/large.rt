//! Cells over circuits of many resistors.
use crate::made::{CellRow, cell_of, circuit_over, course_line, resistors};
use gl_graph::{Circuit, Role};
use std::alloc::Global;
use std::process::Abort;
use std::test::Fail;

/// Two resistors in a row, with an inner net between them.
const PAIR: CellRow = CellRow {
    devices: &[(2, &[0, 1]), (2, &[1, 2])],
    roles: &[Role::Port(0), Role::Inner, Role::Port(1)],
    ports: &[0, 2],
};

/// Nineteen resistors in a row, with 18 inner nets.
const CHAIN: CellRow = CellRow {
    devices: &[
        (2, &[0, 1]),
        (2, &[1, 2]),
        (2, &[2, 3]),
        (2, &[3, 4]),
        (2, &[4, 5]),
        (2, &[5, 6]),
        (2, &[6, 7]),
        (2, &[7, 8]),
        (2, &[8, 9]),
        (2, &[9, 10]),
        (2, &[10, 11]),
        (2, &[11, 12]),
        (2, &[12, 13]),
        (2, &[13, 14]),
        (2, &[14, 15]),
        (2, &[15, 16]),
        (2, &[16, 17]),
        (2, &[17, 18]),
        (2, &[18, 19]),
    ],
    roles: &[
        Role::Port(0),
        Role::Inner,
        Role::Inner,
        Role::Inner,
        Role::Inner,
        Role::Inner,
        Role::Inner,
        Role::Inner,
        Role::Inner,
        Role::Inner,
        Role::Inner,
        Role::Inner,
        Role::Inner,
        Role::Inner,
        Role::Inner,
        Role::Inner,
        Role::Inner,
        Role::Inner,
        Role::Inner,
        Role::Port(1),
    ],
    ports: &[0, 19],
};

/// A circuit of resistors, over two rails that are no nets.
fn over(rt: &impl Abort, alloc: Global, ends: &[(u32, u32)], nets: u32) -> Result<Circuit, Fail> {
    let devices = resistors(rt, alloc, ends)?;
    circuit_over(rt, alloc, devices, nets, &[None, None], &[])
}

/// The line of a cell in such a circuit must be the wanted one.
fn try_cell(
    rt: &impl Abort,
    alloc: Global,
    c: &Circuit,
    cell: &CellRow,
    wanted: &str,
) -> Result<(), Fail> {
    let p = cell_of(rt, alloc, cell)?;
    let line = course_line(rt, alloc, c, &p)?;
    assert!(rt; line.as_str() == wanted, "{line}");
    Ok(())
}

#[test]
fn a_chain_of_19_whose_key_needs_depth_16(rt: HostRuntime) -> Result<(), Fail> {
    let alloc = rt.alloc();
    let mut ends = Vec::new(alloc);
    for i in 0..19u32 {
        ends.push((i, i + 1))?;
    }
    let c = over(&rt, alloc, &ends, 20)?;
    try_cell(
        &rt,
        alloc,
        &c,
        &CHAIN,
        "key net:9 depth 16 candidates 2 plan 8 7 6 5 4 3 2 1 0 9 10 11 12 13 14 15 16 17 18 first 8 9 10 classes 3 4 5 6 7 8 9 10 11 12 13 14 15 16 17 18 19",
    )
}

#[test]
fn a_ring_whose_labels_do_not_settle(rt: HostRuntime) -> Result<(), Fail> {
    let alloc = rt.alloc();
    let mut ends = Vec::new(alloc);
    for i in 0..40u32 {
        ends.push((i, (i + 1) % 40))?;
    }
    ends.push((0, 40))?;
    let c = over(&rt, alloc, &ends, 41)?;
    try_cell(
        &rt,
        alloc,
        &c,
        &CHAIN,
        "key net:9 depth 16 candidates 23 plan 8 7 6 5 4 3 2 1 0 9 10 11 12 13 14 15 16 17 18 first 8 9 10 11 12 13 14 15 16 17 18 19 20 21 22 23 24 25 26 27 28 29 30 31 classes 4 6 7 8 9 10 11 12 13 14 15 16 17 18 19 20 21",
    )
}

#[test]
fn a_net_with_10_000_places(rt: HostRuntime) -> Result<(), Fail> {
    let alloc = rt.alloc();
    let mut ends = Vec::new(alloc);
    for i in 0..10000u32 {
        ends.push((0, i + 1))?;
    }
    ends.push((10001, 10002))?;
    ends.push((10002, 10003))?;
    let c = over(&rt, alloc, &ends, 10004)?;
    try_cell(
        &rt,
        alloc,
        &c,
        &PAIR,
        "key net:1 depth 0 candidates 1 plan 0 1 first 10000 10001 classes 4 5",
    )
}
