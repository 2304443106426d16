//! Cells over small circuits.
use crate::made::{CellRow, CircuitRow, cell_of, circuit_of, course_line};
use gl_graph::Role;
use std::alloc::Global;
use std::process::Abort;
use std::test::Fail;

/// A circuit, a cell, and the key, the plan and the first devices that are wanted, with the number of
/// different labels at each depth.
#[derive(Clone, Copy)]
struct Row {
    name: &'static str,
    circuit: CircuitRow,
    cell: CellRow,
    wanted: &'static str,
}

const BUFFER: CellRow = CellRow {
    devices: &[
        (1, &[0, 1, 3, 3]),
        (0, &[0, 1, 4, 4]),
        (1, &[2, 0, 3, 3]),
        (0, &[2, 0, 4, 4]),
    ],
    roles: &[
        Role::Inner,
        Role::Port(0),
        Role::Port(1),
        Role::Rail(1),
        Role::Rail(0),
    ],
    ports: &[1, 2],
};

const NAND: CellRow = CellRow {
    devices: &[
        (1, &[5, 2, 0, 0]),
        (1, &[5, 3, 0, 0]),
        (0, &[5, 2, 4, 1]),
        (0, &[4, 3, 1, 1]),
    ],
    roles: &[
        Role::Rail(1),
        Role::Rail(0),
        Role::Port(0),
        Role::Port(1),
        Role::Inner,
        Role::Port(2),
    ],
    ports: &[2, 3, 5],
};

const NOR: CellRow = CellRow {
    devices: &[
        (1, &[4, 2, 0, 0]),
        (1, &[5, 3, 4, 0]),
        (0, &[5, 2, 1, 1]),
        (0, &[5, 3, 1, 1]),
    ],
    roles: &[
        Role::Rail(1),
        Role::Rail(0),
        Role::Port(0),
        Role::Port(1),
        Role::Inner,
        Role::Port(2),
    ],
    ports: &[2, 3, 5],
};

const INVERTER: CellRow = CellRow {
    devices: &[(1, &[1, 0, 2, 2]), (0, &[1, 0, 3, 3])],
    roles: &[Role::Port(0), Role::Port(1), Role::Rail(1), Role::Rail(0)],
    ports: &[0, 1],
};

/// Four inverters in a chain, over two rails.
const CHAIN: CircuitRow = CircuitRow {
    devices: &[
        (1, &[3, 2, 0, 0]),
        (0, &[3, 2, 1, 1]),
        (1, &[4, 3, 0, 0]),
        (0, &[4, 3, 1, 1]),
        (1, &[5, 4, 0, 0]),
        (0, &[5, 4, 1, 1]),
        (1, &[6, 5, 0, 0]),
        (0, &[6, 5, 1, 1]),
    ],
    nets: 7,
    rails: &[Some(1), Some(0)],
    pinned: &[],
};

const BUFFER_ROW: Row = Row {
    name: "a buffer over four inverters, and a tie of two depths",
    circuit: CHAIN,
    cell: BUFFER,
    wanted: "key net:0 depth 0 candidates 3 plan 0 1 2 3 first 0 2 4 classes 6 11",
};

const PINNED_ROW: Row = Row {
    name: "a buffer over four inverters, the second net pinned",
    circuit: CircuitRow {
        devices: &[
            (1, &[3, 2, 0, 0]),
            (0, &[3, 2, 1, 1]),
            (1, &[4, 3, 0, 0]),
            (0, &[4, 3, 1, 1]),
            (1, &[5, 4, 0, 0]),
            (0, &[5, 4, 1, 1]),
            (1, &[6, 5, 0, 0]),
            (0, &[6, 5, 1, 1]),
        ],
        nets: 7,
        rails: &[Some(1), Some(0)],
        pinned: &[4],
    },
    cell: BUFFER,
    wanted: "key net:0 depth 0 candidates 2 plan 0 1 2 3 first 0 4 classes 7 14",
};

const NAND_ROW: Row = Row {
    name: "a nand",
    circuit: CircuitRow {
        devices: &[
            (1, &[5, 2, 0, 0]),
            (1, &[5, 3, 0, 0]),
            (0, &[5, 2, 4, 1]),
            (0, &[4, 3, 1, 1]),
        ],
        nets: 6,
        rails: &[Some(1), Some(0)],
        pinned: &[],
    },
    cell: NAND,
    wanted: "key net:4 depth 1 candidates 1 plan 2 0 1 3 first 2 3 classes 6 8",
};

const LOADED_ROW: Row = Row {
    name: "a nand whose inner net has a load",
    circuit: CircuitRow {
        devices: &[
            (1, &[5, 2, 0, 0]),
            (1, &[5, 3, 0, 0]),
            (0, &[5, 2, 4, 1]),
            (0, &[4, 3, 1, 1]),
            (2, &[4, 6]),
        ],
        nets: 7,
        rails: &[Some(1), Some(0)],
        pinned: &[],
    },
    cell: NAND,
    wanted: "key net:4 depth 1 candidates 0 plan 2 0 1 3 first classes 8 10",
};

const NAND_AWAY_ROW: Row = Row {
    name: "a nand where there are inverters alone",
    circuit: CHAIN,
    cell: NAND,
    wanted: "key net:4 depth 1 candidates 0 plan 2 0 1 3 first classes 6 11",
};

const NOR_AWAY_ROW: Row = Row {
    name: "a nor where there are inverters alone",
    circuit: CHAIN,
    cell: NOR,
    wanted: "key net:4 depth 1 candidates 0 plan 0 1 2 3 first classes 6 11",
};

const SPOILED_ROW: Row = Row {
    name: "every vertex is spoiled at depth 1, and types differ in number",
    circuit: CircuitRow {
        devices: &[
            (1, &[3, 2, 0, 0]),
            (0, &[3, 2, 1, 1]),
            (1, &[4, 3, 0, 0]),
            (0, &[4, 3, 1, 1]),
            (1, &[5, 4, 0, 0]),
            (0, &[5, 4, 1, 1]),
            (1, &[6, 5, 0, 0]),
            (0, &[6, 5, 1, 1]),
            (1, &[2, 6, 0, 0]),
        ],
        nets: 7,
        rails: &[Some(1), Some(0)],
        pinned: &[],
    },
    cell: INVERTER,
    wanted: "key dev:1 depth 0 candidates 4 plan 1 0 first 1 3 5 7 classes 6",
};

const DEVICE_OR_NET_ROW: Row = Row {
    name: "a tie of device and net",
    circuit: CircuitRow {
        devices: &[
            (2, &[0, 1]),
            (0, &[1, 2, 3, 4]),
            (2, &[5, 6]),
            (0, &[6, 7, 8, 9]),
            (2, &[10, 11]),
        ],
        nets: 12,
        rails: &[None, None],
        pinned: &[],
    },
    cell: CellRow {
        devices: &[(2, &[0, 1]), (0, &[1, 2, 3, 4])],
        roles: &[
            Role::Port(0),
            Role::Inner,
            Role::Port(1),
            Role::Port(2),
            Role::Port(3),
        ],
        ports: &[0, 2, 3, 4],
    },
    wanted: "key dev:1 depth 0 candidates 2 plan 1 0 first 1 3 classes 4 8",
};

const DEVICES_ROW: Row = Row {
    name: "a tie of two devices",
    circuit: CHAIN,
    cell: INVERTER,
    wanted: "key dev:0 depth 0 candidates 4 plan 0 1 first 0 2 4 6 classes 6",
};

const NETS_ROW: Row = Row {
    name: "a tie of two nets",
    circuit: CircuitRow {
        devices: &[
            (1, &[3, 2, 0, 0]),
            (0, &[3, 2, 1, 1]),
            (1, &[4, 3, 0, 0]),
            (0, &[4, 3, 1, 1]),
            (1, &[5, 2, 0, 0]),
            (0, &[5, 2, 1, 1]),
            (1, &[6, 5, 0, 0]),
            (0, &[6, 5, 1, 1]),
        ],
        nets: 7,
        rails: &[Some(1), Some(0)],
        pinned: &[],
    },
    cell: CellRow {
        devices: &[
            (1, &[1, 3, 5, 5]),
            (0, &[1, 3, 6, 6]),
            (1, &[0, 1, 5, 5]),
            (0, &[0, 1, 6, 6]),
            (1, &[2, 3, 5, 5]),
            (0, &[2, 3, 6, 6]),
            (1, &[4, 2, 5, 5]),
            (0, &[4, 2, 6, 6]),
        ],
        roles: &[
            Role::Port(0),
            Role::Inner,
            Role::Inner,
            Role::Port(1),
            Role::Port(2),
            Role::Rail(1),
            Role::Rail(0),
        ],
        ports: &[0, 3, 4],
    },
    wanted: "key net:1 depth 1 candidates 2 plan 0 1 2 3 4 5 6 7 first 0 4 classes 6 9",
};

const CLASSES_ROW: Row = Row {
    name: "equal degrees with other classes",
    circuit: CircuitRow {
        devices: &[(0, &[2, 3, 4, 1]), (0, &[2, 3, 5, 1])],
        nets: 6,
        rails: &[Some(1), Some(0)],
        pinned: &[],
    },
    cell: CellRow {
        devices: &[(0, &[0, 1, 2, 5]), (0, &[0, 3, 4, 5])],
        roles: &[
            Role::Inner,
            Role::Port(0),
            Role::Port(1),
            Role::Port(2),
            Role::Port(3),
            Role::Rail(0),
        ],
        ports: &[1, 2, 3, 4],
    },
    wanted: "key net:0 depth 1 candidates 1 plan 0 1 first 0 1 classes 5 6",
};

const LATCH_ROW: Row = Row {
    name: "rails and inner nets alone",
    circuit: CircuitRow {
        devices: &[
            (1, &[3, 2, 0, 0]),
            (0, &[3, 2, 1, 1]),
            (1, &[4, 3, 0, 0]),
            (0, &[4, 3, 1, 1]),
            (1, &[5, 4, 0, 0]),
            (0, &[5, 4, 1, 1]),
            (1, &[6, 5, 0, 0]),
            (0, &[6, 5, 1, 1]),
            (1, &[7, 6, 0, 0]),
            (0, &[7, 6, 1, 1]),
            (1, &[8, 7, 0, 0]),
            (0, &[8, 7, 1, 1]),
            (1, &[9, 8, 0, 0]),
            (0, &[9, 8, 1, 1]),
            (1, &[10, 9, 0, 0]),
            (0, &[10, 9, 1, 1]),
            (1, &[11, 10, 0, 0]),
            (0, &[11, 10, 1, 1]),
            (1, &[12, 11, 0, 0]),
            (0, &[12, 11, 1, 1]),
            (1, &[13, 12, 0, 0]),
            (0, &[13, 12, 1, 1]),
            (1, &[14, 13, 0, 0]),
            (0, &[14, 13, 1, 1]),
            (1, &[16, 15, 0, 0]),
            (0, &[16, 15, 1, 1]),
            (1, &[15, 16, 0, 0]),
            (0, &[15, 16, 1, 1]),
        ],
        nets: 17,
        rails: &[Some(1), Some(0)],
        pinned: &[],
    },
    cell: CellRow {
        devices: &[
            (1, &[1, 0, 2, 2]),
            (0, &[1, 0, 3, 3]),
            (1, &[0, 1, 2, 2]),
            (0, &[0, 1, 3, 3]),
        ],
        roles: &[Role::Inner, Role::Inner, Role::Rail(1), Role::Rail(0)],
        ports: &[],
    },
    wanted: "key dev:0 depth 11 candidates 2 plan 0 1 2 3 first 24 26 classes 6 11 13 17 19 23 25 29 31 35 37 41 42 42 42 42 42",
};

const RESISTORS_ROW: Row = Row {
    name: "three resistors in a row",
    circuit: CircuitRow {
        devices: &[(2, &[0, 1]), (2, &[1, 2]), (2, &[2, 3])],
        nets: 4,
        rails: &[None, None],
        pinned: &[],
    },
    cell: CellRow {
        devices: &[(2, &[0, 1]), (2, &[1, 2]), (2, &[2, 3])],
        roles: &[Role::Port(0), Role::Inner, Role::Inner, Role::Port(1)],
        ports: &[0, 3],
    },
    wanted: "key dev:1 depth 1 candidates 1 plan 1 0 2 first 1 classes 3 4 4",
};

/// The line of a row must be the wanted one.
fn try_row(rt: &impl Abort, alloc: Global, row: &Row) -> Result<(), Fail> {
    let c = circuit_of(rt, alloc, &row.circuit)?;
    let p = cell_of(rt, alloc, &row.cell)?;
    let line = course_line(rt, alloc, &c, &p)?;
    assert!(rt; line.as_str() == row.wanted, "{}: {line}", row.name);
    Ok(())
}

#[test]
fn buffers_and_gates(rt: HostRuntime) -> Result<(), Fail> {
    let alloc = rt.alloc();
    try_row(&rt, alloc, &BUFFER_ROW)?;
    try_row(&rt, alloc, &PINNED_ROW)?;
    try_row(&rt, alloc, &NAND_ROW)?;
    try_row(&rt, alloc, &LOADED_ROW)?;
    try_row(&rt, alloc, &NAND_AWAY_ROW)?;
    try_row(&rt, alloc, &NOR_AWAY_ROW)
}

#[test]
fn ties(rt: HostRuntime) -> Result<(), Fail> {
    let alloc = rt.alloc();
    try_row(&rt, alloc, &DEVICE_OR_NET_ROW)?;
    try_row(&rt, alloc, &DEVICES_ROW)?;
    try_row(&rt, alloc, &NETS_ROW)
}

#[test]
fn depths_and_classes(rt: HostRuntime) -> Result<(), Fail> {
    let alloc = rt.alloc();
    try_row(&rt, alloc, &SPOILED_ROW)?;
    try_row(&rt, alloc, &CLASSES_ROW)?;
    try_row(&rt, alloc, &LATCH_ROW)?;
    try_row(&rt, alloc, &RESISTORS_ROW)
}
