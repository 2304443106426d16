use crate::Origin;
use gl_graph::Circuit;
use gl_legal::CellList;
use gl_match::Pick;
use std::marker::Model;

/// What was found of a cell in a round.
#[derive(Drop)]
pub struct RoundCell {
    /// The number of the cell, from 0 in library order.
    pub cell: u32,
    /// Its instances in the round's circuit.
    pub list: CellList,
    /// What became of each instance, in the order of the list.
    pub picks: Vec<Pick>,
}

impl Model for RoundCell {
    ghost use Rattle.gl_history.specs.Plain.{RoundCell as CellValue};

    ghost Value = { CellValue };

    ghost view = { λ c. record { cell = c.cell; list = c.list; picks = c.picks.items } };
}

/// A round.
#[derive(Drop)]
pub struct Round {
    /// The circuit that was searched.
    pub circuit: Circuit,
    /// Where each device of the circuit comes from.
    pub origins: Vec<Origin>,
    /// The searched cells of the round's level, in library order.
    pub cells: Vec<RoundCell>,
}

impl Model for Round {
    ghost use Rattle.std.specs.Prelude.{map};
    ghost use Rattle.gl_history.specs.Plain.{Round as RoundValue, origin_value};

    ghost Value = { RoundValue };

    ghost view = { λ r. record { circuit = r.circuit; origins = map origin_value r.origins.items; cells = r.cells.items } };
}
