//! What is found in a round.
ghost use Rattle.std.specs.Prelude.{◌≡◌, map, All, IfOk};
ghost use Rattle.std.specs.List.{zip};
ghost use Rattle.gl_history.specs.Plain.{round_cell};
ghost use Rattle.gl_graph.specs.FitCells.{IsForCircuit};
ghost use Rattle.gl_history.specs.Reached.{AreFound};

use crate::searching::{level_numbers, level_patterns};
use crate::{Cell, RoundCell};
use gl_graph::Circuit;
use gl_match::Memory;
use gl_round::{Round, round_among};
use std::alloc::Global;

/// What was found of each cell, under the cells' numbers.
fn round_cells(alloc: Global, numbers: Vec<u32>, found: Round) -> Result<Vec<RoundCell>, Memory>
    ensures cells { IfOk result (λ cells. cells.items
        ≡ map (λ t. round_cell t.0.0 t.0.1 t.1.items)
        (zip (zip numbers.items found.lists.items) found.picks.items)) }
{
    let cells = numbers
        .into_iter()
        .zip(found.lists)
        .zip(found.picks)
        .map(|((cell, list), picks)| RoundCell { cell, list, picks })
        .collect(alloc)?;
    Ok(cells)
}

/// The cells of a level, each with its complete list against the circuit, and the choice over all of them, whose numbers begin with the first.
pub fn find(
    alloc: Global,
    circuit: &Circuit,
    cells: &[Cell],
    level: u32,
    first: u32,
) -> Result<Vec<RoundCell>, Memory>
    requires cells { All (IsForCircuit circuit.now) cells.now }
    ensures found { IfOk result (λ found. AreFound circuit.now first cells.now level found.items) }
{
    let numbers = level_numbers(alloc, cells, level)?;
    let patterns = level_patterns(alloc, cells, level)?;
    let found = round_among(alloc, circuit, &patterns, first)?;
    let cells = round_cells(alloc, numbers, found)?;
    Ok(cells)
}
