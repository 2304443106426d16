//! The lines of a round.
ghost use Rattle.std.specs.Prelude.{◌≡◌, ◌++◌, OnOk, take, length, All, flat_map, zip};
ghost use Rattle.gl_graph.specs.FitCells.{IsForCircuit};
ghost use Rattle.gl_history.specs.Searching.{pattern_at};
ghost use Rattle.gl_match.specs.Graph.{FitsInto};
ghost use Rattle.gl_course.specs.KeyNotes.{IsDeepEnough};
ghost use Rattle.gl_label.specs.LabelTables.{AreLabelsOf};
ghost use Rattle.gl_probe.specs.Keys.{key_in};
ghost use Rattle.gl_probe.specs.Probes.{key_line};
ghost use Rattle.gl_probe.specs.Shown.{IsDeepFor, IsDeepForAll, shown_line, shown_round};

use crate::depth::{level_pattern, round_depth};
use crate::keys::note_of;
use crate::lines::put_line;
use gl_deck::Sub;
use gl_graph::{Cell, Circuit, Pattern};
use gl_history::Round;
use gl_label::Labels;
use gl_match::Memory;
use std::alloc::Global;

/// What a round is told by, borrowed.
#[derive(Clone, Copy)]
struct Labelled<'a> {
    /// Its level.
    level: usize,
    /// Its circuit.
    circuit: &'a Circuit,
    /// Labels of the circuit.
    labels: &'a Labels,
}

/// Appends the line of a cell that is searched in the round, by its pattern.
fn put_key(
    alloc: Global,
    out: &mut Vec<u8>,
    round: &Labelled<'_>,
    sub: &Sub,
    pattern: &Pattern,
) -> Result<(), Memory>
    requires labels { AreLabelsOf round.now.circuit.now round.now.labels.now }
    requires fits { FitsInto round.now.circuit.now pattern.now }
    requires deep { IsDeepEnough pattern.now round.now.labels.now.deepest }
    ensures ok { OnOk result (out.new.items
        ≡ out.old.items ++ key_line round.now.level sub.now (key_in round.now.circuit.now pattern.now)) }
    ensures front { take (length out.old.items) out.new.items ≡ out.old.items }
{
    match note_of(alloc, round.circuit, round.labels, pattern) {
        Ok(key) => put_line(alloc, out, round.level, sub, &key),
        Err(memory) => Err(memory),
    }
}

/// Appends the line of a cell, if it is searched in the round.
fn put_cell(
    alloc: Global,
    out: &mut Vec<u8>,
    round: &Labelled<'_>,
    sub: &Sub,
    cell: &Cell,
) -> Result<(), Memory>
    requires labels { AreLabelsOf round.now.circuit.now round.now.labels.now }
    requires fits { IsForCircuit round.now.circuit.now cell.now }
    requires deep { IsDeepFor round.now.labels.now.deepest (pattern_at round.now.level cell.now) }
    ensures ok { OnOk result (out.new.items
        ≡ out.old.items ++ shown_line round.now.level round.now.circuit.now (sub.now, cell.now)) }
    ensures front { take (length out.old.items) out.new.items ≡ out.old.items }
{
    match level_pattern(cell, round.level) {
        Some(pattern) => put_key(alloc, out, round, sub, pattern),
        None => Ok(()),
    }
}

/// Appends the lines of the cells that are searched in the round.
fn put_cells(
    alloc: Global,
    out: &mut Vec<u8>,
    round: &Labelled<'_>,
    subs: &[Sub],
    cells: &[Cell],
) -> Result<(), Memory>
    requires labels { AreLabelsOf round.now.circuit.now round.now.labels.now }
    requires fits { All (IsForCircuit round.now.circuit.now) cells.now }
    requires deep { IsDeepForAll round.now.level round.now.labels.now.deepest cells.now }
    ensures ok { OnOk result (out.new.items ≡ out.old.items
        ++ flat_map (shown_line round.now.level round.now.circuit.now) (zip subs.now cells.now)) }
    ensures front { take (length out.old.items) out.new.items ≡ out.old.items }
{
    for (sub, cell) in subs.iter().zip(cells) {
        put_cell(alloc, out, round, sub, cell)?;
    }
    Ok(())
}

/// Appends the lines of a round of a level. The labels of its circuit are given back before the next round.
pub fn put_round(
    alloc: Global,
    out: &mut Vec<u8>,
    level: usize,
    round: &Round,
    subs: &[Sub],
    cells: &[Cell],
) -> Result<(), Memory>
    requires fits { All (IsForCircuit round.now.circuit) cells.now }
    ensures ok { OnOk result (out.new.items
        ≡ out.old.items ++ shown_round subs.now cells.now (level, round.now)) }
    ensures front { take (length out.old.items) out.new.items ≡ out.old.items }
{
    let circuit = &round.circuit;
    let depth = round_depth(alloc, cells, level)?;
    let labels = Labels::refine(alloc, circuit, depth)?;
    let labelled = Labelled {
        level,
        circuit,
        labels: &labels,
    };
    put_cells(alloc, out, &labelled, subs, cells)
}
