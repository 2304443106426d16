//! What a run is lifted with, at all levels.
ghost use Rattle.std.specs.Prelude.{◌≡◌, ◌++◌, ◌∷◌, [], None, Contains, All, IfErr, IfOk, OnOk, map, zip};
ghost use Rattle.gl_fault.specs.Refusals.{IsFound};
ghost use Rattle.gl_base.specs.TypeNames.{classes_of};
ghost use Rattle.gl_base.specs.Rounds as rounds;
ghost use Rattle.gl_base.specs.Keeping.{unknown_keep};
ghost use Rattle.gl_graph.specs.FitCells.{IsForCircuit};
ghost use Rattle.gl_lifting.specs.Runs.{run_of, run_types, first_circuit};
ghost use Rattle.gl_lifting.specs.SearchedCells.{AreCells, cell_in, pattern_unless as unless};
ghost use Rattle.gl_lib.specs.Kept.{unknown_of};
ghost use Rattle.gl_lib.specs.Sources.{AreSound, IsWhole};
ghost use Rattle.gl_lib.specs.Tables.{ArePartsSound, AreTablesOf, source_of, run_in};

use crate::building::{build_circuit, build_pattern};
use crate::cards::cell_kind;
use crate::fault::KeepFault;
use crate::kept::refuse_unkept;
use crate::parts::Parts;
use crate::pinned::run_pins;
use crate::shapes::run_shapes;
use crate::tables::{Tables, tables_of};
use gl_card::Name;
use gl_cells::{LibCell, Library, Sub};
use gl_flat::Flat;
use gl_graph::{Cell, Circuit, NetId, Pattern, Shape};
use std::alloc::{AllocError, Global};

/// The first circuit of a run, its pinned nets, and the cells of the library as they are searched.
#[derive(Drop)]
pub struct Levels {
    /// The circuit of the flat deck. Its types are those of all devices, and then the cells.
    pub circuit: Circuit,
    /// The circuit's pinned nets.
    pub pinned: Vec<NetId>,
    /// One for each subcircuit of the library, in its order.
    pub cells: Vec<Cell>,
}

/// The pattern of a cell; none where it is skipped.
fn pattern_unless(
    alloc: Global,
    parts: &Parts,
    tables: &Tables,
    shapes: &[Shape],
    cell: &Sub,
    told: &LibCell,
) -> Result<Option<Pattern>, AllocError>
    requires sound { ArePartsSound parts.now }
    requires tables { AreTablesOf (source_of parts.now) tables.now }
    requires shapes { shapes.now ≡ map classes_of (run_types (run_in parts.now)) }
    requires inside { Contains parts.now.library.now.deck.subs cell.now }
    requires whole { told.now.skip ≡ None → IsWhole parts.now.library.now.deck.subs cell.now }
    ensures pattern { IfOk result (λ p. p ≡ unless (run_in parts.now) cell.now told.now.skip) }
{
    match told.skip() {
        Some(_) => Ok(None),
        None => Ok(Some(build_pattern(alloc, parts, tables, shapes, cell)?)),
    }
}

/// A cell as it is searched.
fn searched_cell(
    alloc: Global,
    parts: &Parts,
    tables: &Tables,
    shapes: &[Shape],
    cell: &Sub,
    told: &LibCell,
) -> Result<Cell, AllocError>
    requires sound { ArePartsSound parts.now }
    requires tables { AreTablesOf (source_of parts.now) tables.now }
    requires shapes { shapes.now ≡ map classes_of (run_types (run_in parts.now)) }
    requires inside { Contains parts.now.library.now.deck.subs cell.now }
    requires whole { told.now.skip ≡ None → IsWhole parts.now.library.now.deck.subs cell.now }
    ensures cell { IfOk result (λ c. c ≡ cell_in (run_in parts.now) (cell.now, told.now)) }
{
    let pattern = pattern_unless(alloc, parts, tables, shapes, cell, told)?;
    let kind = cell_kind(parts, tables, cell.head().name());
    let level = told.level();
    Ok(Cell {
        pattern,
        level,
        kind,
    })
}

/// Adds a cell as it is searched.
fn add_cell(
    alloc: Global,
    parts: &Parts,
    tables: &Tables,
    shapes: &[Shape],
    cells: &mut Vec<Cell>,
    cell: &Sub,
    told: &LibCell,
) -> Result<(), AllocError>
    requires sound { ArePartsSound parts.now }
    requires tables { AreTablesOf (source_of parts.now) tables.now }
    requires shapes { shapes.now ≡ map classes_of (run_types (run_in parts.now)) }
    requires inside { Contains parts.now.library.now.deck.subs cell.now }
    requires whole { told.now.skip ≡ None → IsWhole parts.now.library.now.deck.subs cell.now }
    ensures added { OnOk result (cells.new.items
        ≡ cells.old.items ++ cell_in (run_in parts.now) (cell.now, told.now) ∷ []) }
{
    let made = searched_cell(alloc, parts, tables, shapes, cell, told)?;
    cells.push(made)?;
    Ok(())
}

/// The cells of the library as they are searched, in its order.
fn searched_cells(
    alloc: Global,
    parts: &Parts,
    tables: &Tables,
    shapes: &[Shape],
) -> Result<Vec<Cell>, AllocError>
    requires sound { ArePartsSound parts.now }
    requires tables { AreTablesOf (source_of parts.now) tables.now }
    requires shapes { shapes.now ≡ map classes_of (run_types (run_in parts.now)) }
    ensures cells { IfOk result (λ cells. cells.items ≡ map (cell_in (run_in parts.now))
        (zip parts.now.library.now.deck.subs parts.now.library.now.cells)) }
{
    let subs = parts.library.deck().subs().as_slice();
    let mut cells = Vec::with_capacity(alloc, subs.len())?;
    for (cell, told) in subs.iter().zip(parts.library.cells()) {
        add_cell(alloc, parts, tables, shapes, &mut cells, cell, told)?;
    }
    Ok(cells)
}

/// The first circuit in which the nets of some names are kept, and the cells.
fn build_levels(
    alloc: Global,
    parts: &Parts,
    tables: &Tables,
    keep: &[Name],
) -> Result<Levels, AllocError>
    requires sound { ArePartsSound parts.now }
    requires tables { AreTablesOf (source_of parts.now) tables.now }
    ensures circuit { IfOk result (λ l. l.circuit
        ≡ first_circuit (run_of parts.now.flat.now parts.now.library.now keep.now)) }
    ensures pinned { IfOk result (λ l. l.circuit.pinned ≡ l.pinned.items) }
    ensures cells { IfOk result (λ l. AreCells
        (run_of parts.now.flat.now parts.now.library.now keep.now) l.cells.items) }
    ensures fits { IfOk result (λ l. All (IsForCircuit l.circuit) l.cells.items) }
{
    let shapes = run_shapes(alloc, parts, tables)?;
    let cells = searched_cells(alloc, parts, tables, &shapes)?;
    let pinned = run_pins(alloc, parts, keep)?;
    let pins = run_pins(alloc, parts, keep)?;
    let circuit = build_circuit(alloc, parts, tables, shapes, keep, pins)?;
    Ok(Levels {
        circuit,
        pinned,
        cells,
    })
}

/// The first circuit of a flat deck, in which the nets of the names in `keep` are pinned as those of the ports of the top are,
/// and the cells of a library, in its order, as they are searched in the rounds of their levels: each with its pattern, in
/// which X cards are devices of the types of the cells that they call, or with none where it is skipped. It is refused exactly
/// where a kept name is no net of a device, by the first such name, or for want of memory. A name may be kept more than once,
/// and any number of names may be.
///
/// It takes time linear in the devices' places, the kept names and the cells' cards; a name costs one look in a table. Nets
/// keep the numbers that they have in the flat deck.
pub fn levels_of(
    alloc: Global,
    flat: &Flat,
    library: &Library,
    keep: &[Name],
) -> Result<Levels, KeepFault>
    requires sound { AreSound flat.now library.now }
    ensures known { IfOk result
        (λ l. unknown_keep keep.now (rounds.source_of flat.now library.now) ≡ None) }
    ensures circuit { IfOk result (λ l. l.circuit
        ≡ first_circuit (run_of flat.now library.now keep.now)) }
    ensures pinned { IfOk result (λ l. l.circuit.pinned ≡ l.pinned.items) }
    ensures cells { IfOk result (λ l. AreCells (run_of flat.now library.now keep.now) l.cells.items) }
    ensures fits { IfOk result (λ l. All (IsForCircuit l.circuit) l.cells.items) }
    ensures refused { IfErr result (λ fault. IsFound (unknown_of fault)
        (unknown_keep keep.now (rounds.source_of flat.now library.now))) }
{
    let parts = Parts { flat, library };
    let tables = tables_of(alloc, &parts)?;
    refuse_unkept(alloc, flat, library, keep)?;
    let levels = build_levels(alloc, &parts, &tables, keep)?;
    Ok(levels)
}
