//! The shapes of a run's types.
ghost use Rattle.std.specs.Prelude.{◌≡◌, ◌≤◌, ◌++◌, length, map, All, IfOk};
ghost use Rattle.gl_text.specs.Decks.{Sub as SubValue};
ghost use Rattle.gl_base.specs.Libraries.{PORTS};
ghost use Rattle.gl_base.specs.TypeNames.{classes_of};
ghost use Rattle.gl_lifting.specs.Runs.{cell_type, run_types};
ghost use Rattle.gl_lib.specs.Tables.{ArePartsSound, AreTablesOf, source_of, run_in};

use crate::kinds::Kinds;
use crate::parts::Parts;
use crate::tables::Tables;
use gl_cells::Sub;
use gl_graph::{Class, Shape};
use std::alloc::{AllocError, Global};

/// The shape of a cell's type: each port is of a class of its own.
fn cell_shape(alloc: Global, cell: &Sub) -> Result<Shape, AllocError>
    requires few { length cell.now.head.ports ≤ PORTS }
    ensures shape { IfOk result (λ shape. shape ≡ classes_of (cell_type cell.now)) }
{
    let ports = cell.head().ports().len();
    let mut classes = Vec::with_capacity(alloc, ports)?;
    for port in 0..ports {
        classes.push(Class(port as u8))?;
    }
    Ok(Shape { classes })
}

/// The shapes of types, by their numbers: those of devices, and behind them those of the cells.
fn shapes_of(alloc: Global, kinds: &Kinds, cells: &[Sub]) -> Result<Vec<Shape>, AllocError>
    requires few { All (λ (s : SubValue). length s.head.ports ≤ PORTS) cells.now }
    ensures shapes { IfOk result
        (λ shapes. shapes.items ≡ map classes_of (kinds.now ++ map cell_type cells.now)) }
{
    let mut shapes = kinds.shapes(alloc)?;
    for cell in cells {
        shapes.push(cell_shape(alloc, cell)?)?;
    }
    Ok(shapes)
}

/// The shapes of a run's types, by their numbers.
pub fn run_shapes(alloc: Global, parts: &Parts, tables: &Tables) -> Result<Vec<Shape>, AllocError>
    requires sound { ArePartsSound parts.now }
    requires tables { AreTablesOf (source_of parts.now) tables.now }
    ensures shapes { IfOk result
        (λ shapes. shapes.items ≡ map classes_of (run_types (run_in parts.now))) }
{
    let cells = parts.library.deck().subs().as_slice();
    let shapes = shapes_of(alloc, &tables.kinds, cells)?;
    Ok(shapes)
}
