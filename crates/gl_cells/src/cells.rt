//! What is said of each cell of a library that keeps the limits.
ghost use Rattle.std.specs.Prelude.{◌≡◌, ◌≤◌, None, length, map, IfErr, IfOk, OnOk};
ghost use Rattle.gl_deck.specs.Bodies.{bodies_value};
ghost use Rattle.gl_size.specs.Excesses.{AreSizes};
ghost use Rattle.gl_base.specs.Libraries.{CELLS as MOST_CELLS, cell_of, cells_cause, level_of, limit_cause, top_cause};
ghost use Rattle.gl_cells.specs.Causes.{IsCauseIn, Refuses};
ghost use Rattle.gl_cells.specs.Limited.{limits_cause, AreCountable, IsCountable};
ghost use Rattle.gl_cells.specs.Outlines.{marks_through};

use crate::levels::levels;
use crate::limits::refuse_limits;
use crate::outline::outlines;
use crate::skips::{marks, skip};
use crate::{Body, LibCell, LibFault, Limit, Name, Sub, Subs};
use gl_size::Sizes;
use std::alloc::Global;

/// The most cells that a library may have.
const CELLS: usize = 256;

/// The refusal of the first device or X card outside subcircuits.
pub fn top_refusal(cards: &[Body]) -> Option<LibFault>
    ensures top { Refuses result (top_cause (bodies_value cards.now)) }
{
    match cards.first() {
        Some(card) => Some(LibFault::TopCard { line: card.line() }),
        None => None,
    }
}

/// Refuses the cell behind as many as there may be.
pub fn refuse_cells(alloc: Global, cells: &[Sub]) -> Result<(), LibFault>
    ensures ok { OnOk result (cells_cause cells.now ≡ None) }
    ensures refused { IfErr result (IsCauseIn (cells_cause cells.now)) }
{
    match cells.get(CELLS) {
        Some(cell) => Err(LibFault::CellLimit {
            cell: Name::of(alloc, cell.head().name().as_bytes())?,
            what: Limit::Cells,
            number: 257,
        }),
        None => Ok(()),
    }
}

/// What is said of a cell of this level, unless it breaks a limit.
fn lib_cell(
    alloc: Global,
    subs: &Subs,
    sizes: &Sizes,
    marks: &[bool],
    level: u32,
    cell: &Sub,
) -> Result<LibCell, LibFault>
    requires of { AreSizes subs.now sizes.now }
    requires marks { marks.now ≡ marks_through subs.now (length subs.now) }
    requires level { level ≡ level_of subs.now cell.now }
    requires few { IsCountable cell.now }
    ensures fits { OnOk result (limit_cause subs.now cell.now ≡ None) }
    ensures cell { IfOk result (λ said. said ≡ cell_of subs.now cell.now) }
    ensures refused { IfErr result (IsCauseIn (limit_cause subs.now cell.now)) }
{
    refuse_limits(alloc, subs, sizes, level, cell)?;
    let skip = skip(alloc, subs, marks, cell)?;
    Ok(LibCell { level, skip })
}

/// What is said of each cell, unless one breaks a limit.
fn lib_cells(
    alloc: Global,
    subs: &Subs,
    sizes: &Sizes,
    marks: &[bool],
    levels: &[u32],
) -> Result<Vec<LibCell>, LibFault>
    requires of { AreSizes subs.now sizes.now }
    requires marks { marks.now ≡ marks_through subs.now (length subs.now) }
    requires levels { levels.now ≡ map (level_of subs.now) subs.now }
    requires few { AreCountable subs.now }
    ensures fits { OnOk result (limits_cause subs.now subs.now ≡ None) }
    ensures cells { IfOk result (λ v. v.items ≡ map (cell_of subs.now) subs.now) }
    ensures refused { IfErr result (IsCauseIn (limits_cause subs.now subs.now)) }
{
    let cells = subs.as_slice();
    let mut said = Vec::with_capacity(alloc, cells.len())?;
    for place in 0..cells.len() {
        let level = levels[place];
        said.push(lib_cell(alloc, subs, sizes, marks, level, &cells[place])?)?;
    }
    Ok(said)
}

/// What is said of each cell, in order, unless one breaks a limit; the first such cell counts, and of it the first limit.
pub fn cells_within_limits(alloc: Global, subs: &Subs) -> Result<Vec<LibCell>, LibFault>
    requires not_many { length subs.now ≤ MOST_CELLS }
    requires few { AreCountable subs.now }
    ensures fits { OnOk result (limits_cause subs.now subs.now ≡ None) }
    ensures cells { IfOk result (λ v. v.items ≡ map (cell_of subs.now) subs.now) }
    ensures refused { IfErr result (IsCauseIn (limits_cause subs.now subs.now)) }
{
    let outlines = outlines(alloc, subs)?;
    let levels = levels(alloc, &outlines)?;
    let marks = marks(alloc, &outlines)?;
    let sizes = Sizes::of(alloc, subs)?;
    lib_cells(alloc, subs, &sizes, &marks, &levels)
}
