//! The levels of cells, from 0.
ghost use Rattle.std.specs.Prelude.{◌≡◌, ◌≤◌, ℕ, suc, List, length, map, max, slice_index, IfOk};
ghost use Rattle.gl_text.specs.Decks.{Sub};
ghost use Rattle.gl_base.specs.Libraries.{CELLS, greatest, level_of};
ghost use Rattle.gl_cells.specs.Outlines as outlines;
ghost use Rattle.gl_cells.specs.Outlines.{outlines_of};

use crate::outline::Outline;
use std::alloc::{AllocError, Global};

/// One more than the level of the cell at a place.
fn above(levels: &[u32], place: usize) -> u32
    requires low { (place : ℕ) → slice_index levels.now place ≤ CELLS }
    ensures above { result ≡ suc (slice_index levels.now place) }
{
    levels.get(place).copied().unwrap_or(0) + 1
}

/// One more than the greatest level of the cells at these places; 0 without any.
fn level_over(levels: &[u32], places: &[usize]) -> u32
    requires low { (place : ℕ) → slice_index levels.now place ≤ CELLS }
    ensures level { result ≡ greatest (map (λ place. suc (slice_index levels.now place))
        places.now) }
{
    let mut level = 0;
    let mut rest = places;
    while let [place, behind @ ..] = rest {
        level = level.max(above(levels, *place));
        rest = behind;
    }
    level
}

/// The level of each cell through one call more than these levels have.
fn deeper_levels(alloc: Global, cells: &[Outline], levels: &[u32]) -> Result<Vec<u32>, AllocError>
    requires low { (place : ℕ) → slice_index levels.now place ≤ CELLS }
    ensures levels { IfOk result (λ v. v.items ≡ map (outlines.level_by levels.now) cells.now) }
{
    let mut deeper = Vec::with_capacity(alloc, cells.len())?;
    let mut rest = cells;
    while let [cell, behind @ ..] = rest {
        deeper.push(level_over(levels, cell.calls()))?;
        rest = behind;
    }
    Ok(deeper)
}

/// The level of each cell. It takes as many steps as there are X cards, for each cell.
pub fn levels(alloc: Global, cells: &[Outline]) -> Result<Vec<u32>, AllocError>
    requires few { length cells.now ≤ CELLS }
    ensures levels { IfOk result (λ v. (subs : List Sub) → cells.now ≡ outlines_of subs
        → v.items ≡ map (level_of subs) subs) }
{
    let mut levels = vec![in alloc; 0; cells.len()]?;
    for calls in 0..cells.len() {
        let _ = calls;
        levels = deeper_levels(alloc, cells, &levels)?;
    }
    Ok(levels)
}
