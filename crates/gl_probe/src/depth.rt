//! How deep the circuit of a round is labelled: as deep as some cell of the round needs it.
ghost use Rattle.std.specs.Prelude.{◌≡◌, ◌≤◌, ℕ, IfOk};
ghost use Rattle.std.specs.Option.{option_copied};
ghost use Rattle.gl_history.specs.Searching.{pattern_at};
ghost use Rattle.gl_probe.specs.Shown.{IsDeepFor, IsDeepForAll};

use gl_graph::{Cell, Pattern};
use gl_label::Spoil;
use gl_match::Memory;
use std::alloc::Global;

/// The pattern of a cell, if it is searched in the round of a level.
pub fn level_pattern(cell: &Cell, level: usize) -> Option<&Pattern>
    ensures pattern { option_copied result ≡ pattern_at level cell.now }
{
    if cell.level as usize == level {
        cell.pattern.as_ref()
    } else {
        None
    }
}

/// The last depth at which a vertex of a cell may be the key; 0 where it is not searched in the round.
fn cell_depth(alloc: Global, cell: &Cell, level: usize) -> Result<u32, Memory>
    ensures shallow { IfOk result (λ depth. depth ≤ 16) }
    ensures deep { IfOk result (λ depth. IsDeepFor depth (pattern_at level cell.now)) }
{
    match level_pattern(cell, level) {
        Some(pattern) => {
            let spoil = Spoil::of(alloc, pattern)?;
            Ok(spoil.deepest(pattern))
        }
        None => Ok(0),
    }
}

/// The greater of two depths.
fn deeper(first: u32, second: u32) -> u32
    ensures first { first ≤ result }
    ensures second { second ≤ result }
    ensures least { (depth : ℕ) → first ≤ depth → second ≤ depth → result ≤ depth }
{
    first.max(second)
}

/// The last depth at which a vertex of some cell of a level may be the key.
pub fn round_depth(alloc: Global, cells: &[Cell], level: usize) -> Result<u32, Memory>
    ensures shallow { IfOk result (λ depth. depth ≤ 16) }
    ensures deep { IfOk result (λ depth. IsDeepForAll level depth cells.now) }
{
    let mut depth = 0;
    for cell in cells {
        let own = cell_depth(alloc, cell, level)?;
        depth = deeper(depth, own);
    }
    Ok(depth)
}
