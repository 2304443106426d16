ghost use Rattle.std.specs.Prelude.{◌≡◌, ◌<◌, All, length, map, IfOk};
ghost use Rattle.std.specs.List.{AllZip};
ghost use Rattle.gl_match.specs.Graph.{FitsInto};
ghost use Rattle.gl_match.specs.Listing.{Instance as Item, Listed};
ghost use Rattle.gl_base.specs.Rounds.{IsRound};

use crate::count::has_numbers;
use crate::lists::{apart, lists_among};
use gl_cover::{Pick, choose};
use gl_graph::{Circuit, Pattern};
use gl_legal::CellList;
use gl_match::Memory;
use std::alloc::Global;

/// What was found in a round.
#[derive(Debug, Drop)]
pub struct Round {
    /// The instances of each searched cell, in library order.
    pub lists: Vec<CellList>,
    /// What became of each instance, list by list.
    pub picks: Vec<Vec<Pick>>,
}

/// Lists each pattern against the circuit, and chooses from all lists, with numbers from the first one on.
///
/// Where there are more instances than numbers, which no memory holds, it answers as for want of memory.
pub fn round_of(
    alloc: Global,
    circuit: &Circuit,
    patterns: &[Pattern],
    first: u32,
) -> Result<Round, Memory>
    requires fit { All (FitsInto circuit.now) patterns.now }
    ensures round { IfOk result (λ r. IsRound circuit.now first patterns.now
        r.lists.items (map (λ v. v.items) r.picks.items)) }
{
    let patterns = apart(alloc, patterns)?;
    round_among(alloc, circuit, &patterns, first)
}

/// Lists each of some patterns that stand apart against the circuit, and chooses from all lists, with numbers from the first one on.
///
/// Where there are more instances than numbers, which no memory holds, it answers as for want of memory.
pub fn round_among(
    alloc: Global,
    circuit: &Circuit,
    patterns: &[&Pattern],
    first: u32,
) -> Result<Round, Memory>
    requires fit { All (FitsInto circuit.now) (map (λ p. p.now) patterns.now) }
    ensures round { IfOk result (λ r. IsRound circuit.now first (map (λ p. p.now) patterns.now)
        r.lists.items (map (λ v. v.items) r.picks.items)) }
{
    let lists = lists_among(alloc, circuit, patterns)?;
    if !has_numbers(&lists, first) {
        return Err(Memory);
    }
    let picks = choose(alloc, &lists, circuit.devices(), first)?;
    Ok(Round { lists, picks })
}
