ghost use Rattle.std.specs.Prelude.{◌≡◌, ◌+◌, ℕ, suc, length, map, All, IfOk};
ghost use Rattle.std.specs.List.{range_with_len};
ghost use Rattle.gl_lifting.specs.Replacement.{base as base_origin};
ghost use Rattle.gl_lifting.specs.Runs.{Run, first_circuit};
ghost use Rattle.gl_history.specs.Plain.{origin_value};
ghost use Rattle.gl_graph.specs.FitCells.{IsForCircuit};
ghost use Rattle.gl_history.specs.Searching.{rounds_of as rounds_by};
ghost use Rattle.gl_history.specs.Reached.{start_of, AreFound, behind, IsStep, Reached};
ghost use Rattle.gl_lifting.specs.SearchedCells.{AreCells};
ghost use Rattle.gl_history.specs.Shown.{IsLifted};

use crate::circuit::with_devices;
use crate::finding::find;
use crate::marks::{Marks, add_round};
use crate::replacing::{replace_slots, taken_apart};
use crate::searching::count_rounds;
use crate::{Cell, Lifted, Origin, Round, RoundCell};
use gl_graph::{Circuit, DevId, NetId};
use gl_match::Memory;
use std::alloc::Global;

/// The rounds of a run.
#[derive(Drop)]
pub struct Lift;

/// Each device of a circuit is an original one.
fn originals(alloc: Global, devices: u32) -> Result<Vec<Origin>, Memory>
    ensures origins { IfOk result (λ origins. map origin_value origins.items
        ≡ map (λ n. base_origin n) (range_with_len 0 devices)) }
{
    let mut origins = Vec::with_capacity(alloc, devices as usize)?;
    for dev in 0..devices {
        origins.push(Origin::Base(DevId(dev)))?;
    }
    Ok(origins)
}

/// A circuit before the first round.
fn start(alloc: Global, base: Circuit) -> Result<Lifted, Memory>
    ensures start { IfOk result (λ lifted. lifted ≡ start_of base) }
{
    let last_origins = originals(alloc, base.devices())?;
    Ok(Lifted {
        rounds: Vec::new(alloc),
        last: base,
        last_origins,
        chosen: 0,
    })
}

/// The number behind so many.
fn next_number(count: u32) -> Result<u32, Memory>
    ensures next { IfOk result (λ number. number ≡ suc count) }
{
    match count.checked_add(1) {
        Some(number) => Ok(number),
        None => Err(Memory),
    }
}

/// So many, and others.
fn and_others(count: u32, others: usize) -> Result<u32, Memory>
    ensures sum { IfOk result (λ sum. sum ≡ count + others) }
{
    let Ok(others) = u32::try_from(others) else {
        return Err(Memory);
    };
    match count.checked_add(others) {
        Some(sum) => Ok(sum),
        None => Err(Memory),
    }
}

/// What a round leaves: its circuit with the chosen instances in place, where each device comes from, and how many are chosen so far.
#[derive(Drop)]
struct Left {
    circuit: Circuit,
    origins: Vec<Origin>,
    chosen: u32,
}

/// What is left behind a round.
fn left_by(
    alloc: Global,
    before: &Lifted,
    pinned: &[NetId],
    cells: &[Cell],
    found: &[RoundCell],
) -> Result<Left, Memory>
    requires pinned { before.now.last.pinned ≡ pinned.now }
    requires cells { All (IsForCircuit before.now.last) cells.now }
    requires origins { length before.now.last_origins ≡ length before.now.last.devices }
    requires found { (level : ℕ) × AreFound before.now.last (suc before.now.chosen)
        cells.now level found.now }
    ensures circuit { IfOk result (λ left. left.circuit
        ≡ (behind cells.now before.now found.now).last) }
    ensures origins { IfOk result (λ left. map origin_value left.origins.items
        ≡ (behind cells.now before.now found.now).last_origins) }
    ensures chosen { IfOk result (λ left. left.chosen
        ≡ (behind cells.now before.now found.now).chosen) }
{
    let circuit = &before.last;
    let mut marks = Marks::none(alloc, circuit.devices())?;
    add_round(alloc, &mut marks, cells, found)?;
    let slots = replace_slots(
        alloc,
        circuit,
        &before.last_origins,
        &marks.slots,
        &marks.fates,
    )?;
    let parts = taken_apart(alloc, slots)?;
    Ok(Left {
        circuit: with_devices(alloc, circuit, pinned, parts.devices)?,
        origins: parts.origins,
        chosen: and_others(before.chosen, marks.slots.len())?,
    })
}

/// Searches the cells of a level, and puts what is chosen into the circuit.
fn lift_level(
    alloc: Global,
    before: Lifted,
    pinned: &[NetId],
    cells: &[Cell],
    level: u32,
) -> Result<Lifted, Memory>
    requires pinned { before.last.pinned ≡ pinned.now }
    requires cells { All (IsForCircuit before.last) cells.now }
    requires origins { length before.last_origins ≡ length before.last.devices }
    ensures step { IfOk result (λ after. IsStep cells.now level before after) }
{
    let first = next_number(before.chosen)?;
    let found = find(alloc, &before.last, cells, level, first)?;
    let left = left_by(alloc, &before, pinned, cells, &found)?;
    let Lifted {
        mut rounds,
        last,
        last_origins,
        ..
    } = before;
    rounds.push(Round {
        circuit: last,
        origins: last_origins,
        cells: found,
    })?;
    Ok(Lifted {
        rounds,
        last: left.circuit,
        last_origins: left.origins,
        chosen: left.chosen,
    })
}

impl Lift {
    /// All rounds of a circuit and the cells of a library: in the round of each level, from 0 to the greatest, every searched cell of the level is
    /// listed against the circuit as the rounds before left it, and instances without a common device are chosen, whose numbers run on from 1. Each
    /// chosen one becomes a device of its cell's type, with its binding as nets, at the place of its lowest device; its other devices go. Nets keep
    /// their numbers, and rails and pinned nets stay.
    ///
    /// `pinned` is the list of the circuit's pinned nets. Where there are more instances or parts than numbers, which no memory holds, it answers
    /// as for want of memory. Apart from the lists, a round takes time of the circuit's parts and the chosen devices, whatever is chosen.
    pub fn run(
        alloc: Global,
        base: Circuit,
        pinned: &[NetId],
        cells: &[Cell],
    ) -> Result<Lifted, Memory>
        requires pinned { base.pinned ≡ pinned.now }
        requires cells { All (IsForCircuit base) cells.now }
        ensures reached { IfOk result (Reached base cells.now (rounds_by cells.now)) }
        ensures history { IfOk result (λ lifted. (run : Run) → base ≡ first_circuit run
            → AreCells run cells.now → IsLifted run cells.now lifted) }
    {
        let mut lifted = start(alloc, base)?;
        for level in 0..count_rounds(cells) {
            lifted = lift_level(alloc, lifted, pinned, cells, level as u32)?;
        }
        Ok(lifted)
    }
}
