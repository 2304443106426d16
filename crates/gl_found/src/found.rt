//! The chosen instances of a run, in the order of their numbers.
ghost use Rattle.std.specs.Prelude.{◌≡◌, ◌++◌, ◌∷◌, [], filter_map, IfOk, OnOk};
ghost use Rattle.gl_history.specs.Plain.{origin_value};
ghost use Rattle.gl_found.specs.Founds as founds;

use gl_graph::{Circuit, DevId};
use gl_history::{Lifted, Origin, Round, RoundCell};
use gl_legal::Instance;
use gl_match::{Memory, Pick};
use std::alloc::Global;
use std::marker::Model;

/// A chosen instance, and where it was found. Contracts see it as its number, its cell's number, circuit, origins and instance.
#[derive(Drop)]
pub struct Found<'a> {
    /// Its number, from 1 over the whole run.
    pub number: u32,
    /// The number of its cell, from 0 in library order.
    pub cell: u32,
    /// The circuit of its round.
    pub circuit: &'a Circuit,
    /// Where each device of the circuit comes from.
    pub origins: &'a [Origin],
    /// The instance.
    pub instance: &'a Instance,
}

impl<'a> Model for Found<'a> {
    ghost use Rattle.std.specs.Prelude.{map};
    ghost use Rattle.gl_history.specs.Plain.{origin_value};
    ghost use Rattle.gl_found.specs.Founds.{Found as FoundValue};

    ghost Value = { FoundValue };

    ghost view = { λ f. record {
      number = f.number;
      cell = f.cell;
      circuit = f.circuit.now;
      origins = map origin_value f.origins.now;
      instance = f.instance.now;
    } };
}

impl<'a> Found<'a> {
    /// Where a device of its circuit comes from.
    pub fn origin(&self, dev: DevId) -> Origin
        ensures origin { origin_value result ≡ founds.origin_in self.now.origins dev }
    {
        match self.origins.get(dev.0 as usize) {
            Some(origin) => *origin,
            None => Origin::Base(DevId(0)),
        }
    }
}

/// Adds an instance of a round, if it is chosen.
fn add_item<'a>(
    found: &mut Vec<Found<'a>>,
    round: &'a Round,
    cell: u32,
    instance: &'a Instance,
    pick: Pick,
) -> Result<(), Memory>
    ensures added { OnOk result (found.new.items ≡ found.old.items
        ++ filter_map (founds.found_at round.now.circuit round.now.origins cell)
        ((instance.now, pick) ∷ [])) }
{
    if let Pick::Taken(number) = pick {
        found.push(Found {
            number,
            cell,
            circuit: &round.circuit,
            origins: &round.origins,
            instance,
        })?;
    }
    Ok(())
}

/// Adds the chosen instances of a cell.
fn add_cell<'a>(
    found: &mut Vec<Found<'a>>,
    round: &'a Round,
    cell: &'a RoundCell,
) -> Result<(), Memory>
    ensures added { OnOk result (found.new.items ≡ found.old.items
        ++ founds.found_of round.now.circuit round.now.origins cell.now) }
{
    for (instance, pick) in cell.list.items.iter().zip(&cell.picks) {
        add_item(found, round, cell.cell, instance, *pick)?;
    }
    Ok(())
}

/// Adds the chosen instances of a round.
fn add_round<'a>(found: &mut Vec<Found<'a>>, round: &'a Round) -> Result<(), Memory>
    ensures added { OnOk result
        (found.new.items ≡ found.old.items ++ founds.found_in round.now) }
{
    for cell in &round.cells {
        add_cell(found, round, cell)?;
    }
    Ok(())
}

/// All chosen instances of a run, round by round and cell by cell.
pub fn gather_found<'a>(alloc: Global, lift: &'a Lifted) -> Result<Vec<Found<'a>>, Memory>
    ensures found { IfOk result (λ found. found.items ≡ founds.all_found lift.now.rounds) }
{
    let mut found = Vec::new(alloc);
    for round in &lift.rounds {
        add_round(&mut found, round)?;
    }
    Ok(found)
}
