//! The patterns of cells and the circuit of a deck, from the tables.
ghost use Rattle.std.specs.Prelude.{◌≡◌, ◌++◌, map, filter_map, position, Contains, IfOk};
ghost use Rattle.gl_text.specs.LogicalLines.{same_text};
ghost use Rattle.gl_text.specs.Decks.{once};
ghost use Rattle.gl_text.specs.Flattening.{top_ports};
ghost use Rattle.gl_base.specs.TypeNames.{classes_of};
ghost use Rattle.gl_base.specs.BaseCircuit.{nets_of};
ghost use Rattle.gl_base.specs.Rounds.{cards_of};
ghost use Rattle.gl_lifting.specs.Runs.{run_of, run_types, pattern_in, first_circuit};
ghost use Rattle.gl_lib.specs.Sources.{IsWhole};
ghost use Rattle.gl_lib.specs.Tables.{ArePartsSound, AreTablesOf, source_of, run_in};

use crate::cards::devices_of_cards;
use crate::devices::{flat_devices, numbers_of};
use crate::names::{name_table, net_table};
use crate::parts::Parts;
use crate::roles::{rail_nets, roles_of};
use crate::tables::Tables;
use gl_card::Name;
use gl_cells::Sub;
use gl_graph::{BuildFault, Circuit, NetId, Pattern, Shape};
use std::alloc::{AllocError, Global};

/// The one fault of what nothing else refuses.
fn want_of_memory(fault: BuildFault) -> AllocError
    requires { fault ≡ BuildFault.Memory }
{
    match fault {
        BuildFault::Memory => AllocError,
        _ => unreachable!(),
    }
}

/// The pattern of a cell: its cards as devices, X cards among them.
pub fn build_pattern(
    alloc: Global,
    parts: &Parts,
    tables: &Tables,
    shapes: &[Shape],
    cell: &Sub,
) -> Result<Pattern, AllocError>
    requires sound { ArePartsSound parts.now }
    requires tables { AreTablesOf (source_of parts.now) tables.now }
    requires shapes { shapes.now ≡ map classes_of (run_types (run_in parts.now)) }
    requires inside { Contains parts.now.library.now.deck.subs cell.now }
    requires whole { IsWhole parts.now.library.now.deck.subs cell.now }
    ensures pattern { IfOk result (λ p. p ≡ pattern_in (run_in parts.now) cell.now) }
{
    let cards = cell.cards();
    let port_names = cell.head().ports();
    let nets = net_table(alloc, cards)?;
    let ports = name_table(alloc, port_names)?;
    let devices = devices_of_cards(alloc, parts, tables, &nets, cards)?;
    let roles = roles_of(alloc, &tables.rails, &ports, nets.items())?;
    let port_nets = numbers_of(alloc, &nets, port_names)?;
    let rails = tables.rails.count();
    match Pattern::build(alloc, shapes, rails, devices, roles, port_nets) {
        Ok(pattern) => Ok(pattern),
        Err(fault) => Err(want_of_memory(fault)),
    }
}

/// The circuit of the deck's devices, with its pinned nets, for the types of the run.
pub fn build_circuit(
    alloc: Global,
    parts: &Parts,
    tables: &Tables,
    shapes: Vec<Shape>,
    keep: &[Name],
    pinned: Vec<NetId>,
) -> Result<Circuit, AllocError>
    requires sound { ArePartsSound parts.now }
    requires tables { AreTablesOf (source_of parts.now) tables.now }
    requires shapes { shapes.items ≡ map classes_of (run_types (run_in parts.now)) }
    requires pinned { pinned.items ≡ (first_circuit (run_of parts.now.flat.now parts.now.library.now keep.now)).pinned }
    ensures circuit { IfOk result (λ c. c
        ≡ first_circuit (run_of parts.now.flat.now parts.now.library.now keep.now)) }
{
    let flat = parts.flat;
    let nets = flat.nets();
    let devices = flat_devices(alloc, &tables.words, &tables.kinds, flat.devices())?;
    let rails = rail_nets(alloc, tables.rails.items(), nets)?;
    match Circuit::build(alloc, shapes, devices, nets.count(), rails, pinned) {
        Ok(circuit) => Ok(circuit),
        Err(fault) => Err(want_of_memory(fault)),
    }
}
