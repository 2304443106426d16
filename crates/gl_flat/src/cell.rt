ghost use Rattle.std.specs.Prelude.{◌≡◌, map, IfOk};
ghost use Rattle.indexmap.specs.IndexMap.{keys, values};
ghost use Rattle.gl_base.specs.Libraries.{clash_of_cell};
ghost use Rattle.gl_printed.specs.ReadDecks.{AllDiffer, body_name};
ghost use Rattle.gl_flat.specs.SeenNames.{PlainDiffer};
ghost use Rattle.gl_flat.specs.Steps.{cards_clash};
ghost use Rattle.gl_flat.specs.TopNames.{IsClash, clash_with_top};
ghost use Rattle.gl_flat.specs.Ways.{IsScene, PortsDiffer};

use crate::clash::refuse_clash;
use crate::device::FlatDevice;
use crate::flattening::expanded;
use crate::scene::Scene;
use crate::tables::Tables;
use crate::{FlatFault, Memory, Name, Sub, Subs};
use std::alloc::Global;

/// The first name that clashes among devices; every other refusal there is want of memory.
fn clash_among<'a>(
    alloc: Global,
    scene: &Scene<'a>,
    devices: &[FlatDevice<'a>],
) -> Result<Option<Name>, Memory>
    requires plain { PlainDiffer devices.now }
    ensures clash { IfOk result (IsClash (clash_with_top scene.now devices.now)) }
{
    match refuse_clash(alloc, scene, devices) {
        Ok(()) => Ok(None),
        Err(FlatFault::NameClash { name }) => Ok(Some(name)),
        Err(_) => Err(Memory),
    }
}

/// The first name that clashes among the devices of a cell.
fn clash_of_cards<'a>(
    alloc: Global,
    scene: &Scene<'a>,
    cell: &'a Sub,
) -> Result<Option<Name>, Memory>
    requires scene { IsScene scene.now }
    requires names { AllDiffer (map body_name cell.now.cards) }
    ensures clash { IfOk result (IsClash (cards_clash scene.now cell.now.cards)) }
{
    let devices = expanded(alloc, scene, cell.cards())?;
    clash_among(alloc, scene, &devices)
}

/// The first name that clashes where a cell's cards are flattened as those of a top whose ports are the cell's: that of a
/// device before those of its nets. `0`, rails and ports are nets of the top and stand before all others. X cards are followed
/// through at most 32 of them; the time taken goes by the rails, the ports of all subcircuits, and the number of cards to which
/// the cell expands. Names may be of any length.
pub fn first_clash(
    alloc: Global,
    subs: &Subs,
    rails: &[Name],
    cell: &Sub,
) -> Result<Option<Name>, Memory>
    requires ports { PortsDiffer subs.now }
    requires rails { AllDiffer rails.now }
    requires names { AllDiffer (map body_name cell.now.cards) }
    ensures clash { IfOk result (IsClash (clash_of_cell rails.now subs.now cell.now)) }
{
    let tables = Tables::of(alloc, subs, rails, cell.head().ports())?;
    let scene = tables.scene(subs);
    clash_of_cards(alloc, &scene, cell)
}
