//! Clashes of names in cells.
ghost use Rattle.std.specs.Prelude.{◌≡◌, None, map, IfErr, OnOk};
ghost use Rattle.gl_printed.specs.ReadDecks.{AllDiffer, body_name};
ghost use Rattle.gl_flat.specs.Ways.{NamesDiffer, PortsDiffer};
ghost use Rattle.gl_base.specs.Libraries.{clash_cause};
ghost use Rattle.gl_cells.specs.Causes.{IsCauseIn};
ghost use Rattle.gl_cells.specs.Limited.{clashes_cause};

use crate::{LibFault, Name, Sub, Subs};
use gl_flat::first_clash;
use std::alloc::Global;

/// Refuses a cell in which a name clashes where it is flattened as a top.
fn refuse_clash(alloc: Global, subs: &Subs, rails: &[Name], cell: &Sub) -> Result<(), LibFault>
    requires ports { PortsDiffer subs.now }
    requires rails { AllDiffer rails.now }
    requires names { AllDiffer (map body_name cell.now.cards) }
    ensures ok { OnOk result (clash_cause rails.now subs.now cell.now ≡ None) }
    ensures refused { IfErr result (IsCauseIn (clash_cause rails.now subs.now cell.now)) }
{
    match first_clash(alloc, subs, rails, cell)? {
        Some(name) => Err(LibFault::CellClash {
            cell: Name::of(alloc, cell.head().name().as_bytes())?,
            name,
        }),
        None => Ok(()),
    }
}

/// Refuses the first cell in which a name clashes.
pub fn refuse_clashes(alloc: Global, subs: &Subs, rails: &[Name]) -> Result<(), LibFault>
    requires ports { PortsDiffer subs.now }
    requires rails { AllDiffer rails.now }
    requires names { NamesDiffer subs.now }
    ensures ok { OnOk result (clashes_cause rails.now subs.now subs.now ≡ None) }
    ensures refused { IfErr result (IsCauseIn (clashes_cause rails.now subs.now subs.now)) }
{
    let cells = subs.as_slice();
    for cell in cells {
        refuse_clash(alloc, subs, rails, cell)?;
    }
    Ok(())
}
