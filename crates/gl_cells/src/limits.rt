//! The limits on a cell.
ghost use Rattle.std.specs.Prelude.{◌≡◌, ◌+◌, None, min, IfErr, OnOk};
ghost use Rattle.gl_text.specs.Flattening.{count, one};
ghost use Rattle.gl_size.specs.Excesses.{AreSizes};
ghost use Rattle.gl_base.specs.Libraries.{CELL_EXPANDED as MOST_EXPANDED, level_of, limit_cause};
ghost use Rattle.gl_cells.specs.Causes.{IsCauseIn, past_limit};
ghost use Rattle.gl_cells.specs.Limited.{IsCountable};

use crate::{LibFault, Limit, Name, Sub, Subs};
use gl_size::Sizes;
use std::alloc::Global;

/// The most devices and X cards that a cell may have.
const CELL_CARDS: u32 = 256;

/// The most ports that a cell may have.
const PORTS: u32 = 64;

/// The greatest level that a cell may have.
const LEVEL: u32 = 15;

/// The most cards to which a cell may expand.
const CELL_EXPANDED: u32 = 65_536;

/// Refuses a cell that has more of something than it may.
fn refuse_more(
    alloc: Global,
    cell: &Name,
    what: Limit,
    number: u32,
    most: u32,
) -> Result<(), LibFault>
    ensures ok { OnOk result (past_limit cell.now what number most ≡ None) }
    ensures refused { IfErr result (IsCauseIn (past_limit cell.now what number most)) }
{
    if number > most {
        let cell = Name::of(alloc, cell.as_bytes())?;
        return Err(LibFault::CellLimit { cell, what, number });
    }
    Ok(())
}

/// To how many cards a cell expands, itself not counted, or one more than may be where that's less.
fn expanded(subs: &Subs, sizes: &Sizes, cell: &Sub) -> u32
    requires of { AreSizes subs.now sizes.now }
    ensures expanded { result ≡ min (count one subs.now cell.now.cards) (MOST_EXPANDED + 1) }
{
    sizes.cards(subs, cell.cards()).min(CELL_EXPANDED + 1)
}

/// Refuses a cell of this level that breaks a limit: devices before ports, then the level, then cards to which it expands.
pub fn refuse_limits(
    alloc: Global,
    subs: &Subs,
    sizes: &Sizes,
    level: u32,
    cell: &Sub,
) -> Result<(), LibFault>
    requires of { AreSizes subs.now sizes.now }
    requires level { level ≡ level_of subs.now cell.now }
    requires few { IsCountable cell.now }
    ensures ok { OnOk result (limit_cause subs.now cell.now ≡ None) }
    ensures refused { IfErr result (IsCauseIn (limit_cause subs.now cell.now)) }
{
    let name = cell.head().name();
    let devices = cell.cards().len() as u32;
    refuse_more(alloc, name, Limit::Devices, devices, CELL_CARDS)?;
    let ports = cell.head().ports().len() as u32;
    refuse_more(alloc, name, Limit::Ports, ports, PORTS)?;
    refuse_more(alloc, name, Limit::Level, level, LEVEL)?;
    let flat = expanded(subs, sizes, cell);
    refuse_more(alloc, name, Limit::Flat, flat, CELL_EXPANDED)
}
