ghost use Rattle.std.specs.Prelude.{◌≡◌, ◌++◌, ◌∷◌, [], false, List, IfErr, IfOk, OnOk};
ghost use Rattle.std.specs.Map.{keys_of};
ghost use Rattle.gl_fault.specs.Refusals.{when, IsFound, IsRefusal};
ghost use Rattle.gl_text.specs.Decks.{is_in};
ghost use Rattle.gl_lifting.specs.MapReading as reading;
ghost use Rattle.gl_lifting.specs.MapReading.{double_new, is_double, map_by};
ghost use Rattle.gl_map.specs.Refusals.{fault_of};
ghost use Rattle.gl_map.specs.Rows.{row_value};
ghost use Rattle.gl_map.specs.Checks.{named};

use crate::row::Row;
use crate::{MapFault, Memory, Name, NameMap};
use indexmap::IndexMap;
use std::alloc::Global;
use std::marker::Model;

/// A map while it is read: each old name under its new one. Contracts see the map.
#[derive(Drop)]
pub struct Tables {
    devices: IndexMap<Name, Name>,
    nets: IndexMap<Name, Name>,
}

impl Model for Tables {
    ghost use Rattle.gl_lifting.specs.NameMaps.{NameMap as NameMapValue};

    ghost Value = { NameMapValue };

    ghost view = { λ t. record { devices = t.devices.entries; nets = t.nets.entries } };
}

/// Puts an old name under its new one, unless the new one is there.
fn put_names(
    alloc: Global,
    table: &mut IndexMap<Name, Name>,
    line: u32,
    new: &[u8],
    old: &[u8],
) -> Result<(), MapFault>
    ensures single { OnOk result (is_in new.now (keys_of table.old.entries) ≡ false) }
    ensures put { OnOk result (table.new.entries ≡ table.old.entries ++ (new.now, old.now) ∷ []) }
    ensures refused { IfErr result (λ fault. IsFound (fault_of fault) (when (is_in new.now (keys_of table.old.entries)) (double_new line))) }
{
    let new = Name::of(alloc, new)?;
    let old = Name::of(alloc, old)?;
    if table.insert(new, old)?.is_some() {
        return Err(MapFault::DoubleNew { line });
    }
    Ok(())
}

/// The entries of a table, in order.
fn names_of(alloc: Global, table: IndexMap<Name, Name>) -> Result<Vec<(Name, Name)>, Memory>
    ensures names { IfOk result (λ names. names.items ≡ table.entries) }
{
    Ok(table.into_iter().collect(alloc)?)
}

impl Tables {
    /// No names.
    pub fn new(alloc: Global) -> Tables
        ensures none { result ≡ map_by [] }
    {
        Tables {
            devices: IndexMap::new(alloc),
            nets: IndexMap::new(alloc),
        }
    }

    /// Puts the names of the row of a line behind those of others, unless one of these has its new name.
    pub fn put(&mut self, alloc: Global, line: u32, row: &Row<'_>) -> Result<(), MapFault>
        ensures single { OnOk result ((before : List reading.Row) → self.old ≡ map_by before → is_double before (row_value row.now) ≡ false) }
        ensures put { OnOk result ((before : List reading.Row) → self.old ≡ map_by before → self.new ≡ map_by (before ++ row_value row.now ∷ [])) }
        ensures refused { IfErr result (λ fault. (before rows : List reading.Row) → self.old ≡ map_by before
            → IsRefusal (fault_of fault) (named line before (row_value row.now ∷ rows))) }
    {
        match row {
            Row::Device { new, old } => {
                put_names(alloc, &mut self.devices, line, new, old)?;
                Ok(())
            }
            Row::Net { new, old } => {
                put_names(alloc, &mut self.nets, line, new, old)?;
                Ok(())
            }
            Row::End => Ok(()),
        }
    }

    /// The map.
    pub fn into_map(self, alloc: Global) -> Result<NameMap, Memory>
        ensures map { IfOk result (λ map. map ≡ self) }
    {
        let devices = names_of(alloc, self.devices)?;
        let nets = names_of(alloc, self.nets)?;
        Ok(NameMap::of(devices, nets))
    }
}
