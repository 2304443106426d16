ghost use Rattle.std.specs.Prelude.{◌≡◌, ◌≤◌, ◌++◌, ◌∷◌, [], length, map, false, List, not, OnOk, IfOk, IfErr};
ghost use Rattle.std.specs.List.{list_any};
ghost use Rattle.gl_fault.specs.Refusals.{GivesAs, IsRefusal};
ghost use Rattle.gl_text.specs.LogicalLines.{FILE};
ghost use Rattle.gl_lifting.specs.MapReading as reading;
ghost use Rattle.gl_lifting.specs.MapReading.{is_ending, is_misplaced};
ghost use Rattle.gl_map.specs.Refusals.{fault_of};
ghost use Rattle.gl_map.specs.Rows.{row_seen, row_value, rows_in};
ghost use Rattle.gl_map.specs.Checks.{placed};

use crate::MapFault;
use crate::row::{Row, row_of};
use gl_line::{Memory, split_title};
use std::alloc::Global;
use std::marker::Model;

/// Rows in order, and what may stand behind them. Contracts see the rows.
#[derive(Drop)]
pub struct Rows<'a> {
    rows: Vec<Row<'a>>,
    /// There is a row of a net.
    has_net: bool,
    /// There is the end.
    has_end: bool,
}

impl<'a> Model for Rows<'a> {
    ghost use Rattle.std.specs.Prelude.{◌≡◌, List, map};
    ghost use Rattle.std.specs.List.{list_any};
    ghost use Rattle.gl_lifting.specs.MapReading.{Row as RowValue, is_net, is_ending};
    ghost use Rattle.gl_map.specs.Rows.{row_value};

    ghost Value = { List RowValue };

    ghost view = { λ r. map row_value r.rows.items };

    ghost invariant = { λ r. (r.has_net ≡ list_any is_net (map row_value r.rows.items)) × (r.has_end ≡ list_any is_ending (map row_value r.rows.items)) };
}

impl<'a> Rows<'a> {
    /// No rows.
    fn new(alloc: Global) -> Rows<'a>
        ensures none { result ≡ [] }
    {
        Rows {
            rows: Vec::new(alloc),
            has_net: false,
            has_end: false,
        }
    }

    /// The rows.
    pub fn items(&self) -> &[Row<'a>]
        ensures items { map row_value result.now ≡ self.now }
    {
        &self.rows
    }

    /// The end is there.
    pub fn has_end(&self) -> bool
        ensures end { result ≡ list_any is_ending self.now }
    {
        self.has_end
    }

    /// A row may stand behind these.
    fn accepts(&self, row: &Row<'_>) -> bool
        ensures accepts { result ≡ not (is_misplaced self.now (row_value row.now)) }
    {
        match row {
            Row::Device { .. } => !self.has_end && !self.has_net,
            Row::Net { .. } | Row::End => !self.has_end,
        }
    }

    /// Puts a row behind these.
    fn push(&mut self, row: Row<'a>) -> Result<(), Memory>
        ensures pushed { OnOk result (self.new ≡ self.old ++ row_value row.entry ∷ []) }
    {
        self.rows.push(row)?;
        match row {
            Row::Device { .. } => {}
            Row::Net { .. } => self.has_net = true,
            Row::End => self.has_end = true,
        }
        Ok(())
    }

    /// Puts the row of a line behind these, unless it may not stand there.
    fn take(&mut self, line: u32, row: Option<Row<'a>>) -> Result<(), MapFault>
        ensures ok { OnOk result (self.new ≡ self.old ++ row_seen row.entry ∷ []) }
        ensures placed { OnOk result (is_misplaced self.old (row_seen row.entry) ≡ false) }
        ensures refused { IfErr result (λ fault. (rows : List reading.Row) → IsRefusal (fault_of fault) (placed line self.old (row_seen row.entry ∷ rows))) }
    {
        match row {
            Some(row) if self.accepts(&row) => {
                self.push(row)?;
                Ok(())
            }
            _ => Err(MapFault::BadLine { line }),
        }
    }
}

/// The rows of the lines behind the header, or the first line that may not stand where it does.
pub fn rows_of<'a>(alloc: Global, bytes: &'a [u8]) -> Result<Rows<'a>, MapFault>
    requires size { length bytes.now ≤ FILE }
    ensures rows { GivesAs fault_of (λ rows. rows) result (placed 2 [] (rows_in bytes.now)) }
    ensures few { IfOk result (λ rows. length rows ≤ length bytes.now) }
{
    let mut rows = Rows::new(alloc);
    let mut rest = bytes;
    let mut line: u32 = 2;
    while !rest.is_empty() {
        let (text, behind) = split_title(rest);
        rows.take(line, row_of(text))?;
        rest = behind;
        line += 1;
    }
    Ok(rows)
}
