ghost use Rattle.std.specs.Prelude.{◌≡◌, ◌≤◌, ◌+◌, ◌<◌, ◌^◌, [], codes, length, map, IfOk};
ghost use Rattle.gl_text.specs.LogicalLines.{FILE, same_text};
ghost use Rattle.gl_lifting.specs.MapReading.{map_by_rows, read_map};
ghost use Rattle.gl_lifting.specs.Chain.{HasNames};
ghost use Rattle.gl_map.specs.Refusals.{Gives};
ghost use Rattle.gl_map.specs.Rows.{row_value, rows_in};
ghost use Rattle.gl_map.specs.Checks.{named};

use crate::row::Row;
use crate::rows::rows_of;
use crate::tables::Tables;
use crate::{MapFault, NameMap};
use gl_line::split_title;
use std::alloc::Global;

/// The map of rows, or the first whose new name has an earlier row.
fn map_of(alloc: Global, rows: &[Row<'_>]) -> Result<NameMap, MapFault>
    requires few { length rows.now + 2 < 2 ^ 32 }
    ensures map { Gives result (named 2 [] (map row_value rows.now)) }
{
    let mut tables = Tables::new(alloc);
    let mut line: u32 = 2;
    for row in rows {
        tables.put(alloc, line, row)?;
        line += 1;
    }
    Ok(tables.into_map(alloc)?)
}

/// A line is the header of a map.
fn is_header(line: &[u8]) -> bool
    ensures is_header { result ≡ same_text line.now (codes "gatelift map 1") }
{
    line == b"gatelift map 1".as_slice()
}

/// The map of the lines behind its header, or their first refusal.
fn map_behind(alloc: Global, bytes: &[u8]) -> Result<NameMap, MapFault>
    requires size { length bytes.now ≤ FILE }
    ensures map { Gives result (map_by_rows (rows_in bytes.now)) }
{
    let rows = rows_of(alloc, bytes)?;
    if rows.has_end() {
        map_of(alloc, rows.items())
    } else {
        Err(MapFault::NoEnd)
    }
}

impl NameMap {
    /// The map of a text, or its first refusal. Lines end at newlines, and the carriage returns at their ends are dropped; what
    /// stands between two single spaces is a part. A name is 1 to 1,024 bytes without newlines, separators and large letters.
    /// The time goes by the bytes.
    pub fn read(alloc: Global, bytes: &[u8]) -> Result<NameMap, MapFault>
        requires size { length bytes.now ≤ FILE }
        ensures read { Gives result (read_map bytes.now) }
        ensures names { IfOk result HasNames }
        ensures few { IfOk result (λ map. length map.devices + length map.nets ≤ length bytes.now) }
    {
        let (header, behind) = split_title(bytes);
        if is_header(header) {
            map_behind(alloc, behind)
        } else {
            Err(MapFault::BadHeader)
        }
    }
}
