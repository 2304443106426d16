ghost use Rattle.std.specs.Prelude.{◌≡◌, ◌∷◌, ◌++◌, [], OnOk, codes};
ghost use Rattle.std.specs.Fmt.{decimal};
ghost use Rattle.std.specs.List.{join_with_byte};
ghost use Rattle.gl_base.specs.Reports.{line, cell_words};
ghost use Rattle.gl_base.specs.RoundReports.{found_words, reason_words};
ghost use Rattle.gl_cells.specs.Skips.{skip_value};

use crate::names::RoundNames;
use crate::parts::{put_images, put_ports};
use crate::words::{put, put_fate, put_number, put_reason};
use gl_cells::Skip;
use gl_deck::Sub;
use gl_legal::Instance;
use gl_match::{Memory, Pick};

/// Appends the name of a searched cell, how many ports it has, and how many instances.
fn put_counts(out: &mut Vec<u8>, name: &[u8], ports: usize, instances: usize) -> Result<(), Memory>
    ensures ok { OnOk result (out.new.items ≡ out.old.items ++ join_with_byte 32 (cell_words name.now ports instances)) }
{
    put(out, b"cell ")?;
    put(out, name)?;
    put(out, b" ports ")?;
    put_number(out, ports)?;
    put(out, b" instances ")?;
    put_number(out, instances)
}

/// Appends the line of a searched cell: how many ports it has, how many instances, and how many of them are chosen.
pub fn put_cell(
    out: &mut Vec<u8>,
    name: &[u8],
    ports: usize,
    instances: usize,
    chosen: usize,
) -> Result<(), Memory>
    ensures ok { OnOk result (out.new.items ≡ out.old.items
        ++ line (cell_words name.now ports instances ++ codes "chosen" ∷ decimal chosen ∷ [])) }
{
    put_counts(out, name, ports, instances)?;
    put(out, b" chosen ")?;
    put_number(out, chosen)?;
    put(out, b"\n")
}

/// Appends the line of a skipped cell.
pub fn put_skipped(out: &mut Vec<u8>, name: &[u8], skip: &Skip) -> Result<(), Memory>
    ensures ok { OnOk result (out.new.items ≡ out.old.items
        ++ line (codes "cell" ∷ name.now ∷ codes "skipped" ∷ reason_words (skip_value skip.now))) }
{
    put(out, b"cell ")?;
    put(out, name)?;
    put(out, b" skipped")?;
    put_reason(out, skip)?;
    put(out, b"\n")
}

/// Appends the line of an instance of a cell, with its number and its pick.
pub fn put_instance(
    out: &mut Vec<u8>,
    names: &RoundNames<'_>,
    cell: &Sub,
    number: usize,
    item: &Instance,
    pick: Pick,
) -> Result<(), Memory>
    ensures ok { OnOk result (out.new.items ≡ out.old.items
        ++ line (found_words names.now.run names.now.devices cell.now (number, (item.now, pick)))) }
{
    let key = &item.key;
    put_number(out, number)?;
    put_fate(out, names.stem, pick)?;
    put_ports(
        out,
        cell.head().ports(),
        names.flat.nets().items(),
        &key.binding,
    )?;
    put(out, b" |")?;
    put_images(out, names, cell.cards(), &item.least)?;
    put(out, b"\n")
}
