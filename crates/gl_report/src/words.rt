ghost use Rattle.std.specs.Prelude.{◌≡◌, ◌∷◌, ◌++◌, [], OnOk, codes};
ghost use Rattle.std.specs.Fmt.{decimal};
ghost use Rattle.gl_base.specs.Reports.{part};
ghost use Rattle.gl_base.specs.RoundReports.{instance_name, fate_words, reason_words};
ghost use Rattle.gl_cells.specs.Skips.{skip_value};
ghost use Rattle.gl_report.specs.Pieces.{behind_blanks};

use gl_cells::Skip;
use gl_match::{Memory, Pick};
use itoa::Buffer;

/// Appends bytes. What stood before stays, also where no memory is found.
pub fn put(out: &mut Vec<u8>, bytes: &[u8]) -> Result<(), Memory>
    ensures ok { OnOk result (out.new.items ≡ out.old.items ++ bytes.now) }
{
    out.extend_from_slice(bytes)?;
    Ok(())
}

/// Appends a number in decimal.
pub fn put_number(out: &mut Vec<u8>, number: usize) -> Result<(), Memory>
    ensures ok { OnOk result (out.new.items ≡ out.old.items ++ decimal number) }
{
    put(out, Buffer::new().format(number).as_bytes())
}

/// Appends a blank and `NAME=`, the front of a part.
pub fn put_front(out: &mut Vec<u8>, name: &[u8]) -> Result<(), Memory>
    ensures ok { OnOk result (out.new.items ≡ out.old.items ++ 32 ∷ (name.now ++ codes "=")) }
{
    put(out, b" ")?;
    put(out, name)?;
    put(out, b"=")
}

/// Appends a blank and `NAME=IMAGE`.
pub fn put_part(out: &mut Vec<u8>, name: &[u8], image: &[u8]) -> Result<(), Memory>
    ensures ok { OnOk result (out.new.items ≡ out.old.items ++ 32 ∷ part (name.now, image.now)) }
{
    put_front(out, name)?;
    put(out, image)
}

/// Appends the name of a chosen instance.
pub fn put_chosen(out: &mut Vec<u8>, stem: &[u8], number: u32) -> Result<(), Memory>
    ensures ok { OnOk result (out.new.items ≡ out.old.items ++ instance_name stem.now number) }
{
    put(out, stem)?;
    put_number(out, number as usize)
}

/// Appends what became of an instance: a blank, `over` and a blank if it is not chosen, and the name of the chosen one.
pub fn put_fate(out: &mut Vec<u8>, stem: &[u8], pick: Pick) -> Result<(), Memory>
    ensures ok { OnOk result (out.new.items ≡ out.old.items ++ behind_blanks (fate_words stem.now pick)) }
{
    match pick {
        Pick::Taken(number) => {
            put(out, b" ")?;
            put_chosen(out, stem, number)
        }
        Pick::Over(number) => {
            put(out, b" over ")?;
            put_chosen(out, stem, number)
        }
    }
}

/// Appends why a cell was skipped, each word behind a blank.
pub fn put_reason(out: &mut Vec<u8>, skip: &Skip) -> Result<(), Memory>
    ensures ok { OnOk result (out.new.items ≡ out.old.items ++ behind_blanks (reason_words (skip_value skip.now))) }
{
    match skip {
        Skip::Empty => put(out, b" empty"),
        Skip::Loose(port) => {
            put(out, b" loose ")?;
            put(out, port.as_bytes())
        }
        Skip::Uses(cell) => {
            put(out, b" uses ")?;
            put(out, cell.as_bytes())
        }
    }
}
