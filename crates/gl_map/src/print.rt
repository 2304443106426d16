ghost use Rattle.std.specs.Prelude.{◌≡◌, ◌++◌, ◌∷◌, [], codes, flat_map, is_ok, length, take, OnOk, if◌then◌else◌};
ghost use Rattle.gl_base.specs.Reports.{line};
ghost use Rattle.gl_lifting.specs.NameMaps.{map_line, map_text};

use crate::{Memory, Name, NameMap};

/// Appends bytes.
pub fn put(out: &mut Vec<u8>, bytes: &[u8]) -> Result<(), Memory>
    ensures ok { OnOk result (out.new.items ≡ out.old.items ++ bytes.now) }
    ensures front { take (length out.old.items) out.new.items ≡ out.old.items }
{
    out.extend_from_slice(bytes)?;
    Ok(())
}

/// Appends the line that opens a map.
pub fn put_map_header(out: &mut Vec<u8>) -> Result<(), Memory>
    ensures ok { OnOk result (out.new.items ≡ out.old.items ++ line (codes "gatelift map 1" ∷ [])) }
    ensures front { take (length out.old.items) out.new.items ≡ out.old.items }
{
    put(out, b"gatelift map 1\n")
}

/// Appends the line that closes a map.
pub fn put_map_end(out: &mut Vec<u8>) -> Result<(), Memory>
    ensures ok { OnOk result (out.new.items ≡ out.old.items ++ line (codes "end" ∷ [])) }
    ensures front { take (length out.old.items) out.new.items ≡ out.old.items }
{
    put(out, b"end\n")
}

/// Appends a line of a map: a word, `device` or `net`, the new name and the old one.
pub fn put_map_line(out: &mut Vec<u8>, word: &[u8], new: &Name, old: &Name) -> Result<(), Memory>
    ensures ok { OnOk result (out.new.items ≡ out.old.items ++ map_line word.now (new.now, old.now)) }
    ensures front { take (length out.old.items) out.new.items ≡ out.old.items }
{
    put(out, word)?;
    put(out, b" ")?;
    put(out, new.as_bytes())?;
    put(out, b" ")?;
    put(out, old.as_bytes())?;
    put(out, b"\n")
}

/// Appends a line for each of the names.
fn put_lines(out: &mut Vec<u8>, word: &[u8], names: &[(Name, Name)]) -> Result<(), Memory>
    ensures ok { OnOk result (out.new.items ≡ out.old.items ++ flat_map (map_line word.now) names.now) }
    ensures front { take (length out.old.items) out.new.items ≡ out.old.items }
{
    for (new, old) in names {
        put_map_line(out, word, new, old)?;
    }
    Ok(())
}

/// Appends the map. What stood before stays, also where no memory is found.
fn put_map(out: &mut Vec<u8>, map: &NameMap) -> Result<(), Memory>
    ensures ok { OnOk result (out.new.items ≡ out.old.items ++ map_text map.now) }
    ensures front { take (length out.old.items) out.new.items ≡ out.old.items }
{
    put_map_header(out)?;
    put_lines(out, b"device", map.devices())?;
    put_lines(out, b"net", map.nets())?;
    put_map_end(out)
}

impl NameMap {
    /// Appends the map's text: the header, a `device` line for each device, a `net` line for each net, and `end`. Without memory
    /// for all of it nothing is appended.
    pub fn print(&self, out: &mut Vec<u8>) -> Result<(), Memory>
        ensures printed { out.new.items ≡ (if is_ok result then out.old.items ++ map_text self.now else out.old.items) }
    {
        let start = out.len();
        if put_map(out, self).is_err() {
            out.truncate(start);
            return Err(Memory);
        }
        Ok(())
    }
}
