ghost use Rattle.std.specs.Prelude.{◌≡◌, ◌++◌, OnOk, take, length};
ghost use Rattle.std.specs.Fmt.{decimal};

use gl_match::Memory;
use itoa::Buffer;

/// Appends bytes. What stood before stays, also where no memory is found.
pub fn put(out: &mut Vec<u8>, bytes: &[u8]) -> Result<(), Memory>
    ensures ok { OnOk result (out.new.items ≡ out.old.items ++ bytes.now) }
    ensures front { take (length out.old.items) out.new.items ≡ out.old.items }
{
    out.extend_from_slice(bytes)?;
    Ok(())
}

/// Appends a number in decimal.
pub fn put_number(out: &mut Vec<u8>, number: usize) -> Result<(), Memory>
    ensures ok { OnOk result (out.new.items ≡ out.old.items ++ decimal number) }
    ensures front { take (length out.old.items) out.new.items ≡ out.old.items }
{
    put(out, Buffer::new().format(number).as_bytes())
}
