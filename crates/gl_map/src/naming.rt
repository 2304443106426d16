ghost use Rattle.std.specs.Prelude.{◌≡◌, ◌++◌, ◌∷◌, [], OnOk, length, take};
ghost use Rattle.std.specs.Fmt.{decimal};
ghost use Rattle.gl_text.specs.Cards as cards;
ghost use Rattle.gl_text.specs.Cards.{Device as Card};
ghost use Rattle.gl_text.specs.Flattening.{device_name, net_name, path_text};
ghost use Rattle.gl_base.specs.RoundReports.{instance_name};
ghost use Rattle.gl_lifting.specs.Variants.{variant_name};

use crate::print::put;
use crate::{Memory, Name};
use itoa::Buffer;

/// Appends a number in decimal.
fn put_number(out: &mut Vec<u8>, number: u32) -> Result<(), Memory>
    ensures ok { OnOk result (out.new.items ≡ out.old.items ++ decimal number) }
    ensures front { take (length out.old.items) out.new.items ≡ out.old.items }
{
    put(out, Buffer::new().format(number).as_bytes())
}

/// Appends the name of a chosen instance: the stem and its number.
pub fn put_instance_name(out: &mut Vec<u8>, stem: &[u8], number: u32) -> Result<(), Memory>
    ensures ok { OnOk result (out.new.items ≡ out.old.items ++ instance_name stem.now number) }
    ensures front { take (length out.old.items) out.new.items ≡ out.old.items }
{
    put(out, stem)?;
    put_number(out, number)
}

/// Appends the name of a cell's variant: `CELL_vN`.
pub fn put_variant_name(out: &mut Vec<u8>, cell: &[u8], number: u32) -> Result<(), Memory>
    ensures ok { OnOk result (out.new.items ≡ out.old.items ++ variant_name cell.now number) }
    ensures front { take (length out.old.items) out.new.items ≡ out.old.items }
{
    put(out, cell)?;
    put(out, b"_v")?;
    put_number(out, number)
}

/// Appends the name of an X card and a dot.
fn put_step(out: &mut Vec<u8>, name: &Name) -> Result<(), Memory>
    ensures ok { OnOk result (out.new.items ≡ out.old.items ++ path_text (name.now ∷ [])) }
    ensures front { take (length out.old.items) out.new.items ≡ out.old.items }
{
    put(out, name.as_bytes())?;
    put(out, b".")
}

/// Appends the names of X cards, the outermost first, each with a dot behind it.
fn put_way(out: &mut Vec<u8>, way: &[Name]) -> Result<(), Memory>
    ensures ok { OnOk result (out.new.items ≡ out.old.items ++ path_text way.now) }
    ensures front { take (length out.old.items) out.new.items ≡ out.old.items }
{
    for name in way {
        put_step(out, name)?;
    }
    Ok(())
}

/// Appends the flat name of a net behind X cards, the outermost first.
pub fn put_net_name(out: &mut Vec<u8>, way: &[Name], net: &[u8]) -> Result<(), Memory>
    ensures ok { OnOk result (out.new.items ≡ out.old.items ++ net_name (record { path = way.now; name = net.now })) }
    ensures front { take (length out.old.items) out.new.items ≡ out.old.items }
{
    put_way(out, way)?;
    put(out, net)
}

/// The first byte of a name; 0 where there is none.
fn first_byte(name: &[u8]) -> u8
    ensures byte { result ≡ cards.first_byte name.now }
{
    match name {
        [byte, ..] => *byte,
        [] => 0,
    }
}

/// Appends the flat name of a device behind X cards, the outermost first: its letter, a dot, the way and its own name; its own name
/// alone where there is no X card.
pub fn put_device_name(out: &mut Vec<u8>, way: &[Name], name: &[u8]) -> Result<(), Memory>
    ensures ok { OnOk result ((d : Card) → d.name ≡ name.now
        → out.new.items ≡ out.old.items ++ device_name (record { path = way.now; card = d; nets = [] })) }
    ensures front { take (length out.old.items) out.new.items ≡ out.old.items }
{
    if way.is_empty() {
        return put(out, name);
    }
    put(out, &[first_byte(name)])?;
    put(out, b".")?;
    put_way(out, way)?;
    put(out, name)
}
