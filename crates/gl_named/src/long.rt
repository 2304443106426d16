//! New names that are longer than a name may be.
ghost use Rattle.std.specs.Prelude.{◌≡◌, length, map, nat_lt};
ghost use Rattle.gl_text.specs.LogicalLines.{NAME};
ghost use Rattle.gl_flat.specs.Kept.{KeptDevice as Kept};
ghost use Rattle.gl_lifting.specs.Counting.{has_longer};
ghost use Rattle.gl_lifting.specs.Renaming.{new_names};
ghost use Rattle.gl_named.specs.Firsts.{at_number};
ghost use Rattle.gl_named.specs.Walks.{renamed_from};

use crate::new_name::new_name;
use gl_flat::KeptDevice;
use gl_map::Name;

/// The most bytes of a name.
const NAME_LENGTH: usize = 1_024;

/// A name has more bytes than a name may have.
fn is_long(name: &Name) -> bool
    ensures long { result ≡ nat_lt NAME (length name.now) }
{
    name.as_bytes().len() > NAME_LENGTH
}

/// A new name of these devices is too long.
pub fn has_long_device(table: &[Option<Name>], devices: &[KeptDevice]) -> bool
    ensures long { result ≡ has_longer NAME (new_names
        (renamed_from (at_number table.now) 0 (map (λ (d : Kept). d.name) devices.now))) }
{
    let mut number: usize = 0;
    for device in devices {
        if is_long(new_name(table, number, device.name())) {
            return true;
        }
        number += 1;
    }
    false
}

/// A new name of these nets is too long.
pub fn has_long_net(table: &[Option<Name>], nets: &[Name]) -> bool
    ensures long { result
        ≡ has_longer NAME (new_names (renamed_from (at_number table.now) 0 nets.now)) }
{
    let mut number: usize = 0;
    for net in nets {
        if is_long(new_name(table, number, net)) {
            return true;
        }
        number += 1;
    }
    false
}
