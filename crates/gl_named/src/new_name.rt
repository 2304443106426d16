//! The new name of a number.
ghost use Rattle.std.specs.Prelude.{◌≡◌, unwrap_or};
ghost use Rattle.gl_named.specs.Firsts.{at_number};

use crate::firsts::look_up;
use gl_map::Name;

/// The new name of a number, or else the old one.
pub fn new_name<'a>(table: &'a [Option<Name>], number: usize, old: &'a Name) -> &'a Name
    ensures name { result.now ≡ unwrap_or (at_number table.now number) old.now }
{
    match look_up(table, number) {
        Some(new) => new,
        None => old,
    }
}
