//! The new names of nets, by their numbers.
ghost use Rattle.std.specs.Prelude.{◌≡◌};
ghost use Rattle.gl_base.specs.Reports.{name_at};

use crate::new_name::new_name;
use gl_map::Name;
use std::marker::Model;

/// Nets by their numbers: what stands under these, and the old names. Contracts see the new names.
#[derive(Drop)]
pub struct NewNets<'a> {
    /// The new names that are known.
    pub table: &'a [Option<Name>],
    /// The old names.
    pub olds: &'a [Name],
}

impl<'a> Model for NewNets<'a> {
    ghost use Rattle.std.specs.Prelude.{ℕ, List};
    ghost use Rattle.gl_lifting.specs.Renaming.{new_names};
    ghost use Rattle.gl_named.specs.Firsts.{at_number};
    ghost use Rattle.gl_named.specs.Walks.{renamed_from};

    ghost Value = { List (List ℕ) };

    ghost view = { λ n. new_names (renamed_from (at_number n.table.now) 0 n.olds.now) };
}

impl<'a> NewNets<'a> {
    /// The new name of a net, by its number; empty where there is none.
    pub fn name(&self, number: u32) -> &'a [u8]
        ensures name { result.now ≡ name_at self.now number }
    {
        let number = number as usize;
        match self.olds.get(number) {
            Some(old) => new_name(self.table, number, old).as_bytes(),
            None => &[],
        }
    }
}
