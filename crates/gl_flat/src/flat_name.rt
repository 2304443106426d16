ghost use Rattle.std.specs.Prelude.{◌≡◌, IfOk};

use crate::Name;
use crate::copy::name_copy;
use std::alloc::{AllocError, Global};
use std::marker::Model;

/// The flat name of a net: its own name where it is a net of the top, which is not copied, else a text that was made. Contracts
/// see the name.
#[derive(Drop)]
pub struct FlatName<'a> {
    /// The net's name in its scope.
    pub own: &'a Name,
    /// The text that was made.
    pub made: Option<Name>,
}

impl<'a> Model for FlatName<'a> {
    ghost use Rattle.std.specs.Prelude.{ℕ, List, unwrap_or};

    ghost Value = { List ℕ };

    ghost view = { λ n. unwrap_or n.made n.own.now };
}

impl<'a> FlatName<'a> {
    /// The name.
    pub fn as_name(&self) -> &Name
        ensures name { result.now ≡ self.now }
    {
        match &self.made {
            Some(name) => name,
            None => self.own,
        }
    }

    /// The name, as one that may be kept.
    pub fn into_name(self, alloc: Global) -> Result<Name, AllocError>
        ensures name { IfOk result (λ name. name ≡ self.entry) }
    {
        match self.made {
            Some(name) => Ok(name),
            None => name_copy(alloc, self.own),
        }
    }
}
