ghost use Rattle.std.specs.Prelude.{◌≡◌, ◌<◌, ◌^◌, length, position, true};
ghost use Rattle.gl_text.specs.LogicalLines.{same_text};
ghost use Rattle.gl_text.specs.Decks.{is_in};
ghost use Rattle.gl_base.specs.BaseCircuit.{net_number};

use crate::Name;
use indexmap::IndexSet;
use std::marker::Model;

/// Names that differ, by their numbers from 0. A name is looked up in a table.
#[derive(Debug, Drop)]
pub struct Names {
    set: IndexSet<Name>,
}

impl Model for Names {
    ghost use Rattle.std.specs.Prelude.{ℕ, List, length, ◌<◌, ◌^◌};

    ghost Value = { List (List ℕ) };

    ghost view = { λ n. n.set.keys };

    ghost invariant = { λ n. length n.set.keys < 2 ^ 32 };
}

impl Names {
    /// The names of a set, by their places.
    pub fn of_set(set: IndexSet<Name>) -> Names
        requires few { length set.keys < 2 ^ 32 }
        ensures names { result ≡ set.keys }
    {
        Names { set }
    }

    /// The number of a name, if it is there.
    pub fn find(&self, name: &Name) -> Option<u32>
        ensures number { result ≡ position (same_text name.now) self.now }
    {
        self.set.get_index_of(name).map(|number| number as u32)
    }

    /// A name is there.
    pub fn has(&self, name: &Name) -> bool
        ensures has { result ≡ is_in name.now self.now }
    {
        self.set.contains(name)
    }

    /// The number of a name that is there.
    pub fn number(&self, name: &Name) -> u32
        requires there { is_in name.now self.now ≡ true }
        ensures number { result ≡ net_number self.now name.now }
    {
        self.find(name).unwrap()
    }

    /// How many there are.
    pub fn count(&self) -> u32
        ensures count { result ≡ length self.now }
    {
        self.set.len() as u32
    }

    /// The names, by their numbers.
    pub fn items(&self) -> &[Name]
        ensures items { result.now ≡ self.now }
    {
        self.set.as_slice()
    }
}
