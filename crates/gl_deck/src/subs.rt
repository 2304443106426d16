ghost use Rattle.std.specs.Prelude.{◌≡◌, ◌<◌, ◌^◌, [], length, option_map, slice_get, Some, IfSome, OnErr, OnOk};
ghost use Rattle.std.specs.List.{IsAmong, IsDistinct};
ghost use Rattle.std.specs.Option.{option_copied};
ghost use Rattle.indexmap.specs.IndexMap.{insert_entry};
ghost use Rattle.gl_text.specs.LogicalLines.{same_text};
ghost use Rattle.gl_text.specs.Decks.{find_sub};
ghost use Rattle.gl_deck.specs.Bodies.{names_of, table_of};
ghost use Rattle.gl_deck.specs.Places.{place_in};

use crate::{Memory, Name, Sub};
use indexmap::IndexMap;
use std::alloc::Global;
use std::marker::Model;

/// The subcircuits of a deck, no two of one name, in the order of their `.subckt` cards. Contracts see them as that list; a
/// subcircuit is found by its name in one look.
#[derive(Debug, Drop)]
pub struct Subs {
    /// Each under its name.
    table: IndexMap<Name, Sub>,
}

impl Model for Subs {
    ghost use Rattle.std.specs.Prelude.{◌≡◌, List};
    ghost use Rattle.indexmap.specs.IndexMap.{keys, values};
    ghost use Rattle.gl_text.specs.Decks.{Sub as SubValue};
    ghost use Rattle.gl_deck.specs.Bodies.{names_of};

    ghost Value = { List SubValue };

    ghost view = { λ s. values s.table };

    ghost invariant = { λ s. keys s.table ≡ names_of (values s.table) };
}

impl Subs {
    /// No subcircuits.
    pub fn new(alloc: Global) -> Subs
        ensures none { result ≡ [] }
    {
        Subs {
            table: IndexMap::new(alloc),
        }
    }

    /// How many there are.
    pub fn len(&self) -> usize
        ensures len { result ≡ length self.now }
        ensures names_differ { IsDistinct same_text (names_of self.now) }
    {
        self.table.len()
    }

    /// The subcircuits in order.
    pub fn as_slice(&self) -> &[Sub]
        ensures subs { result.now ≡ self.now }
        ensures fits { length self.now < 2 ^ 63 }
    {
        self.table.values().as_slice()
    }

    /// The subcircuit of this name.
    pub fn get(&self, name: &Name) -> Option<&Sub>
        ensures found { option_copied result ≡ find_sub self.now name.now }
        ensures among { IfSome result (λ s. IsAmong self.now s.now) }
    {
        self.table.get(name)
    }

    /// Where the subcircuit of this name stands.
    pub fn place_of(&self, name: &Name) -> Option<usize>
        ensures place { result ≡ place_in self.now name.now }
    {
        self.table.get_index_of(name)
    }

    /// The subcircuit of this name, and where it stands.
    pub fn find(&self, name: &Name) -> Option<(usize, &Sub)>
        ensures found { option_map (λ p. p.1.now) result ≡ find_sub self.now name.now }
        ensures place { IfSome result (λ p. slice_get self.now p.0 ≡ Some p.1.now) }
    {
        let (place, _, sub) = self.table.get_full(name)?;
        Some((place, sub))
    }

    /// Puts a subcircuit behind the others, or in the place of the one of its name. Where no memory is found nothing changes.
    pub fn insert(&mut self, alloc: Global, sub: Sub) -> Result<(), Memory>
        ensures inserted { OnOk result
            (table_of self.new ≡ insert_entry same_text (table_of self.old) sub.head.name sub) }
        ensures kept { OnErr result (self.new ≡ self.old) }
    {
        let name = Name::of(alloc, sub.head().name().as_bytes())?;
        self.table.insert(name, sub)?;
        Ok(())
    }
}
