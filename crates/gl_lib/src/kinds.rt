ghost use Rattle.std.specs.Prelude.{◌≡◌, ◌+◌, ◌<◌, ◌^◌, ◌++◌, ◌∷◌, [], length, map, IfOk, OnOk, true};
ghost use Rattle.std.specs.List.{list_any};
ghost use Rattle.indexmap.specs.IndexMap.{get};
ghost use Rattle.indexmap.specs.IndexSet.{insert_all};
ghost use Rattle.gl_text.specs.LogicalLines.{same_text};
ghost use Rattle.gl_base.specs.TypeNames.{same_type, type_by, each_once, classes_of};
ghost use Rattle.gl_text.specs.CellCards.{devices_in};
ghost use Rattle.gl_base.specs.BaseCircuit.{type_number};
ghost use Rattle.gl_lib.specs.Sources.{cards_of_cells};
ghost use Rattle.gl_lib.specs.Sources as flat;

use crate::cells::cards_of;
use crate::type_name::TypeName;
use crate::words::{Words, flat_type, type_of};
use gl_card::DevCard;
use gl_cells::Sub;
use gl_flat::KeptDevice;
use gl_graph::{Shape, TypeId};
use indexmap::IndexSet;
use std::alloc::{AllocError, Global};
use std::marker::Model;

/// Types that differ, by their numbers from 0. A type is looked up in a table.
#[derive(Drop)]
pub struct Kinds {
    set: IndexSet<TypeName>,
}

impl Model for Kinds {
    ghost use Rattle.std.specs.Prelude.{List, length, ◌<◌, ◌^◌};
    ghost use Rattle.gl_base.specs.TypeNames.{TypeName as NameOfType};

    ghost Value = { List NameOfType };

    ghost view = { λ k. k.set.keys };

    ghost invariant = { λ k. length k.set.keys < 2 ^ 32 };
}

/// Adds the types of flat devices, each that is not there.
fn add_flat_types(
    alloc: Global,
    set: &mut IndexSet<TypeName>,
    words: &Words,
    devices: &[KeptDevice],
) -> Result<(), AllocError>
    ensures added { OnOk result (set.new.keys ≡ insert_all same_type set.old.keys (map (flat.type_of_flat (type_by (get same_text words.now))) devices.now)) }
{
    for device in devices {
        set.insert(flat_type(alloc, words, device)?)?;
    }
    Ok(())
}

/// Adds the types of cards, each that is not there.
fn add_types(
    alloc: Global,
    set: &mut IndexSet<TypeName>,
    words: &Words,
    cards: &[&DevCard],
) -> Result<(), AllocError>
    ensures added { OnOk result (set.new.keys ≡ insert_all same_type set.old.keys (map (type_by (get same_text words.now)) (map (λ c. c.now) cards.now))) }
{
    for card in cards {
        set.insert(type_of(alloc, words, card)?)?;
    }
    Ok(())
}

/// Adds the types of the devices of a cell, each that is not there.
fn add_cell_types(
    alloc: Global,
    set: &mut IndexSet<TypeName>,
    words: &Words,
    cell: &Sub,
) -> Result<(), AllocError>
    ensures added { OnOk result (set.new.keys ≡ insert_all same_type set.old.keys (map (type_by (get same_text words.now)) (devices_in cell.now.cards))) }
{
    let cards = cards_of(alloc, cell.cards())?;
    add_types(alloc, set, words, &cards)
}

/// Adds the types of the devices of cells, each that is not there.
fn add_library_types(
    alloc: Global,
    set: &mut IndexSet<TypeName>,
    words: &Words,
    cells: &[Sub],
) -> Result<(), AllocError>
    ensures added { OnOk result (set.new.keys ≡ insert_all same_type set.old.keys (map (type_by (get same_text words.now)) (cards_of_cells cells.now))) }
{
    for cell in cells {
        add_cell_types(alloc, set, words, cell)?;
    }
    Ok(())
}

impl Kinds {
    /// The types of a flat deck's devices and then those of all cells' devices, each once in order of first appearance.
    pub fn of(
        alloc: Global,
        words: &Words,
        devices: &[KeptDevice],
        cells: &[Sub],
    ) -> Result<Kinds, AllocError>
        requires { length devices.now + length (cards_of_cells cells.now) < 2 ^ 32 }
        ensures types { IfOk result (λ kinds. kinds ≡ each_once (map (flat.type_of_flat (type_by (get same_text words.now))) devices.now ++ map (type_by (get same_text words.now)) (cards_of_cells cells.now))) }
    {
        let mut set = IndexSet::new(alloc);
        add_flat_types(alloc, &mut set, words, devices)?;
        add_library_types(alloc, &mut set, words, cells)?;
        Ok(Kinds { set })
    }

    /// The number of a type that is there.
    pub fn number(&self, kind: &TypeName) -> TypeId
        requires { list_any (same_type kind.now) self.now ≡ true }
        ensures number { result ≡ type_number self.now kind.now }
    {
        let number = self.set.get_index_of(kind).unwrap();
        TypeId(number as u32)
    }

    /// How many there are.
    pub fn count(&self) -> u32
        ensures count { result ≡ length self.now }
    {
        self.set.len() as u32
    }

    /// The shapes of the types, by their numbers.
    pub fn shapes(&self, alloc: Global) -> Result<Vec<Shape>, AllocError>
        ensures shapes { IfOk result (λ shapes. shapes.items ≡ map classes_of self.now) }
    {
        let mut shapes = Vec::with_capacity(alloc, self.set.len())?;
        for kind in self.set.as_slice() {
            shapes.push(kind.shape(alloc)?)?;
        }
        Ok(shapes)
    }
}
