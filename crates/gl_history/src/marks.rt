//! Which devices of a circuit the chosen instances of a round replace, and by what.
ghost use Rattle.std.specs.Prelude.{◌≡◌, ◌<◌, ◌++◌, ◌∷◌, [], List, length, All, IfOk, OnOk};
ghost use Rattle.std.specs.List.{zip};
ghost use Rattle.gl_history.specs.Plain.{RoundCell as Found};
ghost use Rattle.gl_history.specs.Replacing.{Chosen, chosen_of_cell, chosen_of};
ghost use Rattle.gl_history.specs.Marks.{Holds, AreBelow, made_slot, chosen_among};

use crate::fate::{Fate, mark};
use crate::slot::Slot;
use crate::{Cell, Origin, RoundCell};
use gl_graph::{Device, NetId, TypeId};
use gl_legal::{InstKey, Instance};
use gl_match::{Memory, Pick};
use std::alloc::Global;

/// What becomes of each device of a circuit, and what chosen instances make.
#[derive(Drop)]
pub struct Marks {
    /// What becomes of each device.
    pub fates: Vec<Fate>,
    /// The device that stands for each chosen instance, in their order.
    pub slots: Vec<Slot>,
}

/// The device that stands for a chosen instance of a number.
fn new_slot(alloc: Global, kind: TypeId, number: u32, binding: &[NetId]) -> Result<Slot, Memory>
    ensures slot { IfOk result (λ slot. slot ≡ made_slot kind number binding.now) }
{
    let nets = binding.to_vec(alloc)?;
    let device = Device { kind, nets };
    let origin = Origin::Made(number);
    Ok(Slot { device, origin })
}

impl Marks {
    /// Every device of a circuit stays.
    pub fn none(alloc: Global, devices: u32) -> Result<Marks, Memory>
        ensures marked { IfOk result (λ m. Holds m []) }
        ensures devices { IfOk result (λ m. length m.fates.items ≡ devices) }
    {
        Ok(Marks {
            fates: vec![in alloc; Fate::Stays; devices as usize]?,
            slots: Vec::new(alloc),
        })
    }
}

/// Marks a chosen instance of a number.
fn add_chosen(
    alloc: Global,
    marks: &mut Marks,
    kind: TypeId,
    number: u32,
    key: &InstKey,
) -> Result<(), Memory>
    requires below { All (λ dev. dev < length marks.old.fates.items) key.now.set }
    ensures marked { OnOk result ((before : List Chosen) → Holds marks.old before
        → Holds marks.new (before ++ record {
          set = key.now.set;
          slot = made_slot kind number key.now.binding;
        } ∷ [])) }
    ensures devices { length marks.new.fates.items ≡ length marks.old.fates.items }
{
    let index = marks.slots.len();
    mark(&mut marks.fates, &key.set, index);
    marks
        .slots
        .push(new_slot(alloc, kind, number, &key.binding)?)?;
    Ok(())
}

/// Marks an instance of a cell, if it is chosen.
fn add_item(
    alloc: Global,
    marks: &mut Marks,
    kind: TypeId,
    instance: &Instance,
    pick: Pick,
) -> Result<(), Memory>
    requires below { All (λ dev. dev < length marks.old.fates.items) instance.now.key.set }
    ensures marked { OnOk result ((before : List Chosen) → Holds marks.old before
        → Holds marks.new (before ++ chosen_among kind ((instance.now, pick) ∷ []))) }
    ensures devices { length marks.new.fates.items ≡ length marks.old.fates.items }
{
    let Pick::Taken(number) = pick else {
        return Ok(());
    };
    add_chosen(alloc, marks, kind, number, &instance.key)
}

/// Marks the chosen ones of a cell's instances.
fn add_items(
    alloc: Global,
    marks: &mut Marks,
    kind: TypeId,
    list: &[Instance],
    picks: &[Pick],
) -> Result<(), Memory>
    requires below { AreBelow (length marks.old.fates.items) list.now }
    requires picked { length picks.now ≡ length list.now }
    ensures marked { OnOk result ((before : List Chosen) → Holds marks.old before
        → Holds marks.new (before ++ chosen_among kind (zip list.now picks.now))) }
    ensures devices { length marks.new.fates.items ≡ length marks.old.fates.items }
{
    for (i, instance) in list.iter().enumerate() {
        add_item(alloc, marks, kind, instance, picks[i])?;
    }
    Ok(())
}

/// Marks the chosen instances of a cell.
fn add_cell(
    alloc: Global,
    marks: &mut Marks,
    cells: &[Cell],
    found: &RoundCell,
) -> Result<(), Memory>
    requires known { found.now.cell < length cells.now }
    requires below { AreBelow (length marks.old.fates.items) found.now.list }
    requires picked { length found.now.picks ≡ length found.now.list }
    ensures marked { OnOk result ((before : List Chosen) → Holds marks.old before
        → Holds marks.new (before ++ chosen_of_cell cells.now found.now)) }
    ensures devices { length marks.new.fates.items ≡ length marks.old.fates.items }
{
    let cell = &cells[found.cell as usize];
    add_items(alloc, marks, cell.kind, &found.list.items, &found.picks)
}

/// Marks the chosen instances of a round.
pub fn add_round(
    alloc: Global,
    marks: &mut Marks,
    cells: &[Cell],
    found: &[RoundCell],
) -> Result<(), Memory>
    requires known { All (λ (f : Found). f.cell < length cells.now) found.now }
    requires below { All (λ (f : Found). AreBelow (length marks.old.fates.items) f.list) found.now }
    requires picked { All (λ (f : Found). length f.picks ≡ length f.list) found.now }
    ensures marked { OnOk result ((before : List Chosen) → Holds marks.old before
        → Holds marks.new (before ++ chosen_of cells.now found.now)) }
    ensures devices { length marks.new.fates.items ≡ length marks.old.fates.items }
{
    for f in found {
        add_cell(alloc, marks, cells, f)?;
    }
    Ok(())
}
