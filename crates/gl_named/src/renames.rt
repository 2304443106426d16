//! The walk over chosen instances, the last first: what each leaves under numbers.
ghost use Rattle.std.specs.Prelude.{◌≡◌, ◌∷◌, [], ℕ, List, map, IfOk, OnOk};
ghost use Rattle.gl_text.specs.Decks.{Sub as SubValue};
ghost use Rattle.gl_named.specs.Firsts.{at_number, Adds};
ghost use Rattle.gl_named.specs.Kept.{Keeps};
ghost use Rattle.gl_named.specs.Walks as walks;
ghost use Rattle.gl_named.specs.Walks.{Rows};

use crate::firsts::{look_up, put_first};
use crate::images::{image_at, images_of};
use crate::plan::CellPlan;
use crate::ways::{add_devices, add_ways, joined, top_way};
use gl_found::Found;
use gl_graph::NetId;
use gl_map::{Memory, Name};
use std::alloc::Global;

/// What the walk has put under numbers so far.
#[derive(Drop)]
pub struct Renames {
    /// The texts of the ways to composites, by the numbers of these.
    pub ways: Vec<Option<Name>>,
    /// The new names of original devices, by their numbers.
    pub devices: Vec<Option<Name>>,
    /// The new names of nets, by their numbers.
    pub nets: Vec<Option<Name>>,
}

/// Nothing under any number. It takes no memory.
fn no_renames(alloc: Global) -> Renames
    ensures none { Keeps result walks.no_rows }
{
    Renames {
        ways: Vec::new(alloc),
        devices: Vec::new(alloc),
        nets: Vec::new(alloc),
    }
}

/// The text of the way to a composite: where a later one has it, else at the top.
fn way_to(alloc: Global, stem: &[u8], ways: &[Option<Name>], number: u32) -> Result<Name, Memory>
    ensures way { IfOk result
        (λ way. way ≡ walks.way_text stem.now (at_number ways.now number) number) }
{
    match look_up(ways, number as usize) {
        Some(way) => Name::of(alloc, way.as_bytes()),
        None => top_way(alloc, stem, number),
    }
}

/// Puts the new name of the image of a net.
fn add_net(
    alloc: Global,
    names: &mut Vec<Option<Name>>,
    way: &[u8],
    images: &[Option<NetId>],
    number: usize,
    net: &Name,
) -> Result<(), Memory>
    ensures added { OnOk result (Adds names.old.items names.new.items
        (map (walks.net_row way.now (at_number images.now)) ((number, net.now) ∷ []))) }
{
    let image = image_at(images, number);
    let name = joined(alloc, way, net)?;
    put_first(names, image.0 as usize, name)
}

/// Puts the new names of the images of nets.
fn add_nets(
    alloc: Global,
    names: &mut Vec<Option<Name>>,
    way: &[u8],
    images: &[Option<NetId>],
    nets: &[(usize, Name)],
) -> Result<(), Memory>
    ensures added { OnOk result (Adds names.old.items names.new.items
        (map (walks.net_row way.now (at_number images.now)) nets.now)) }
{
    for (number, net) in nets {
        add_net(alloc, names, way, images, *number, net)?;
    }
    Ok(())
}

/// Puts what a chosen instance of a cell adds, at a way.
fn add_rows(
    alloc: Global,
    names: &mut Renames,
    plan: &CellPlan<'_>,
    found: &Found<'_>,
    way: &[u8],
) -> Result<(), Memory>
    ensures added { OnOk result ((rows : Rows) → Keeps names.old rows
        → Keeps names.new (walks.with_rows rows (walks.rows_at plan.now found.now way.now))) }
{
    let cards = plan.cell.cards();
    add_ways(alloc, &mut names.ways, way, cards, found)?;
    add_devices(alloc, &mut names.devices, way, cards, found)?;
    let images = images_of(alloc, plan, found)?;
    add_nets(alloc, &mut names.nets, way, &images, &plan.inner)?;
    Ok(())
}

/// Puts what a chosen instance adds.
fn add_found(
    alloc: Global,
    names: &mut Renames,
    stem: &[u8],
    plans: &[CellPlan<'_>],
    found: &Found<'_>,
) -> Result<(), Memory>
    ensures added { OnOk result ((rails : List (List ℕ)) (subs : List SubValue) (rows : Rows)
        → plans.now ≡ map (walks.plan_of rails) subs → Keeps names.old rows
        → Keeps names.new (walks.rows_behind stem.now rails subs rows found.now)) }
{
    let way = way_to(alloc, stem, &names.ways, found.number)?;
    match plans.get(found.cell as usize) {
        Some(plan) => {
            add_rows(alloc, names, plan, found, way.as_bytes())?;
            Ok(())
        }
        None => Ok(()),
    }
}

/// What chosen instances leave under numbers, gone through in this order.
pub fn renames_of(
    alloc: Global,
    stem: &[u8],
    plans: &[CellPlan<'_>],
    found: &[Found<'_>],
) -> Result<Renames, Memory>
    ensures renames { IfOk result (λ names. (rails : List (List ℕ)) (subs : List SubValue)
        → plans.now ≡ map (walks.plan_of rails) subs
        → Keeps names (walks.rows_of stem.now rails subs found.now)) }
{
    let mut names = no_renames(alloc);
    for item in found {
        add_found(alloc, &mut names, stem, plans, item)?;
    }
    Ok(names)
}
