//! What is known of a cell before its chosen instances are gone through: its nets, and which of them are inner.
ghost use Rattle.std.specs.Prelude.{◌≡◌, ◌++◌, ◌∷◌, [], ℕ, List, map, flat_map, filter, IfOk, OnOk};
ghost use Rattle.std.specs.List.{enumerate_from};
ghost use Rattle.indexmap.specs.IndexSet.{insert_all};
ghost use Rattle.gl_text.specs.LogicalLines.{same_text};
ghost use Rattle.gl_text.specs.Decks.{once};
ghost use Rattle.gl_base.specs.Rails.{all_rails};
ghost use Rattle.gl_base.specs.Libraries as libraries;
ghost use Rattle.gl_deck.specs.Bodies.{body_value, bodies_value};
ghost use Rattle.gl_named.specs.Walks as walks;
ghost use Rattle.gl_named.specs.Plans.{HasNames, inner_by};

use gl_deck::{Body, Sub};
use gl_map::{Memory, Name};
use indexmap::IndexSet;
use std::alloc::Global;
use std::marker::Model;

/// What is known of a cell. Contracts see the cell, its nets by their numbers, and the inner ones of these.
#[derive(Drop)]
pub struct CellPlan<'a> {
    /// The cell.
    pub cell: &'a Sub,
    /// Its nets, each once in order of first appearance. A net's number is its place there.
    pub nets: IndexSet<Name>,
    /// The inner ones with their numbers.
    pub inner: Vec<(usize, Name)>,
}

impl<'a> Model for CellPlan<'a> {
    ghost use Rattle.gl_named.specs.Walks.{Plan};

    ghost Value = { Plan };

    ghost view = { λ p. record { cell = p.cell.now; nets = p.nets.keys; inner = p.inner.items } };
}

/// The nodes of a card.
pub fn nodes_on(card: &Body) -> &[Name]
    ensures nodes { result.now ≡ libraries.nodes_of (body_value card.now) }
{
    match card {
        Body::Dev(_, device) => device.nodes(),
        Body::Call(_, call) => call.nodes(),
    }
}

/// Adds a copy of a name, if it is not there.
fn add_name(alloc: Global, set: &mut IndexSet<Name>, name: &Name) -> Result<(), Memory>
    ensures added { OnOk result (set.new.keys ≡ insert_all same_text set.old.keys (name.now ∷ [])) }
{
    if !set.contains(name) {
        set.insert(Name::of(alloc, name.as_bytes())?)?;
    }
    Ok(())
}

/// Adds copies of those names that are not there.
fn add_names(alloc: Global, set: &mut IndexSet<Name>, names: &[Name]) -> Result<(), Memory>
    ensures added { OnOk result (set.new.keys ≡ insert_all same_text set.old.keys names.now) }
{
    for name in names {
        add_name(alloc, set, name)?;
    }
    Ok(())
}

/// A set of some names.
fn name_set(alloc: Global, names: &[Name]) -> Result<IndexSet<Name>, Memory>
    ensures names { IfOk result (λ set. HasNames set.keys names.now) }
{
    let mut set = IndexSet::new(alloc);
    add_names(alloc, &mut set, names)?;
    Ok(set)
}

/// A set of the rails: `0` and these.
pub fn rail_set(alloc: Global, rails: &[Name]) -> Result<IndexSet<Name>, Memory>
    ensures rails { IfOk result (λ set. HasNames set.keys (all_rails rails.now)) }
{
    let zero = Name::of(alloc, b"0")?;
    let mut set = IndexSet::new(alloc);
    add_name(alloc, &mut set, &zero)?;
    add_names(alloc, &mut set, rails)?;
    Ok(set)
}

/// The nets on cards, each once in order of first appearance, place by place.
fn net_set(alloc: Global, cards: &[Body]) -> Result<IndexSet<Name>, Memory>
    ensures nets { IfOk result (λ nets. nets.keys
        ≡ once (flat_map libraries.nodes_of (bodies_value cards.now))) }
{
    let mut set = IndexSet::new(alloc);
    for card in cards {
        add_names(alloc, &mut set, nodes_on(card))?;
    }
    Ok(set)
}

/// A net is neither a rail nor a port.
fn is_inner(rails: &IndexSet<Name>, ports: &IndexSet<Name>, net: &Name) -> bool
    ensures inner { result ≡ inner_by rails.now.keys ports.now.keys net.now }
{
    !rails.contains(net) && !ports.contains(net)
}

/// Adds a net with its number, if it is inner.
fn add_inner(
    alloc: Global,
    inner: &mut Vec<(usize, Name)>,
    rails: &IndexSet<Name>,
    ports: &IndexSet<Name>,
    number: usize,
    net: &Name,
) -> Result<(), Memory>
    ensures added { OnOk result (inner.new.items ≡ inner.old.items
        ++ filter (λ n. inner_by rails.now.keys ports.now.keys n.1) ((number, net.now) ∷ [])) }
{
    if is_inner(rails, ports, net) {
        inner.push((number, Name::of(alloc, net.as_bytes())?))?;
    }
    Ok(())
}

/// The inner ones of nets, with their numbers.
fn inner_nets(
    alloc: Global,
    rails: &IndexSet<Name>,
    ports: &IndexSet<Name>,
    nets: &[Name],
) -> Result<Vec<(usize, Name)>, Memory>
    ensures inner { IfOk result (λ inner. inner.items
        ≡ filter (λ n. inner_by rails.now.keys ports.now.keys n.1) (enumerate_from 0 nets.now)) }
{
    let mut inner = Vec::new(alloc);
    let mut number: usize = 0;
    for net in nets {
        add_inner(alloc, &mut inner, rails, ports, number, net)?;
        number += 1;
    }
    Ok(inner)
}

/// What is known of a cell.
fn plan_cell<'a>(
    alloc: Global,
    rails: &IndexSet<Name>,
    cell: &'a Sub,
) -> Result<CellPlan<'a>, Memory>
    ensures plan { IfOk result (λ plan. (names : List (List ℕ))
        → HasNames rails.now.keys (all_rails names) → plan ≡ walks.plan_of names cell.now) }
{
    let ports = name_set(alloc, cell.head().ports())?;
    let nets = net_set(alloc, cell.cards())?;
    let inner = inner_nets(alloc, rails, &ports, nets.as_slice())?;
    Ok(CellPlan { cell, nets, inner })
}

/// What is known of each cell, in their order; the rails are `0` and these.
pub fn plans_of<'a>(
    alloc: Global,
    rails: &[Name],
    cells: &'a [Sub],
) -> Result<Vec<CellPlan<'a>>, Memory>
    ensures plans { IfOk result (λ plans. plans.items ≡ map (walks.plan_of rails.now) cells.now) }
{
    let rails = rail_set(alloc, rails)?;
    let mut plans = Vec::with_capacity(alloc, cells.len())?;
    for cell in cells {
        plans.push(plan_cell(alloc, &rails, cell)?)?;
    }
    Ok(plans)
}
