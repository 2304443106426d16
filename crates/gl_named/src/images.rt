//! The nets of a circuit to which a chosen instance takes the nets of its cell.
ghost use Rattle.std.specs.Prelude.{◌≡◌, map, zip, slice_index, unwrap_or, IfOk, OnOk};
ghost use Rattle.gl_match.specs.Graph.{device_at, shape_at};
ghost use Rattle.gl_match.specs.Turns.{turn_at};
ghost use Rattle.gl_base.specs.BaseCircuit.{net_number};
ghost use Rattle.gl_base.specs.Libraries as libraries;
ghost use Rattle.gl_deck.specs.Bodies.{body_value, bodies_value};
ghost use Rattle.gl_named.specs.Firsts.{at_number, Adds, Holds};
ghost use Rattle.gl_named.specs.Walks.{card_pairs, cell_pairs};

use crate::firsts::{look_up, put_first};
use crate::plan::{CellPlan, nodes_on};
use gl_deck::Body;
use gl_found::{DevId, Found};
use gl_graph::{Circuit, NetId, Spot, TypeId};
use gl_map::{Memory, Name};
use indexmap::IndexSet;
use std::alloc::Global;

/// The type of a device; the first past the last.
fn kind_of(c: &Circuit, dev: DevId) -> TypeId
    ensures kind { result ≡ (device_at c.now.devices dev).kind }
{
    match c.device_list().get(dev.0 as usize) {
        Some(device) => device.kind(),
        None => TypeId(0),
    }
}

/// The nets of a device, place by place; none past the last.
fn nets_on(c: &Circuit, dev: DevId) -> &[NetId]
    ensures nets { result.now ≡ (device_at c.now.devices dev).nets }
{
    match c.device_list().get(dev.0 as usize) {
        Some(device) => device.nets(),
        None => &[],
    }
}

/// The turn of a number of a type: to which place each place goes; empty where there is none.
fn turn_of(c: &Circuit, kind: TypeId, turn: u32) -> &[u8]
    ensures turn { result.now ≡ turn_at (shape_at c.now kind) turn }
{
    if kind.0 >= c.kinds() {
        return &[];
    }
    if turn >= c.turns(kind) {
        return &[];
    }
    c.turn(kind, turn)
}

/// The net of a place; the first past the last.
fn net_at(nets: &[NetId], place: u8) -> NetId
    ensures net { result ≡ slice_index nets.now place }
{
    match nets.get(place as usize) {
        Some(net) => *net,
        None => NetId(0),
    }
}

/// The number of a net; as many as there are where it is none of them.
fn number_of(nets: &IndexSet<Name>, net: &Name) -> usize
    ensures number { result ≡ net_number nets.now.keys net.now }
{
    match nets.get_index_of(net) {
        Some(number) => number,
        None => nets.len(),
    }
}

/// Puts the nets at turned places under the numbers of nodes.
fn add_nodes(
    images: &mut Vec<Option<NetId>>,
    nets: &IndexSet<Name>,
    nodes: &[Name],
    image: &[NetId],
    turn: &[u8],
) -> Result<(), Memory>
    ensures added { OnOk result (Adds images.old.items images.new.items
        (zip (map (net_number nets.now.keys) nodes.now) (map (slice_index image.now) turn.now))) }
{
    for (node, place) in nodes.iter().zip(turn) {
        put_first(images, number_of(nets, node), net_at(image, *place))?;
    }
    Ok(())
}

/// Puts the images of a card's nets under their numbers.
fn add_card(
    images: &mut Vec<Option<NetId>>,
    nets: &IndexSet<Name>,
    c: &Circuit,
    card: &Body,
    spot: &Spot,
) -> Result<(), Memory>
    ensures added { OnOk result (Adds images.old.items images.new.items
        (card_pairs nets.now.keys c.now (body_value card.now, spot.now))) }
{
    let turn = turn_of(c, kind_of(c, spot.dev), spot.turn);
    add_nodes(images, nets, nodes_on(card), nets_on(c, spot.dev), turn)
}

/// Puts the images of the nets of cards under their numbers.
fn add_cards(
    images: &mut Vec<Option<NetId>>,
    nets: &IndexSet<Name>,
    c: &Circuit,
    cards: &[Body],
    spots: &[Spot],
) -> Result<(), Memory>
    ensures added { OnOk result (Adds images.old.items images.new.items
        (cell_pairs nets.now.keys c.now (zip (bodies_value cards.now) spots.now))) }
{
    for (card, spot) in cards.iter().zip(spots) {
        add_card(images, nets, c, card, spot)?;
    }
    Ok(())
}

/// The images of the nets of a chosen instance's cell, by the numbers of these.
pub fn images_of(
    alloc: Global,
    plan: &CellPlan<'_>,
    found: &Found<'_>,
) -> Result<Vec<Option<NetId>>, Memory>
    ensures images { IfOk result (λ images. Holds images.items (cell_pairs plan.now.nets
        found.now.circuit (zip plan.now.cell.cards found.now.instance.least))) }
{
    let mut images = Vec::new(alloc);
    let instance = found.instance;
    let cards = plan.cell.cards();
    add_cards(
        &mut images,
        &plan.nets,
        found.circuit,
        cards,
        &instance.least,
    )?;
    Ok(images)
}

/// The image of a net; the first net where it has none.
pub fn image_at(images: &[Option<NetId>], number: usize) -> NetId
    ensures image { result ≡ unwrap_or (at_number images.now number) 0 }
{
    match look_up(images, number) {
        Some(net) => *net,
        None => NetId(0),
    }
}
