//! Cards of a cell as devices of its pattern.
ghost use Rattle.std.specs.Prelude.{◌≡◌, ◌<◌, length, map, All, IfOk, Some, true};
ghost use Rattle.gl_text.specs.Decks.{is_in, find_sub, Sub};
ghost use Rattle.gl_deck.specs.Bodies.{body_value, bodies_value, names_of};
ghost use Rattle.gl_base.specs.BaseCircuit.{net_number, type_number, type_in};
ghost use Rattle.gl_base.specs.Libraries.{nodes_of as nodes_on};
ghost use Rattle.gl_lifting.specs.Runs.{run_types, card_type, cell_type, card_device as device_of};
ghost use Rattle.gl_lib.specs.Numbered.{IsAmong, HasType, IsNumbered};
ghost use Rattle.gl_lib.specs.Tables.{ArePartsSound, AreTablesOf, source_of, run_in};

use crate::devices::numbers_of;
use crate::parts::Parts;
use crate::tables::Tables;
use crate::words::type_of;
use gl_card::{DevCard, Name};
use gl_cells::{Body, Subs};
use gl_flat::Names;
use gl_graph::{Device, TypeId};
use std::alloc::{AllocError, Global};

/// Where the cell of a name stands that is there.
fn cell_place(cells: &Subs, name: &Name) -> usize
    requires there { is_in name.now (names_of cells.now) ≡ true }
    ensures place { result ≡ net_number (names_of cells.now) name.now }
    ensures within { result < length cells.now }
{
    cells.place_of(name).unwrap()
}

/// The number of the type of the cell that is found by a name. The types of devices come before those of the cells.
pub fn cell_kind(parts: &Parts, tables: &Tables, name: &Name) -> TypeId
    requires sound { ArePartsSound parts.now }
    requires tables { AreTablesOf (source_of parts.now) tables.now }
    requires there { is_in name.now (names_of parts.now.library.now.deck.subs) ≡ true }
    ensures kind { (t : Sub) → find_sub parts.now.library.now.deck.subs name.now ≡ Some t
        → result ≡ type_number (run_types (run_in parts.now)) (cell_type t) }
{
    let place = cell_place(parts.library.deck().subs(), name);
    TypeId(tables.kinds.count() + place as u32)
}

/// The number of the type of a device that the run has.
fn device_kind(
    alloc: Global,
    parts: &Parts,
    tables: &Tables,
    card: &DevCard,
) -> Result<TypeId, AllocError>
    requires tables { AreTablesOf (source_of parts.now) tables.now }
    requires known { IsAmong (source_of parts.now) card.now }
    ensures kind { IfOk result (λ kind. kind
        ≡ type_number (run_types (run_in parts.now)) (type_in (source_of parts.now) card.now)) }
{
    let _ = parts;
    let kind = type_of(alloc, &tables.words, card)?;
    Ok(tables.kinds.number(&kind))
}

/// The number of a card's type: an X card has that of the cell that it calls.
fn card_kind(
    alloc: Global,
    parts: &Parts,
    tables: &Tables,
    card: &Body,
) -> Result<TypeId, AllocError>
    requires sound { ArePartsSound parts.now }
    requires tables { AreTablesOf (source_of parts.now) tables.now }
    requires known { HasType (run_in parts.now) (body_value card.now) }
    ensures kind { IfOk result (λ kind. kind ≡ type_number (run_types (run_in parts.now))
        (card_type (source_of parts.now) (body_value card.now))) }
{
    match card {
        Body::Dev(_, device) => device_kind(alloc, parts, tables, device),
        Body::Call(_, call) => Ok(cell_kind(parts, tables, call.sub())),
    }
}

/// The names of the nets on a card, place by place.
pub fn nodes_of(card: &Body) -> &[Name]
    ensures nodes { result.now ≡ nodes_on (body_value card.now) }
{
    match card {
        Body::Dev(_, device) => device.nodes(),
        Body::Call(_, call) => call.nodes(),
    }
}

/// A card as a device.
fn device_of_card(
    alloc: Global,
    parts: &Parts,
    tables: &Tables,
    nets: &Names,
    card: &Body,
) -> Result<Device, AllocError>
    requires sound { ArePartsSound parts.now }
    requires tables { AreTablesOf (source_of parts.now) tables.now }
    requires numbered { IsNumbered (run_in parts.now) nets.now (body_value card.now) }
    ensures device { IfOk result
        (λ device. device ≡ device_of (run_in parts.now) nets.now (body_value card.now)) }
{
    let kind = card_kind(alloc, parts, tables, card)?;
    let nets = numbers_of(alloc, nets, nodes_of(card))?;
    Ok(Device { kind, nets })
}

/// Cards as devices, in their order.
pub fn devices_of_cards(
    alloc: Global,
    parts: &Parts,
    tables: &Tables,
    nets: &Names,
    cards: &[Body],
) -> Result<Vec<Device>, AllocError>
    requires sound { ArePartsSound parts.now }
    requires tables { AreTablesOf (source_of parts.now) tables.now }
    requires numbered { All (IsNumbered (run_in parts.now) nets.now) (bodies_value cards.now) }
    ensures devices { IfOk result (λ devices. devices.items
        ≡ map (device_of (run_in parts.now) nets.now) (bodies_value cards.now)) }
{
    let mut devices = Vec::with_capacity(alloc, cards.len())?;
    for card in cards {
        devices.push(device_of_card(alloc, parts, tables, nets, card)?)?;
    }
    Ok(devices)
}
