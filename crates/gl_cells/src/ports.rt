//! Cells that are skipped by themselves.
ghost use Rattle.std.specs.Prelude.{◌≡◌, [], find, flat_map, not, option_map, IfOk, OnOk};
ghost use Rattle.std.specs.Option.{option_copied};
ghost use Rattle.indexmap.specs.IndexSet.{insert_all};
ghost use Rattle.gl_text.specs.LogicalLines.{same_text};
ghost use Rattle.gl_text.specs.Decks.{is_in};
ghost use Rattle.gl_base.specs.Libraries as libraries;
ghost use Rattle.gl_base.specs.Libraries.{nodes_of};
ghost use Rattle.gl_deck.specs.Bodies.{bodies_value, body_value};
ghost use Rattle.gl_cells.specs.Skips.{skip_value};

use crate::{Body, Name, Skip, Sub};
use indexmap::IndexSet;
use std::alloc::{AllocError, Global};

/// The nodes of a card.
fn nodes(card: &Body) -> &[Name]
    ensures nodes { result.now ≡ nodes_of (body_value card.now) }
{
    match card {
        Body::Dev(_, device) => device.nodes(),
        Body::Call(_, call) => call.nodes(),
    }
}

/// Adds names.
fn add_names(alloc: Global, known: &mut IndexSet<Name>, names: &[Name]) -> Result<(), AllocError>
    ensures added { OnOk result (known.new.keys ≡ insert_all same_text known.old.keys names.now) }
{
    for name in names {
        known.insert(Name::of(alloc, name.as_bytes())?)?;
    }
    Ok(())
}

/// The nets of cards.
fn nets(alloc: Global, cards: &[Body]) -> Result<IndexSet<Name>, AllocError>
    ensures nets { IfOk result (λ nets. nets.keys
        ≡ insert_all same_text [] (flat_map nodes_of (bodies_value cards.now))) }
{
    let mut nets = IndexSet::new(alloc);
    for card in cards {
        add_names(alloc, &mut nets, nodes(card))?;
    }
    Ok(nets)
}

/// A table lacks a name.
fn lacks(known: &IndexSet<Name>, name: &Name) -> bool
    ensures lacks { result ≡ not (is_in name.now known.now.keys) }
{
    !known.contains(name)
}

/// The first name that a table lacks.
fn first_lacking<'a>(known: &IndexSet<Name>, names: &'a [Name]) -> Option<&'a Name>
    ensures first { option_copied result ≡ find (λ n. not (is_in n known.now.keys)) names.now }
{
    names.iter().find(|name| lacks(known, name))
}

/// The first port that stands on no card.
fn loose_port(alloc: Global, cell: &Sub) -> Result<Option<&Name>, AllocError>
    ensures loose { IfOk result (λ port. option_copied port ≡ libraries.loose_port cell.now) }
{
    let known = nets(alloc, cell.cards())?;
    Ok(first_lacking(&known, cell.head().ports()))
}

/// Why a cell is skipped by itself: it has no cards, else a port stands on none.
pub fn own_skip(alloc: Global, cell: &Sub) -> Result<Option<Skip>, AllocError>
    ensures skip { IfOk result (λ skip. option_map skip_value skip ≡ libraries.own_skip cell.now) }
{
    if cell.cards().is_empty() {
        return Ok(Some(Skip::Empty));
    }
    match loose_port(alloc, cell)? {
        Some(port) => Ok(Some(Skip::Loose(Name::of(alloc, port.as_bytes())?))),
        None => Ok(None),
    }
}
