//! The names of a cell's nets, by their numbers.
ghost use Rattle.std.specs.Prelude.{◌≡◌, flat_map, IfOk, OnOk};
ghost use Rattle.indexmap.specs.IndexSet.{insert_all};
ghost use Rattle.gl_text.specs.LogicalLines.{same_text};
ghost use Rattle.gl_text.specs.Decks.{once};
ghost use Rattle.gl_base.specs.Libraries as libraries;
ghost use Rattle.gl_deck.specs.Bodies.{body_value, bodies_value};

use gl_deck::Body;
use gl_line::Name;
use gl_match::Memory;
use indexmap::IndexSet;
use std::alloc::Global;

/// The nodes of a card.
fn nodes_on(card: &Body) -> &[Name]
    ensures nodes { result.now ≡ libraries.nodes_of (body_value card.now) }
{
    match card {
        Body::Dev(_, device) => device.nodes(),
        Body::Call(_, call) => call.nodes(),
    }
}

/// Adds copies of those names that are not there.
fn add_names(alloc: Global, nets: &mut IndexSet<Name>, names: &[Name]) -> Result<(), Memory>
    ensures added { OnOk result (nets.new.keys ≡ insert_all same_text nets.old.keys names.now) }
{
    for name in names {
        nets.insert(Name::of(alloc, name.as_bytes())?)?;
    }
    Ok(())
}

/// The nets on cards, each once in order of first appearance, place by place.
pub fn net_set(alloc: Global, cards: &[Body]) -> Result<IndexSet<Name>, Memory>
    ensures nets { IfOk result (λ nets. nets.keys
        ≡ once (flat_map libraries.nodes_of (bodies_value cards.now))) }
{
    let mut nets = IndexSet::new(alloc);
    for card in cards {
        add_names(alloc, &mut nets, nodes_on(card))?;
    }
    Ok(nets)
}
