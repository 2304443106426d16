ghost use Rattle.std.specs.Prelude.{◌≡◌, ◌∷◌, ◌≤◌, ◌<◌, ◌^◌, [], length, flat_map, IfOk, OnOk};
ghost use Rattle.indexmap.specs.IndexSet.{insert_all};
ghost use Rattle.gl_text.specs.LogicalLines.{same_text};
ghost use Rattle.gl_text.specs.Decks.{once};
ghost use Rattle.gl_deck.specs.Bodies.{bodies_value};
ghost use Rattle.gl_base.specs.Rails.{all_rails, AreRails};
ghost use Rattle.gl_base.specs.Libraries.{nodes_of as nodes_on};

use crate::cards::nodes_of;
use gl_card::Name;
use gl_cells::Body;
use gl_flat::Names;
use indexmap::IndexSet;
use std::alloc::{AllocError, Global};

/// Adds a copy of a name, if it is not there.
fn add_name(alloc: Global, set: &mut IndexSet<Name>, name: &Name) -> Result<(), AllocError>
    ensures added { OnOk result (set.new.keys ≡ insert_all same_text set.old.keys (name.now ∷ [])) }
{
    if !set.contains(name) {
        set.insert(Name::of(alloc, name.as_bytes())?)?;
    }
    Ok(())
}

/// Adds copies of those names that are not there.
pub fn add_names(alloc: Global, set: &mut IndexSet<Name>, names: &[Name]) -> Result<(), AllocError>
    ensures added { OnOk result (set.new.keys ≡ insert_all same_text set.old.keys names.now) }
{
    for name in names {
        add_name(alloc, set, name)?;
    }
    Ok(())
}

/// Some names, each once in order of first appearance.
pub fn name_table(alloc: Global, names: &[Name]) -> Result<Names, AllocError>
    requires { length names.now < 2 ^ 32 }
    ensures names { IfOk result (λ all. all ≡ once names.now) }
{
    let mut set = IndexSet::new(alloc);
    add_names(alloc, &mut set, names)?;
    Ok(Names::of_set(set))
}

/// The rails of a circuit: `0`, and then the others.
pub fn rail_table(alloc: Global, rails: &[Name]) -> Result<Names, AllocError>
    requires differ { AreRails rails.now }
    requires few { length rails.now ≤ 134217728 }
    ensures rails { IfOk result (λ all. all ≡ all_rails rails.now) }
{
    let zero = Name::of(alloc, b"0")?;
    let mut set = IndexSet::new(alloc);
    add_name(alloc, &mut set, &zero)?;
    add_names(alloc, &mut set, rails)?;
    Ok(Names::of_set(set))
}

/// The nets on cards, each once in order of first appearance, place by place.
pub fn net_table(alloc: Global, cards: &[Body]) -> Result<Names, AllocError>
    requires few { length (flat_map nodes_on (bodies_value cards.now)) < 2 ^ 32 }
    ensures nets { IfOk result
        (λ nets. nets ≡ once (flat_map nodes_on (bodies_value cards.now))) }
{
    let mut set = IndexSet::new(alloc);
    for card in cards {
        add_names(alloc, &mut set, nodes_of(card))?;
    }
    Ok(Names::of_set(set))
}
