ghost use Rattle.std.specs.Prelude.{◌≡◌, map, IfOk};
ghost use Rattle.gl_text.specs.Decks.{once};

use crate::copy::name_copy;
use crate::scene::Scene;
use crate::{Name, Sub, Subs};
use indexmap::IndexSet;
use std::alloc::{AllocError, Global};

/// Each of the names once.
fn name_set(alloc: Global, names: &[Name]) -> Result<IndexSet<Name>, AllocError>
    ensures names { IfOk result (λ set. set.keys ≡ once names.now) }
{
    let mut set = IndexSet::new(alloc);
    for name in names {
        set.insert(name_copy(alloc, name)?)?;
    }
    Ok(set)
}

/// The ports of subcircuits, by their places.
fn port_sets(alloc: Global, subs: &[Sub]) -> Result<Vec<IndexSet<Name>>, AllocError>
    ensures ports { IfOk result (λ sets. map (λ s. s.keys) sets.items
        ≡ map (λ s. once s.head.ports) subs.now) }
{
    let mut sets = Vec::with_capacity(alloc, subs.len())?;
    for sub in subs {
        sets.push(name_set(alloc, sub.head().ports())?)?;
    }
    Ok(sets)
}

/// What names are looked up in.
#[derive(Drop)]
pub struct Tables {
    /// The ports of each subcircuit, by its place.
    pub ports: Vec<IndexSet<Name>>,
    /// The rails but `0`.
    pub rails: IndexSet<Name>,
    /// The ports of the top.
    pub own: IndexSet<Name>,
}

impl Tables {
    /// The tables of subcircuits, rails and the ports of a top.
    pub fn of(
        alloc: Global,
        subs: &Subs,
        rails: &[Name],
        own: &[Name],
    ) -> Result<Tables, AllocError>
        ensures ports { IfOk result (λ t. map (λ s. s.keys) t.ports.items
            ≡ map (λ s. once s.head.ports) subs.now) }
        ensures rails { IfOk result (λ t. t.rails.keys ≡ once rails.now) }
        ensures own { IfOk result (λ t. t.own.keys ≡ once own.now) }
    {
        Ok(Tables {
            ports: port_sets(alloc, subs.as_slice())?,
            rails: name_set(alloc, rails)?,
            own: name_set(alloc, own)?,
        })
    }

    /// What cards are read against, with the subcircuits of the tables.
    pub fn scene<'a>(&'a self, subs: &'a Subs) -> Scene<'a>
        ensures subs { result.subs.now ≡ subs.now }
        ensures ports { map (λ s. s.keys) result.ports.now
            ≡ map (λ s. s.keys) self.now.ports.items }
        ensures rails { result.rails.now ≡ self.now.rails }
        ensures own { result.own.now ≡ self.now.own }
    {
        Scene {
            subs,
            ports: &self.ports,
            rails: &self.rails,
            own: &self.own,
        }
    }
}
