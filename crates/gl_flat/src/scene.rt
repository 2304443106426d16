ghost use Rattle.std.specs.Prelude.{◌≡◌, ◌||◌, option_map, IfSome};
ghost use Rattle.gl_text.specs.Decks as decks;
ghost use Rattle.gl_text.specs.Flattening as flat;
ghost use Rattle.gl_flat.specs.TopNames.{top_names};
ghost use Rattle.gl_flat.specs.Ways.{IsScene};

use crate::{Name, Sub, Subs};
use indexmap::IndexSet;

/// What cards are read against.
#[derive(Clone, Copy)]
pub struct Scene<'a> {
    /// The subcircuits.
    pub subs: &'a Subs,
    /// The ports of each subcircuit, by its place.
    pub ports: &'a [IndexSet<Name>],
    /// The rails but `0`.
    pub rails: &'a IndexSet<Name>,
    /// The ports of the top.
    pub own: &'a IndexSet<Name>,
}

/// A subcircuit that is called.
#[derive(Clone, Copy)]
pub struct Callee<'a> {
    /// The subcircuit.
    pub sub: &'a Sub,
    /// Its ports.
    pub ports: &'a IndexSet<Name>,
}

/// The subcircuit of a name.
pub fn find<'a>(scene: &Scene<'a>, name: &Name) -> Option<Callee<'a>>
    requires scene { IsScene scene.now }
    ensures found { option_map (λ c. c.sub.now) result
        ≡ decks.find_sub scene.now.subs.now name.now }
    ensures ports { IfSome result (λ c. c.ports.now.keys ≡ c.sub.now.head.ports) }
{
    let (place, sub) = scene.subs.find(name)?;
    let ports = scene.ports.get(place)?;
    Some(Callee { sub, ports })
}

/// The name is `0` or that of a rail.
pub fn is_rail(rails: &IndexSet<Name>, name: &Name) -> bool
    ensures rail { result ≡ flat.is_rail rails.now.keys name.now }
{
    name.as_bytes() == b"0".as_slice() || rails.contains(name)
}

/// The name is that of a net of the top that stands before all others: `0`, a rail or a port.
pub fn is_top(scene: &Scene<'_>, name: &Name) -> bool
    ensures top { result ≡ decks.is_in name.now (top_names scene.now) }
{
    is_rail(scene.rails, name) || scene.own.contains(name)
}
