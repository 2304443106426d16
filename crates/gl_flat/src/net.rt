ghost use Rattle.std.specs.Prelude.{◌≡◌};
ghost use Rattle.gl_text.specs.Flattening as flat;
ghost use Rattle.gl_flat.specs.SeenNames as seen;

use crate::Name;
use crate::dot::holds_dot;
use std::alloc::Global;
use std::marker::Model;

/// A net. Contracts see it as the X cards on the way to its scope, and its name there.
#[derive(Drop)]
pub struct Net<'a> {
    /// The names of the X cards, the outermost first.
    pub path: Vec<&'a Name>,
    /// Its name in the scope.
    pub name: &'a Name,
}

impl<'a> Model for Net<'a> {
    ghost use Rattle.std.specs.Prelude.{map};
    ghost use Rattle.gl_text.specs.Flattening.{Net as NetValue};

    ghost Value = { NetValue };

    ghost view = { λ n. record { path = map (λ x. x.now) n.path.items; name = n.name.now } };
}

impl<'a> Net<'a> {
    /// The net of the top of a name. It takes no memory.
    pub fn of_top(alloc: Global, name: &'a Name) -> Net<'a>
        ensures net { result ≡ flat.top_net name.now }
    {
        Net {
            path: Vec::new(alloc),
            name,
        }
    }

    /// It stands behind X cards.
    fn has_path(&self) -> bool
        ensures below { result ≡ seen.is_below self.now.path }
    {
        !self.path.is_empty()
    }

    /// Its flat name holds a dot, as that of every net behind X cards does.
    pub fn holds_dot(&self) -> bool
        ensures dot { result ≡ seen.has_dot (flat.net_name self.now) }
    {
        self.has_path() || holds_dot(self.name.as_bytes())
    }
}
