ghost use Rattle.std.specs.Prelude.{◌≡◌};
ghost use Rattle.gl_text.specs.Flattening as flat;
ghost use Rattle.gl_flat.specs.SeenNames as seen;

use crate::dot::holds_dot;
use crate::net::Net;
use crate::{DevCard, Name};
use std::marker::Model;

/// A device that is reached. Contracts see it as the X cards on the way, its card, and its nets.
#[derive(Drop)]
pub struct FlatDevice<'a> {
    /// The names of the X cards, the outermost first.
    pub path: Vec<&'a Name>,
    /// Its card.
    pub card: &'a DevCard,
    /// Its nets, place by place; nothing at the top, where the nodes of its card are its nets.
    pub nets: Option<Vec<Net<'a>>>,
}

impl<'a> Model for FlatDevice<'a> {
    ghost use Rattle.std.specs.Prelude.{map, option_map};
    ghost use Rattle.gl_text.specs.Flattening.{FlatDevice as DeviceValue};
    ghost use Rattle.gl_flat.specs.Devices.{nets_by};

    ghost Value = { DeviceValue };

    ghost view = { λ d. record { path = map (λ x. x.now) d.path.items; card = d.card.now; nets = nets_by (option_map (λ v. v.items) d.nets) d.card.now.nodes } };
}

impl<'a> FlatDevice<'a> {
    /// Its flat name holds a dot, as that of every device behind X cards does.
    pub fn holds_dot(&self) -> bool
        ensures dot { result ≡ seen.has_dot (flat.device_name self.now) }
    {
        !self.path.is_empty() || holds_dot(self.card.name().as_bytes())
    }
}
