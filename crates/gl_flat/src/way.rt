ghost use Rattle.std.specs.Prelude.{◌≡◌, ◌++◌, ◌∷◌, [], map, IfOk};
ghost use Rattle.gl_flat.specs.Ways.{device_behind, net_behind, nets_behind, path_of, scope_net};

use crate::device::FlatDevice;
use crate::net::Net;
use crate::scene::is_rail;
use crate::step::{Step, actual};
use crate::{DevCard, Name};
use indexmap::IndexSet;
use std::alloc::{AllocError, Global};

/// The names of the X cards on the way.
pub fn path_names<'a>(alloc: Global, way: &[Step<'a>]) -> Result<Vec<&'a Name>, AllocError>
    ensures names { IfOk result (λ names. map (λ n. n.now) names.items ≡ path_of way.now) }
{
    let mut names = Vec::with_capacity(alloc, way.len())?;
    for step in way {
        names.push(step.call.name())?;
    }
    Ok(names)
}

/// One more X card on the way.
pub fn longer<'a>(
    alloc: Global,
    way: &[Step<'a>],
    step: Step<'a>,
) -> Result<Vec<Step<'a>>, AllocError>
    ensures longer { IfOk result (λ longer. longer.items ≡ way.now ++ step.entry ∷ []) }
{
    let mut longer = Vec::with_capacity(alloc, way.len() + 1)?;
    longer.extend_from_slice(way)?;
    longer.push(step)?;
    Ok(longer)
}

/// The net of a name that is no port: a rail is a net of the top, any other one of the scope's own.
fn own_net<'a>(
    alloc: Global,
    rails: &IndexSet<Name>,
    way: &[Step<'a>],
    name: &'a Name,
) -> Result<Net<'a>, AllocError>
    ensures net { IfOk result (λ net. net ≡ scope_net rails.now.keys way.now name.now) }
{
    if is_rail(rails, name) {
        return Ok(Net::of_top(alloc, name));
    }
    Ok(Net {
        path: path_names(alloc, way)?,
        name,
    })
}

/// The net of a name behind X cards.
fn net_at<'a>(
    alloc: Global,
    rails: &IndexSet<Name>,
    way: &[Step<'a>],
    name: &'a Name,
) -> Result<Net<'a>, AllocError>
    ensures net { IfOk result (λ net. net ≡ net_behind rails.now.keys way.now name.now) }
{
    if let [before @ .., step] = way {
        if let Some(node) = actual(step, name) {
            return net_at(alloc, rails, before, node);
        }
    }
    own_net(alloc, rails, way, name)
}

/// The nets of names behind X cards.
fn nets_at<'a>(
    alloc: Global,
    rails: &IndexSet<Name>,
    way: &[Step<'a>],
    names: &'a [Name],
) -> Result<Vec<Net<'a>>, AllocError>
    ensures nets { IfOk result (λ nets. nets.items ≡ nets_behind rails.now.keys way.now names.now) }
{
    let mut nets = Vec::with_capacity(alloc, names.len())?;
    for name in names {
        nets.push(net_at(alloc, rails, way, name)?)?;
    }
    Ok(nets)
}

/// The device of a card behind X cards.
pub fn device_at<'a>(
    alloc: Global,
    rails: &IndexSet<Name>,
    way: &[Step<'a>],
    card: &'a DevCard,
) -> Result<FlatDevice<'a>, AllocError>
    ensures device { IfOk result (λ d. d ≡ device_behind rails.now.keys way.now card.now) }
{
    if way.is_empty() {
        return Ok(FlatDevice {
            path: Vec::new(alloc),
            card,
            nets: None,
        });
    }
    Ok(FlatDevice {
        path: path_names(alloc, way)?,
        card,
        nets: Some(nets_at(alloc, rails, way, card.nodes())?),
    })
}
