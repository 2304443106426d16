ghost use Rattle.std.specs.Prelude.{◌≡◌, map, position, Option, IfOk};
ghost use Rattle.gl_text.specs.LogicalLines.{same_text};
ghost use Rattle.gl_base.specs.Patterns.{role_by};

use gl_card::Name;
use gl_flat::Names;
use gl_graph::{NetId, Role};
use std::alloc::{AllocError, Global};

/// What a net of a cell is: a rail by its name, port or not; else a port; else inner.
fn role_of(rails: &Names, ports: &Names, net: &Name) -> Role
    ensures role { result ≡ role_by (position (same_text net.now) rails.now) (position (same_text net.now) ports.now) }
{
    if let Some(rail) = rails.find(net) {
        return Role::Rail(rail);
    }
    match ports.find(net) {
        Some(port) => Role::Port(port),
        None => Role::Inner,
    }
}

/// What each net of a cell is.
pub fn roles_of(
    alloc: Global,
    rails: &Names,
    ports: &Names,
    nets: &[Name],
) -> Result<Vec<Role>, AllocError>
    ensures roles { IfOk result (λ roles. roles.items ≡ map (λ net. role_by (position (same_text net) rails.now) (position (same_text net) ports.now)) nets.now) }
{
    nets.iter()
        .map(|net| role_of(rails, ports, net))
        .collect(alloc)
}

/// The net of each rail of a circuit; none for a rail that stands on no device.
pub fn rail_nets(
    alloc: Global,
    rails: &[Name],
    nets: &Names,
) -> Result<Vec<Option<NetId>>, AllocError>
    ensures nets { IfOk result (λ found. found.items ≡ map (λ rail. position (same_text rail) nets.now) rails.now) }
{
    rails
        .iter()
        .map(|rail| nets.find(rail).map(|net| NetId(net)))
        .collect(alloc)
}
