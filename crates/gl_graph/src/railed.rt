//! The rails of a circuit: each stands on a net of its own.
ghost use Rattle.std.specs.Prelude.{◌≡◌, ◌+◌, ◌<◌, ◌^◌, not, length, take, None, slice_index_or};
ghost use Rattle.std.specs.Bool.{OnTrue};
ghost use Rattle.gl_graph.specs.Faults.{first_in, rail_fault, is_bad_rail, AnswersBy};
ghost use Rattle.gl_graph.specs.Kept.{IsRailTable};

use crate::marks::mark_new;
use crate::{BuildFault, NetId};
use std::alloc::Global;

/// Marks the net of the next rail, and tells whether it is a net and that of no earlier rail.
fn add_rail(table: &mut Vec<bool>, rails: &[Option<NetId>], rail: usize) -> bool
    requires rail { rail < length rails.now }
    requires earlier { IsRailTable (take rail rails.now) (length table.old.items) table.old.items }
    ensures sound { let net = slice_index_or rails.now rail None in
        result ≡ not (is_bad_rail (length table.old.items) rails.now rail net) }
    ensures marked { let count = length table.old.items in
        OnTrue result (IsRailTable (take (rail + 1) rails.now) count table.new.items) }
{
    match rails[rail] {
        Some(net) => mark_new(table, net.0 as usize),
        None => true,
    }
}

/// Which nets are those of rails, or the first rail whose net is out of range or is that of an earlier rail.
pub fn nets_of_rails(
    alloc: Global,
    nets: u32,
    rails: &[Option<NetId>],
) -> Result<Vec<bool>, BuildFault>
    requires { length rails.now < 2 ^ 32 }
    ensures answer { let refusal = first_in (rail_fault nets rails.now) 0 rails.now in
        AnswersBy result (λ table. IsRailTable rails.now nets table.items) refusal }
{
    let mut table = vec![in alloc; false; nets as usize].map_err(|_| BuildFault::Memory)?;
    for rail in 0..rails.len() {
        if !add_rail(&mut table, rails, rail) {
            let rail = rail as u32;
            return Err(BuildFault::BadRail { rail });
        }
    }
    Ok(table)
}
