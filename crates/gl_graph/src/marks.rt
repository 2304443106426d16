//! Tables of which numbers stand in lists.
ghost use Rattle.std.specs.Prelude.{◌≡◌, ◌<◌, ◌&&◌, ◌||◌, not, ℕ, nat_lt, length, IfOk, true, false, slice_index_or, slice_set, if◌then◌else◌};
ghost use Rattle.gl_match.specs.Graph.{is_in};
ghost use Rattle.gl_graph.specs.Faults.{is_placed};
ghost use Rattle.gl_graph.specs.Kept.{IsTable};

use crate::{Device, NetId};
use std::alloc::{AllocError, Global};

/// Marks the nets of a list. What is no net is passed over.
fn mark_all(table: &mut Vec<bool>, listed: &[NetId])
    ensures count { length table.new.items ≡ length table.old.items }
    ensures marked { (net : ℕ) → net < length table.old.items →
        slice_index_or table.new.items net false
        ≡ (slice_index_or table.old.items net false || is_in listed.now net) }
{
    let nets = table.len();
    for net in listed {
        if (net.0 as usize) < nets {
            table[net.0 as usize] = true;
        }
    }
}

/// Which nets stand in the list.
pub fn nets_in(alloc: Global, listed: &[NetId], nets: usize) -> Result<Vec<bool>, AllocError>
    ensures table { IfOk result (λ table. IsTable (is_in listed.now) nets table.items) }
{
    let mut table = vec![in alloc; false; nets]?;
    mark_all(&mut table, listed);
    Ok(table)
}

/// Which nets stand on some device.
pub fn nets_on_devices(
    alloc: Global,
    devices: &[Device],
    nets: usize,
) -> Result<Vec<bool>, AllocError>
    ensures table { IfOk result (λ table. IsTable (is_placed devices.now) nets table.items) }
{
    let mut table = vec![in alloc; false; nets]?;
    for device in devices {
        mark_all(&mut table, device.nets());
    }
    Ok(table)
}

/// Marks a number, and tells whether it stands in the table and was not marked before.
pub fn mark_new(table: &mut Vec<bool>, number: usize) -> bool
    ensures fresh { result
        ≡ (nat_lt number (length table.old.items)
        && not (slice_index_or table.old.items number false)) }
    ensures marked { table.new.items
        ≡ (if result then slice_set table.old.items number true else table.old.items) }
{
    if number >= table.len() || table[number] {
        return false;
    }
    table[number] = true;
    true
}
