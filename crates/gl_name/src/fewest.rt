ghost use Rattle.std.specs.Prelude.{◌≡◌, IfOk};
ghost use Rattle.gl_base.specs.Stems.{IsStem, names_in, stem_with};
ghost use Rattle.gl_name.specs.Needs.{need_of_names};

use crate::Flat;
use crate::underscores::{underscores_for_devices, underscores_for_names};
use gl_fault::Memory;
use std::alloc::Global;

/// How many underscores the stem of a flat deck has.
fn underscores_for_deck(flat: &Flat) -> usize
    ensures needed { result ≡ need_of_names (names_in flat.now) }
{
    let devices = underscores_for_devices(0, flat.devices());
    let nets = underscores_for_names(devices, flat.nets().items());
    let rails = underscores_for_names(nets, flat.rails());
    match flat.top() {
        Some(head) => underscores_for_names(rails, head.ports()),
        None => rails,
    }
}

/// `xg` and so many underscores.
fn with_underscores(alloc: Global, count: usize) -> Result<Vec<u8>, Memory>
    ensures stem { IfOk result (λ stem. stem.items ≡ stem_with count) }
{
    let mut stem = Vec::from_slice(alloc, b"xg")?;
    for _ in 0..count {
        stem.push(b'_')?;
    }
    Ok(stem)
}

/// The stem of the names of chosen instances: `xg` with the fewest underscores such that it stands in no name of the flat deck.
pub fn stem(alloc: Global, flat: &Flat) -> Result<Vec<u8>, Memory>
    ensures stem { IfOk result (λ stem. IsStem (names_in flat.now) stem.items) }
{
    with_underscores(alloc, underscores_for_deck(flat))
}
