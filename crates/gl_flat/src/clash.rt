ghost use Rattle.std.specs.Prelude.{◌≡◌, None, OnOk, IfErr};
ghost use Rattle.gl_flat.specs.Refusals.{IsFaultIn};
ghost use Rattle.gl_flat.specs.SeenNames.{PlainDiffer};
ghost use Rattle.gl_flat.specs.TopNames.{clash_with_top};

use crate::FlatFault;
use crate::device::FlatDevice;
use crate::scene::Scene;
use crate::seen::Seen;
use std::alloc::Global;

/// Refuses the first device's name that an earlier device has, or net's flat name that an earlier other net has. The nets of
/// the top stand before all others.
pub fn refuse_clash<'a>(
    alloc: Global,
    scene: &Scene<'a>,
    devices: &[FlatDevice<'a>],
) -> Result<(), FlatFault>
    requires plain { PlainDiffer devices.now }
    ensures ok { OnOk result (clash_with_top scene.now devices.now ≡ None) }
    ensures refused { IfErr result (IsFaultIn (clash_with_top scene.now devices.now)) }
{
    let mut seen = Seen::of_scene(alloc, scene);
    seen.add_all(alloc, devices)?;
    Ok(())
}
