//! The refusals of devices and pinned nets, each as the first that there is.
ghost use Rattle.std.specs.Prelude.{◌+◌, ◌<◌, ◌^◌, length, All};
ghost use Rattle.gl_graph.specs.Built.{count_places};
ghost use Rattle.gl_graph.specs.Faults.{first_in, device_fault, net_fault, pin_fault, Finds};

use crate::{BuildFault, DevId, Device, NetId, Shape};

/// Refuses the first net of a device that is out of range.
fn check_nets(nets: u32, device: DevId, listed: &[NetId]) -> Result<(), BuildFault>
    requires { length listed.now < 2 ^ 32 }
    ensures first { Finds result (first_in (net_fault nets device) 0 listed.now) }
{
    for (place, net) in listed.iter().enumerate() {
        if net.0 >= nets {
            let place = place as u32;
            return Err(BuildFault::BadNet { device, place });
        }
    }
    Ok(())
}

/// Refuses a device that has a fault.
fn check_device(shapes: &[Shape], nets: u32, dev: DevId, device: &Device) -> Result<(), BuildFault>
    requires has { length device.now.nets < 2 ^ 32 }
    requires needs { All (λ classes. length classes < 2 ^ 32) shapes.now }
    ensures first { Finds result (device_fault shapes.now nets dev device.now) }
{
    let Some(shape) = shapes.get(device.kind().0 as usize) else {
        return Err(BuildFault::BadType { device: dev });
    };
    let has = device.nets().len();
    let needs = shape.classes().len();
    if has != needs {
        return Err(BuildFault::BadLength {
            device: dev,
            has: has as u32,
            needs: needs as u32,
        });
    }
    check_nets(nets, dev, device.nets())
}

/// Refuses the first device that has a fault.
pub fn check_devices(shapes: &[Shape], nets: u32, devices: &[Device]) -> Result<(), BuildFault>
    requires count { length devices.now + count_places devices.now < 2 ^ 32 }
    requires needs { All (λ classes. length classes < 2 ^ 32) shapes.now }
    ensures first { Finds result (first_in (device_fault shapes.now nets) 0 devices.now) }
{
    for (dev, device) in devices.iter().enumerate() {
        check_device(shapes, nets, DevId(dev as u32), device)?;
    }
    Ok(())
}

/// Refuses the first pinned net that is out of range.
pub fn check_pins(nets: u32, pinned: &[NetId]) -> Result<(), BuildFault>
    requires { length pinned.now < 2 ^ 32 }
    ensures first { Finds result (first_in (pin_fault nets) 0 pinned.now) }
{
    for (index, net) in pinned.iter().enumerate() {
        if net.0 >= nets {
            let index = index as u32;
            return Err(BuildFault::BadPin { index });
        }
    }
    Ok(())
}
