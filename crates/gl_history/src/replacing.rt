//! The devices of the next round.
ghost use Rattle.std.specs.Prelude.{◌≡◌, ◌<◌, ◌++◌, ◌∷◌, [], ℕ, List, length, map, All, IfOk, OnOk};
ghost use Rattle.gl_lifting.specs.Replacement.{Slot as SlotValue};
ghost use Rattle.gl_history.specs.Plain.{origin_value};
ghost use Rattle.gl_history.specs.Replacing.{slots_of};
ghost use Rattle.gl_history.specs.Marks.{IsWithin, fate_at, slots_by, all_slots_by};

use crate::Origin;
use crate::fate::Fate;
use crate::slot::Slot;
use gl_graph::{Circuit, DevId, Device};
use gl_match::Memory;
use std::alloc::Global;

/// A device with where it comes from, copied.
fn slot_copy(alloc: Global, device: &Device, origin: Origin) -> Result<Slot, Memory>
    ensures slot { IfOk result (λ slot. slot
        ≡ record { device = device.now; origin = origin_value origin }) }
{
    let device = Device {
        kind: device.kind,
        nets: device.nets.to_vec(alloc)?,
    };
    Ok(Slot { device, origin })
}

/// Adds what stands at the place of a device, by what becomes of it.
fn add_slot(
    alloc: Global,
    slots: &mut Vec<Slot>,
    made: &[Slot],
    device: &Device,
    origin: Origin,
    fate: Fate,
) -> Result<(), Memory>
    requires within { IsWithin (length made.now) fate }
    ensures added { OnOk result (slots.new.items ≡ slots.old.items
        ++ slots_by made.now (record { device = device.now; origin = origin_value origin }) fate) }
{
    match fate {
        Fate::Stays => slots.push(slot_copy(alloc, device, origin)?)?,
        Fate::Goes => {}
        Fate::Becomes(index) => {
            let slot = &made[index];
            slots.push(slot_copy(alloc, &slot.device, slot.origin)?)?;
        }
    }
    Ok(())
}

/// The devices that stand behind a round, with their origins: one pass over the devices, by what becomes of each.
pub fn replace_slots(
    alloc: Global,
    circuit: &Circuit,
    origins: &[Origin],
    made: &[Slot],
    fates: &[Fate],
) -> Result<Vec<Slot>, Memory>
    requires origins { length origins.now ≡ length circuit.now.devices }
    requires fates { length fates.now ≡ length circuit.now.devices }
    requires within { All (IsWithin (length made.now)) fates.now }
    ensures slots { IfOk result (λ slots. slots.items ≡ all_slots_by made.now
        (slots_of circuit.now.devices (map origin_value origins.now)) fates.now) }
{
    let mut slots = Vec::with_capacity(alloc, fates.len())?;
    for i in 0..circuit.devices() {
        let device = circuit.device(DevId(i));
        add_slot(
            alloc,
            &mut slots,
            made,
            device,
            origins[i as usize],
            fates[i as usize],
        )?;
    }
    Ok(slots)
}

/// Devices apart from their origins, in their order.
#[derive(Drop)]
pub struct Parted {
    /// The devices.
    pub devices: Vec<Device>,
    /// Where each comes from.
    pub origins: Vec<Origin>,
}

/// Takes devices and origins apart.
pub fn taken_apart(alloc: Global, slots: Vec<Slot>) -> Result<Parted, Memory>
    ensures devices { IfOk result (λ parts. parts.devices.items
        ≡ map (λ (s : SlotValue). s.device) slots.items) }
    ensures origins { IfOk result (λ parts. map origin_value parts.origins.items
        ≡ map (λ (s : SlotValue). s.origin) slots.items) }
{
    let mut devices = Vec::with_capacity(alloc, slots.len())?;
    let mut origins = Vec::with_capacity(alloc, slots.len())?;
    for slot in slots {
        devices.push(slot.device)?;
        origins.push(slot.origin)?;
    }
    Ok(Parted { devices, origins })
}
