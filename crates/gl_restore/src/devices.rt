ghost use Rattle.std.specs.Prelude.{◌≡◌, map, IfOk};
ghost use Rattle.std.specs.Option.{option_copied};
ghost use Rattle.indexmap.specs.IndexMap.{get};
ghost use Rattle.gl_text.specs.LogicalLines.{same_text};
ghost use Rattle.gl_text.specs.Decks.{is_in};
ghost use Rattle.gl_restore.specs.Places.{ArePlaces, first_named};
ghost use Rattle.gl_restore.specs.Backs.{kept_name};

use crate::places::{Places, note};
use crate::{Memory, Name};
use gl_flat::KeptDevice;
use indexmap::IndexMap;
use std::alloc::Global;
use std::marker::Model;

/// The devices of a flat deck, looked up by their names. Contracts see the devices.
#[derive(Drop)]
pub struct Devices<'a> {
    devices: &'a [KeptDevice],
    places: Places,
}

impl<'a> Model for Devices<'a> {
    ghost use Rattle.std.specs.Prelude.{List};
    ghost use Rattle.indexmap.specs.IndexMap.{get};
    ghost use Rattle.gl_text.specs.LogicalLines.{same_text};
    ghost use Rattle.gl_flat.specs.Kept.{KeptDevice as Kept};
    ghost use Rattle.gl_restore.specs.Places.{ArePlaces};
    ghost use Rattle.gl_restore.specs.Backs.{kept_name};

    ghost Value = { List Kept };

    ghost view = { λ d. d.devices.now };

    ghost invariant = { λ d. ArePlaces kept_name d.devices.now (get same_text d.places) };
}

/// The places of devices, by their names.
fn places_of(alloc: Global, devices: &[KeptDevice]) -> Result<Places, Memory>
    ensures places { IfOk result (λ places. ArePlaces kept_name devices.now (get same_text places)) }
{
    let mut places = IndexMap::new(alloc);
    let mut place: usize = 0;
    for device in devices {
        note(alloc, &mut places, device.name(), place)?;
        place += 1;
    }
    Ok(places)
}

impl<'a> Devices<'a> {
    /// The devices.
    pub fn of(alloc: Global, devices: &'a [KeptDevice]) -> Result<Devices<'a>, Memory>
        ensures devices { IfOk result (λ d. d ≡ devices.now) }
    {
        Ok(Devices {
            devices,
            places: places_of(alloc, devices)?,
        })
    }

    /// The first device of a name.
    pub fn find(&self, name: &Name) -> Option<&'a KeptDevice>
        ensures found { option_copied result ≡ first_named kept_name name.now self.now }
    {
        match self.places.get(name) {
            Some(place) => self.devices.get(*place),
            None => None,
        }
    }

    /// A device has the name.
    pub fn has(&self, name: &Name) -> bool
        ensures has { result ≡ is_in name.now (map kept_name self.now) }
    {
        self.find(name).is_some()
    }
}
