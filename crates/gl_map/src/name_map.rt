ghost use Rattle.std.specs.Prelude.{◌≡◌};

use gl_line::Name;
use std::marker::Model;

/// A map of names: of each device and of each net the new name, and the old one beside it. Contracts see it as its two lists.
#[derive(Debug, Drop)]
pub struct NameMap {
    pub(crate) devices: Vec<(Name, Name)>,
    pub(crate) nets: Vec<(Name, Name)>,
}

impl Model for NameMap {
    ghost use Rattle.gl_lifting.specs.NameMaps.{NameMap as NameMapValue};

    ghost Value = { NameMapValue };

    ghost view = { λ m. record { devices = m.devices.items; nets = m.nets.items } };
}

impl NameMap {
    /// The map of these devices and nets, each with its new name first.
    pub fn of(devices: Vec<(Name, Name)>, nets: Vec<(Name, Name)>) -> NameMap
        ensures map { result ≡ record { devices = devices.items; nets = nets.items } }
    {
        NameMap { devices, nets }
    }

    /// The devices, each with its new name first. Device i, from 0, stands on line i + 2.
    pub fn devices(&self) -> &[(Name, Name)]
        ensures devices { result.now ≡ self.now.devices }
    {
        &self.devices
    }

    /// The nets, each with its new name first. Their lines follow those of the devices.
    pub fn nets(&self) -> &[(Name, Name)]
        ensures nets { result.now ≡ self.now.nets }
    {
        &self.nets
    }
}
