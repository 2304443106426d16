ghost use Rattle.std.specs.Prelude.{◌≡◌, ◌++◌, OnOk, IfOk, option_to_list};
ghost use Rattle.std.specs.Option.{option_copied};
ghost use Rattle.gl_restore.specs.Backs as renamed;

use crate::devices::Devices;
use crate::{Memory, Name};
use gl_flat::{KeptDevice, Tail};
use std::alloc::Global;
use std::marker::Model;

/// A device of a flat deck under its old name. Contracts see it as a kept device of this name.
#[derive(Drop)]
pub struct Back<'a> {
    name: &'a Name,
    device: &'a KeptDevice,
}

impl<'a> Model for Back<'a> {
    ghost use Rattle.gl_flat.specs.Kept.{KeptDevice as Kept};
    ghost use Rattle.gl_restore.specs.Backs.{under_name};

    ghost Value = { Kept };

    ghost view = { λ b. under_name b.name.now b.device.now };
}

impl<'a> Back<'a> {
    /// Its old name.
    pub fn name(&self) -> &Name
        ensures name { result.now ≡ self.now.name }
    {
        self.name
    }

    /// Its nets, place by place, by their numbers.
    pub fn nets(&self) -> &[u32]
        ensures nets { result.now ≡ self.now.nets }
    {
        self.device.nets()
    }

    /// Its model's name.
    pub fn model(&self) -> Option<&Name>
        ensures model { option_copied result ≡ self.now.model }
    {
        self.device.model()
    }

    /// What follows the fields.
    pub fn tail(&self) -> &Tail
        ensures tail { result.now ≡ self.now.tail }
    {
        self.device.tail()
    }
}

/// Puts the device of a line's new name, if there is one, under its old name behind others.
fn push_back<'a>(
    backs: &mut Vec<Back<'a>>,
    devices: &Devices<'a>,
    line: &'a (Name, Name),
) -> Result<(), Memory>
    ensures pushed { OnOk result (backs.new.items
        ≡ backs.old.items ++ option_to_list (renamed.back_of devices.now line.now)) }
{
    match devices.find(&line.0) {
        Some(device) => {
            backs.push(Back {
                name: &line.1,
                device,
            })?;
            Ok(())
        }
        None => Ok(()),
    }
}

/// The devices of lines under their old names, in the order of the lines.
pub fn collect_backs<'a>(
    alloc: Global,
    devices: &Devices<'a>,
    lines: &'a [(Name, Name)],
) -> Result<Vec<Back<'a>>, Memory>
    ensures backs { IfOk result (λ b. b.items ≡ renamed.backs_of devices.now lines.now) }
{
    let mut backs = Vec::with_capacity(alloc, lines.len())?;
    for line in lines {
        push_back(&mut backs, devices, line)?;
    }
    Ok(backs)
}
