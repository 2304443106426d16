ghost use Rattle.std.specs.Prelude.{◌≡◌, ◌+◌, ◌<◌, ◌^◌, ◌++◌, None, OnOk, OnErr, IfOk, IfErr, is_ok, length, map, nat_lt, take, if◌then◌else◌};
ghost use Rattle.gl_text.specs.LogicalLines.{FILE};
ghost use Rattle.gl_text.specs.Flattening.{flat_text};
ghost use Rattle.gl_lifting.specs.Renaming as renaming;
ghost use Rattle.gl_lifting.specs.Renaming.{old_name};
ghost use Rattle.gl_restore.specs.Refusals.{Gives, GivesOf, IsFaultIn};
ghost use Rattle.gl_restore.specs.Backs.{kept_name, line_fault, name_fault};
ghost use Rattle.gl_restore.specs.TooLong.{GivesText, text_within};

use crate::back::{Back, collect_backs};
use crate::devices::Devices;
use crate::length::add_devices;
use crate::lines::Lines;
use crate::print::put_deck;
use crate::refused::{
    old_nets, refuse_device_merges, refuse_extra_devices, refuse_extra_nets, refuse_letters,
    refuse_missing, refuse_net_merges,
};
use crate::{Flat, Memory, Name, NameMap, RestoreFault, TextFault};
use gl_flat::{KeptDevice, Names};
use gl_limit::FILE_LENGTH;
use std::alloc::Global;
use std::marker::Model;

/// A flat deck under the old names of a map. Contracts see it as a flat deck.
#[derive(Drop)]
pub struct Restored<'a> {
    flat: &'a Flat,
    /// The old name of each net, by its number.
    nets: Vec<&'a Name>,
    /// The devices under their old names, in the map's order.
    devices: Vec<Back<'a>>,
}

impl<'a> Model for Restored<'a> {
    ghost use Rattle.std.specs.Prelude.{map};
    ghost use Rattle.gl_text.specs.Flattening.{Flat as FlatValue};
    ghost use Rattle.gl_restore.specs.Backs.{flat_with};

    ghost Value = { FlatValue };

    ghost view = { λ r. flat_with r.flat.now (map (λ n. n.now) r.nets.items) r.devices.items };
}

/// The old names of nets, in their order; or the first device or net that has no line.
fn named_nets<'a>(
    alloc: Global,
    devices: &[KeptDevice],
    nets: &[Name],
    names: &'a NameMap,
) -> Result<Vec<&'a Name>, RestoreFault>
    ensures ok { OnOk result (name_fault (map kept_name devices.now) nets.now names.now ≡ None) }
    ensures olds { IfOk result (λ olds.
        map (λ n. n.now) olds.items ≡ map (old_name names.now.nets) nets.now) }
    ensures refused { IfErr result
        (IsFaultIn (name_fault (map kept_name devices.now) nets.now names.now)) }
{
    let device_lines = Lines::of(alloc, names.devices())?;
    refuse_missing(alloc, &device_lines, devices)?;
    let net_lines = Lines::of(alloc, names.nets())?;
    let olds = old_nets(alloc, &net_lines, nets)?;
    Ok(olds)
}

/// Refuses the first line of a map that devices, nets and the map's other lines do not allow.
fn refuse_lines(
    alloc: Global,
    devices: &Devices<'_>,
    nets: &Names,
    names: &NameMap,
) -> Result<(), RestoreFault>
    requires few { length names.now.devices + length names.now.nets + 2 < 2 ^ 32 }
    ensures ok { OnOk result (line_fault (map kept_name devices.now) nets.now names.now ≡ None) }
    ensures refused { IfErr result
        (IsFaultIn (line_fault (map kept_name devices.now) nets.now names.now)) }
{
    let behind = 2 + names.devices().len() as u32;
    refuse_extra_devices(devices, names.devices())?;
    refuse_extra_nets(nets, behind, names.nets())?;
    refuse_net_merges(alloc, behind, names.nets())?;
    refuse_letters(names.devices())?;
    refuse_device_merges(alloc, names.devices())?;
    Ok(())
}

/// Appends a flat deck under its old names. What stood before stays, also where no memory is found.
fn put_restored(out: &mut Vec<u8>, restored: &Restored<'_>) -> Result<(), Memory>
    ensures ok { OnOk result (out.new.items ≡ out.old.items ++ flat_text restored.now) }
    ensures front { take (length out.old.items) out.new.items ≡ out.old.items }
{
    put_deck(out, restored.flat, &restored.nets, &restored.devices)?;
    Ok(())
}

/// The text of a flat deck under its old names would be longer than a file may be. All but the lines of its devices, which
/// the deck before had too, is built and thrown away.
fn is_too_long(alloc: Global, restored: &Restored<'_>) -> Result<bool, Memory>
    ensures long { IfOk result (λ long. long ≡ nat_lt FILE (length (flat_text restored.now))) }
{
    let mut frame = Vec::new(alloc);
    put_deck(&mut frame, restored.flat, &restored.nets, &[])?;
    Ok(add_devices(frame.as_slice().len(), &restored.nets, &restored.devices) > FILE_LENGTH)
}

impl<'a> Restored<'a> {
    /// The devices and nets of a flat deck under the old names of a map, the devices in the map's order, or the first refusal.
    /// Title, rails, models, the top's head and passed cards stay. The time goes by the devices, the nets and the lines.
    pub fn of(
        alloc: Global,
        flat: &'a Flat,
        names: &'a NameMap,
    ) -> Result<Restored<'a>, RestoreFault>
        requires few { length names.now.devices + length names.now.nets + 2 < 2 ^ 32 }
        ensures restored { Gives result (renaming.restore flat.now names.now) }
    {
        let olds = named_nets(alloc, flat.devices(), flat.nets().items(), names)?;
        let kept = Devices::of(alloc, flat.devices())?;
        refuse_lines(alloc, &kept, flat.nets(), names)?;
        let backs = collect_backs(alloc, &kept, names.devices())?;
        Ok(Restored {
            flat,
            nets: olds,
            devices: backs,
        })
    }

    /// Appends the text of the flat deck. Without memory for all of it nothing is appended.
    pub fn print(&self, out: &mut Vec<u8>) -> Result<(), Memory>
        ensures printed { out.new.items
            ≡ (if is_ok result then out.old.items ++ flat_text self.now else out.old.items) }
    {
        let start = out.len();
        if put_restored(out, self).is_err() {
            out.truncate(start);
            return Err(Memory);
        }
        Ok(())
    }

    /// The text of the flat deck, or that it is longer than a file may be: that is counted first, and nothing so long is built.
    pub fn text(&self, alloc: Global) -> Result<Vec<u8>, TextFault>
        ensures text { GivesText result (text_within self.now) }
    {
        if is_too_long(alloc, self)? {
            return Err(TextFault::RestoredText);
        }
        let mut text = Vec::new(alloc);
        self.print(&mut text)?;
        Ok(text)
    }
}

/// Appends the text of a flat deck under the old names of a map, or gives the first refusal; then nothing is appended.
pub fn restore(
    alloc: Global,
    flat: &Flat,
    names: &NameMap,
    out: &mut Vec<u8>,
) -> Result<(), RestoreFault>
    requires few { length names.now.devices + length names.now.nets + 2 < 2 ^ 32 }
    ensures restored { GivesOf (λ v f. out.new.items ≡ out.old.items ++ flat_text f)
        result (renaming.restore flat.now names.now) }
    ensures unchanged { OnErr result (out.new.items ≡ out.old.items) }
{
    let restored = Restored::of(alloc, flat, names)?;
    restored.print(out)?;
    Ok(())
}
