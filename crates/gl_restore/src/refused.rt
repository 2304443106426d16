ghost use Rattle.std.specs.Prelude.{◌≡◌, ◌+◌, ◌<◌, ◌^◌, [], None, Some, length, map, option_map, OnOk, IfOk, IfErr};
ghost use Rattle.gl_lifting.specs.Renaming.{missing, extra, net_merge, letter_changed, device_merge};
ghost use Rattle.gl_lifting.specs.Renaming.{first_missing, first_line, is_for_none, is_merged, has_other_letter, old_name};
ghost use Rattle.gl_text.specs.Cards as cards;
ghost use Rattle.gl_restore.specs.Refusals.{IsFaultIn};
ghost use Rattle.gl_restore.specs.Backs.{kept_name};

use crate::devices::Devices;
use crate::lines::Lines;
use crate::{Memory, Name, RestoreFault};
use gl_flat::{KeptDevice, Names};
use indexmap::IndexSet;
use std::alloc::Global;

/// The refusal of a name that has no line.
fn missing_name(alloc: Global, name: &Name) -> RestoreFault
    ensures missing { IsFaultIn (Some (missing name.now)) result }
{
    match Name::of(alloc, name.as_bytes()) {
        Ok(name) => RestoreFault::Missing { name },
        Err(Memory) => RestoreFault::Memory,
    }
}

/// Refuses the first device that has no line.
pub fn refuse_missing(
    alloc: Global,
    lines: &Lines<'_>,
    devices: &[KeptDevice],
) -> Result<(), RestoreFault>
    ensures ok { OnOk result (first_missing lines.now (map kept_name devices.now) ≡ None) }
    ensures refused { IfErr result
        (IsFaultIn (option_map missing (first_missing lines.now (map kept_name devices.now)))) }
{
    for device in devices {
        if !lines.has(device.name()) {
            return Err(missing_name(alloc, device.name()));
        }
    }
    Ok(())
}

/// The old names of nets, in their order, or the first net that has no line.
pub fn old_nets<'a>(
    alloc: Global,
    lines: &Lines<'a>,
    nets: &[Name],
) -> Result<Vec<&'a Name>, RestoreFault>
    ensures ok { OnOk result (first_missing lines.now nets.now ≡ None) }
    ensures names { IfOk result (λ olds.
        map (λ n. n.now) olds.items ≡ map (old_name lines.now) nets.now) }
    ensures refused { IfErr result (IsFaultIn (option_map missing (first_missing lines.now nets.now))) }
{
    let mut olds = Vec::with_capacity(alloc, nets.len())?;
    for net in nets {
        match lines.old_name(net) {
            Some(old) => olds.push(old)?,
            None => return Err(missing_name(alloc, net)),
        }
    }
    Ok(olds)
}

/// Refuses the first line whose new name is that of no device.
pub fn refuse_extra_devices(
    devices: &Devices<'_>,
    lines: &[(Name, Name)],
) -> Result<(), RestoreFault>
    requires few { 2 + length lines.now < 2 ^ 32 }
    ensures ok { OnOk result
        (first_line (is_for_none (map kept_name devices.now)) 2 [] lines.now ≡ None) }
    ensures refused { IfErr result (IsFaultIn (option_map extra
        (first_line (is_for_none (map kept_name devices.now)) 2 [] lines.now))) }
{
    let mut number: u32 = 2;
    for line in lines {
        if !devices.has(&line.0) {
            return Err(RestoreFault::Extra { line: number });
        }
        number += 1;
    }
    Ok(())
}

/// Refuses the first line whose new name is that of no net, where the first line has this number.
pub fn refuse_extra_nets(
    nets: &Names,
    start: u32,
    lines: &[(Name, Name)],
) -> Result<(), RestoreFault>
    requires few { start + length lines.now < 2 ^ 32 }
    ensures ok { OnOk result (first_line (is_for_none nets.now) start [] lines.now ≡ None) }
    ensures refused { IfErr result
        (IsFaultIn (option_map extra (first_line (is_for_none nets.now) start [] lines.now))) }
{
    let mut number = start;
    for line in lines {
        if !nets.has(&line.0) {
            return Err(RestoreFault::Extra { line: number });
        }
        number += 1;
    }
    Ok(())
}

/// The first line whose old name an earlier one has, where the first line has this number.
fn first_merged(alloc: Global, start: u32, lines: &[(Name, Name)]) -> Result<Option<u32>, Memory>
    requires few { start + length lines.now < 2 ^ 32 }
    ensures first { IfOk result (λ found. found ≡ first_line is_merged start [] lines.now) }
{
    let mut olds = IndexSet::new(alloc);
    let mut number = start;
    for line in lines {
        let old = Name::of(alloc, line.1.as_bytes())?;
        let is_new = olds.insert(old)?;
        if !is_new {
            return Ok(Some(number));
        }
        number += 1;
    }
    Ok(None)
}

/// Refuses the first net whose old name an earlier one has, where the first line has this number.
pub fn refuse_net_merges(
    alloc: Global,
    start: u32,
    lines: &[(Name, Name)],
) -> Result<(), RestoreFault>
    requires few { start + length lines.now < 2 ^ 32 }
    ensures ok { OnOk result (first_line is_merged start [] lines.now ≡ None) }
    ensures refused { IfErr result
        (IsFaultIn (option_map net_merge (first_line is_merged start [] lines.now))) }
{
    match first_merged(alloc, start, lines)? {
        Some(line) => Err(RestoreFault::NetMerge { line }),
        None => Ok(()),
    }
}

/// Refuses the first device whose old name an earlier one has.
pub fn refuse_device_merges(alloc: Global, lines: &[(Name, Name)]) -> Result<(), RestoreFault>
    requires few { 2 + length lines.now < 2 ^ 32 }
    ensures ok { OnOk result (first_line is_merged 2 [] lines.now ≡ None) }
    ensures refused { IfErr result
        (IsFaultIn (option_map device_merge (first_line is_merged 2 [] lines.now))) }
{
    match first_merged(alloc, 2, lines)? {
        Some(line) => Err(RestoreFault::DeviceMerge { line }),
        None => Ok(()),
    }
}

/// The first byte of a name; 0 where there is none.
fn first_byte(name: &Name) -> u8
    ensures byte { result ≡ cards.first_byte name.now }
{
    match name.as_bytes() {
        [byte, ..] => *byte,
        [] => 0,
    }
}

/// The two names of a line have two letters.
fn has_two_letters(line: &(Name, Name)) -> bool
    ensures letters { result ≡ has_other_letter [] line.now }
{
    first_byte(&line.0) != first_byte(&line.1)
}

/// Refuses the first line whose names have two letters. It takes no memory.
pub fn refuse_letters(lines: &[(Name, Name)]) -> Result<(), RestoreFault>
    requires few { 2 + length lines.now < 2 ^ 32 }
    ensures ok { OnOk result (first_line has_other_letter 2 [] lines.now ≡ None) }
    ensures refused { IfErr result
        (IsFaultIn (option_map letter_changed (first_line has_other_letter 2 [] lines.now))) }
{
    let mut number: u32 = 2;
    for line in lines {
        if has_two_letters(line) {
            return Err(RestoreFault::LetterChanged { line: number });
        }
        number += 1;
    }
    Ok(())
}
