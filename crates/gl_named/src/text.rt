//! The map's text, from what stands under numbers.
ghost use Rattle.std.specs.Prelude.{◌≡◌, ◌≤◌, ◌++◌, codes, flat_map, length, map, IfErr, IfOk, OnOk};
ghost use Rattle.gl_text.specs.LogicalLines.{FILE};
ghost use Rattle.gl_flat.specs.Kept.{KeptDevice as Kept};
ghost use Rattle.gl_lifting.specs.NameMaps as maps;
ghost use Rattle.gl_lifting.specs.NameMaps.{map_line};
ghost use Rattle.gl_limit.specs.Bounds.{Tells};
ghost use Rattle.gl_named.specs.Firsts.{at_number};
ghost use Rattle.gl_named.specs.Walks.{renamed_from};

use crate::new_name::new_name;
use gl_flat::KeptDevice;
use gl_limit::{WriteFault, check_length, fronts_are_shorter};
use gl_map::{Name, put_map_end, put_map_header, put_map_line};
use std::alloc::Global;

/// Appends a line of a map, unless the text is then longer than a file may be.
fn put_line(out: &mut Vec<u8>, word: &[u8], new: &Name, old: &Name) -> Result<(), WriteFault>
    ensures ok { OnOk result
        (out.new.items ≡ out.old.items ++ map_line word.now (new.now, old.now)) }
    ensures fault { IfErr result
        (λ fault. Tells fault (out.old.items ++ map_line word.now (new.now, old.now))) }
{
    put_map_line(out, word, new, old)?;
    check_length(out)
}

/// Appends the lines of devices, as long as the text is no longer than a file may be.
fn put_devices(
    out: &mut Vec<u8>,
    table: &[Option<Name>],
    devices: &[KeptDevice],
) -> Result<(), WriteFault>
    ensures ok { OnOk result (out.new.items ≡ out.old.items ++ flat_map (map_line (codes "device"))
        (renamed_from (at_number table.now) 0 (map (λ (d : Kept). d.name) devices.now))) }
    ensures fault { IfErr result (λ fault. Tells fault (out.old.items
        ++ flat_map (map_line (codes "device")) (renamed_from (at_number table.now) 0
        (map (λ (d : Kept). d.name) devices.now)))) }
{
    fronts_are_shorter();
    let mut number: usize = 0;
    for device in devices {
        let old = device.name();
        put_line(out, b"device", new_name(table, number, old), old)?;
        number += 1;
    }
    Ok(())
}

/// Appends the lines of nets, as long as the text is no longer than a file may be.
fn put_nets(out: &mut Vec<u8>, table: &[Option<Name>], nets: &[Name]) -> Result<(), WriteFault>
    ensures ok { OnOk result (out.new.items ≡ out.old.items
        ++ flat_map (map_line (codes "net")) (renamed_from (at_number table.now) 0 nets.now)) }
    ensures fault { IfErr result (λ fault. Tells fault (out.old.items
        ++ flat_map (map_line (codes "net")) (renamed_from (at_number table.now) 0 nets.now))) }
{
    fronts_are_shorter();
    let mut number: usize = 0;
    for old in nets {
        put_line(out, b"net", new_name(table, number, old), old)?;
        number += 1;
    }
    Ok(())
}

/// The text of the map of these devices and nets, unless it is longer than a file may be. Nothing is built that is much longer.
pub fn map_text(
    alloc: Global,
    new_devices: &[Option<Name>],
    devices: &[KeptDevice],
    new_nets: &[Option<Name>],
    nets: &[Name],
) -> Result<Vec<u8>, WriteFault>
    ensures text { IfOk result (λ text. text.items ≡ maps.map_text (record {
      devices = renamed_from (at_number new_devices.now) 0 (map (λ (d : Kept). d.name) devices.now);
      nets = renamed_from (at_number new_nets.now) 0 nets.now;
    })) }
    ensures short { IfOk result (λ text. length text.items ≤ FILE) }
    ensures fault { IfErr result (λ fault. Tells fault (maps.map_text (record {
      devices = renamed_from (at_number new_devices.now) 0 (map (λ (d : Kept). d.name) devices.now);
      nets = renamed_from (at_number new_nets.now) 0 nets.now;
    }))) }
{
    fronts_are_shorter();
    let mut out = Vec::new(alloc);
    put_map_header(&mut out)?;
    put_devices(&mut out, new_devices, devices)?;
    put_nets(&mut out, new_nets, nets)?;
    put_map_end(&mut out)?;
    check_length(&out)?;
    Ok(out)
}
