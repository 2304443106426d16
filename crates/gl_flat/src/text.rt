//! The flat text of devices that are reached, without a flat deck between.
ghost use Rattle.std.specs.Prelude.{◌≡◌, ◌∷◌, [], ◌++◌, OnOk, map, flat_map};
ghost use Rattle.std.specs.Option.{option_copied};
ghost use Rattle.gl_text.specs.Flattening.{flat_text, flat_line, top_net};
ghost use Rattle.gl_flat.specs.Lines.{devices_text, model_text, nets_text};
ghost use Rattle.gl_flat.specs.Steps.{flat_by};

use crate::device::FlatDevice;
use crate::frame::Frame;
use crate::naming::{put_device_name, put_net};
use crate::net::Net;
use crate::print::{put_tail, put_word};
use crate::{Head, Memory, Name};
use gl_deck::{put_all_passed, put_ends, put_globals, put_head, put_models, put_text};

/// Appends a space and a net's flat name.
fn put_node(out: &mut Vec<u8>, net: &Net<'_>) -> Result<(), Memory>
    ensures ok { OnOk result (out.new.items ≡ out.old.items ++ nets_text (net.now ∷ [])) }
{
    out.push(b' ')?;
    put_net(out, net)?;
    Ok(())
}

/// Appends a space and the flat name of each of the nets.
fn put_nodes(out: &mut Vec<u8>, nets: &[Net<'_>]) -> Result<(), Memory>
    ensures ok { OnOk result (out.new.items ≡ out.old.items ++ nets_text nets.now) }
{
    for net in nets {
        put_node(out, net)?;
    }
    Ok(())
}

/// Appends a space and each of the names of nets of the top.
fn put_top_nodes(out: &mut Vec<u8>, names: &[Name]) -> Result<(), Memory>
    ensures ok { OnOk result (out.new.items ≡ out.old.items ++ nets_text (map top_net names.now)) }
{
    for name in names {
        put_word(out, name.as_bytes())?;
    }
    Ok(())
}

/// Appends a space and the flat name of each of a device's nets.
fn put_places(out: &mut Vec<u8>, device: &FlatDevice<'_>) -> Result<(), Memory>
    ensures ok { OnOk result (out.new.items ≡ out.old.items ++ nets_text device.now.nets) }
{
    match &device.nets {
        None => put_top_nodes(out, device.card.nodes()),
        Some(nets) => put_nodes(out, nets),
    }
}

/// Appends a space and a model's name, if there is one.
fn put_model(out: &mut Vec<u8>, model: Option<&Name>) -> Result<(), Memory>
    ensures ok { OnOk result (out.new.items
        ≡ out.old.items ++ model_text (option_copied model.entry)) }
{
    match model {
        Some(name) => put_word(out, name.as_bytes()),
        None => Ok(()),
    }
}

/// Appends a device's line.
fn put_device(out: &mut Vec<u8>, device: &FlatDevice<'_>) -> Result<(), Memory>
    ensures ok { OnOk result (out.new.items ≡ out.old.items ++ flat_line device.now) }
{
    put_device_name(out, device)?;
    put_places(out, device)?;
    put_model(out, device.card.model())?;
    put_tail(out, device.card.tail().as_bytes())?;
    out.push(b'\n')?;
    Ok(())
}

/// Appends the devices' lines.
fn put_devices(out: &mut Vec<u8>, devices: &[FlatDevice<'_>]) -> Result<(), Memory>
    ensures ok { OnOk result (out.new.items ≡ out.old.items ++ flat_map flat_line devices.now) }
{
    for device in devices {
        put_device(out, device)?;
    }
    Ok(())
}

/// Appends the devices' lines, between those of the top subcircuit if there is one.
fn put_around(
    out: &mut Vec<u8>,
    head: Option<&Head>,
    devices: &[FlatDevice<'_>],
) -> Result<(), Memory>
    ensures ok { OnOk result (out.new.items
        ≡ out.old.items ++ devices_text (option_copied head.entry) devices.now) }
{
    match head {
        None => put_devices(out, devices),
        Some(head) => {
            put_head(out, head)?;
            put_devices(out, devices)?;
            put_ends(out, head.name())
        }
    }
}

/// Appends the text of the flat deck of devices.
pub fn put_flat(
    out: &mut Vec<u8>,
    frame: &Frame<'_>,
    devices: &[FlatDevice<'_>],
) -> Result<(), Memory>
    ensures ok { OnOk result (out.new.items
        ≡ out.old.items ++ flat_text (flat_by frame.now devices.now)) }
{
    let deck = frame.deck;
    put_text(out, deck.title())?;
    put_globals(out, frame.rails)?;
    put_models(out, deck.models())?;
    put_around(out, frame.head, devices)?;
    put_all_passed(out, deck.passed())?;
    put_text(out, b".end")?;
    Ok(())
}
