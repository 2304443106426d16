ghost use Rattle.std.specs.Prelude.{◌≡◌, ◌++◌, ◌∷◌, [], map, OnOk, IfOk};
ghost use Rattle.gl_text.specs.Cards as cards;
ghost use Rattle.gl_text.specs.Flattening as flat;
ghost use Rattle.gl_text.specs.Flattening.{path_text};

use crate::Name;
use crate::device::FlatDevice;
use crate::flat_name::FlatName;
use crate::net::Net;
use std::alloc::{AllocError, Global};

/// Appends an X card's part of a path.
fn put_step(out: &mut Vec<u8>, name: &Name) -> Result<(), AllocError>
    ensures ok { OnOk result (out.new.items ≡ out.old.items ++ path_text (name.now ∷ [])) }
{
    out.extend_from_slice(name.as_bytes())?;
    out.push(b'.')?;
    Ok(())
}

/// Appends a path.
fn put_path(out: &mut Vec<u8>, path: &[&Name]) -> Result<(), AllocError>
    ensures ok { OnOk result (out.new.items
        ≡ out.old.items ++ path_text (map (λ n. n.now) path.now)) }
{
    for name in path {
        put_step(out, name)?;
    }
    Ok(())
}

/// Appends a net's flat name.
pub fn put_net(out: &mut Vec<u8>, net: &Net<'_>) -> Result<(), AllocError>
    ensures ok { OnOk result (out.new.items ≡ out.old.items ++ flat.net_name net.now) }
{
    put_path(out, &net.path)?;
    out.extend_from_slice(net.name.as_bytes())?;
    Ok(())
}

/// The text of a net's flat name.
fn net_text(alloc: Global, net: &Net<'_>) -> Result<Name, AllocError>
    ensures name { IfOk result (λ name. name ≡ flat.net_name net.now) }
{
    let mut bytes = Vec::new(alloc);
    put_net(&mut bytes, net)?;
    Ok(Name::from_vec(alloc, bytes)?)
}

/// A net's flat name.
pub fn flat_name<'a>(alloc: Global, net: &Net<'a>) -> Result<FlatName<'a>, AllocError>
    ensures name { IfOk result (λ name. name ≡ flat.net_name net.now) }
{
    let own = net.name;
    if net.path.is_empty() {
        return Ok(FlatName { own, made: None });
    }
    let made = Some(net_text(alloc, net)?);
    Ok(FlatName { own, made })
}

/// The first byte of a name; 0 where there is none.
fn first_byte(name: &[u8]) -> u8
    ensures byte { result ≡ cards.first_byte name.now }
{
    match name {
        [byte, ..] => *byte,
        [] => 0,
    }
}

/// Appends a device's flat name.
pub fn put_device_name(out: &mut Vec<u8>, device: &FlatDevice<'_>) -> Result<(), AllocError>
    ensures ok { OnOk result (out.new.items ≡ out.old.items ++ flat.device_name device.now) }
{
    let name = device.card.name().as_bytes();
    if !device.path.is_empty() {
        out.push(first_byte(name))?;
        out.push(b'.')?;
        put_path(out, &device.path)?;
    }
    out.extend_from_slice(name)?;
    Ok(())
}

/// A device's flat name.
pub fn device_text(alloc: Global, device: &FlatDevice<'_>) -> Result<Name, AllocError>
    ensures name { IfOk result (λ name. name ≡ flat.device_name device.now) }
{
    let mut bytes = Vec::new(alloc);
    put_device_name(&mut bytes, device)?;
    Ok(Name::from_vec(alloc, bytes)?)
}
