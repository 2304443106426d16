ghost use Rattle.std.specs.Prelude.{◌≡◌, ◌≤◌, max, length, map};
ghost use Rattle.gl_flat.specs.Kept.{KeptDevice as Kept};
ghost use Rattle.gl_name.specs.Needs.{underscores, need_at, need, need_of_names};

use gl_flat::{KeptDevice, Name};

/// How many underscores the bytes begin with.
fn underscores_at(bytes: &[u8]) -> usize
    ensures count { result ≡ underscores bytes.now }
    ensures bound { result ≤ length bytes.now }
{
    let mut count: usize = 0;
    for byte in bytes {
        if *byte != b'_' {
            return count;
        }
        count += 1;
    }
    count
}

/// How many underscores a stem needs beside an `xg` that the bytes begin with.
fn underscores_here(bytes: &[u8]) -> usize
    ensures needed { result ≡ need_at bytes.now }
{
    match bytes {
        [b'x', b'g', behind @ ..] => underscores_at(behind) + 1,
        _ => 0,
    }
}

/// How many underscores a stem needs, so that it does not stand in the bytes.
fn underscores_in(bytes: &[u8]) -> usize
    ensures needed { result ≡ need bytes.now }
{
    let mut most: usize = 0;
    let mut rest = bytes;
    while let [_, behind @ ..] = rest {
        most = most.max(underscores_here(rest));
        rest = behind;
    }
    most
}

/// How many underscores a stem needs beside names, where other names need so many.
pub fn underscores_for_names(most: usize, names: &[Name]) -> usize
    ensures needed { result ≡ max most (need_of_names names.now) }
{
    let mut count = most;
    for name in names {
        count = count.max(underscores_in(name.as_bytes()));
    }
    count
}

/// The same for the names of devices.
pub fn underscores_for_devices(most: usize, devices: &[KeptDevice]) -> usize
    ensures needed { result ≡ max most (need_of_names (map (λ (d : Kept). d.name) devices.now)) }
{
    let mut count = most;
    for device in devices {
        count = count.max(underscores_in(device.name().as_bytes()));
    }
    count
}
