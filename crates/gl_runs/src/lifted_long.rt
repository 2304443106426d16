//! The job `lift` through the top call: a cell of as many cards as a cell may have.

use crate::lifted_texts::{all_written, lifted, restored};
use gl_desk::Memory;
use std::alloc::Global;

/// The resistors of the cell, which has an inductor before them: 256 cards.
const RESISTORS: u32 = 255;

/// The net of the cell behind so many of its resistors.
fn cell_net(alloc: Global, number: u32) -> Result<String, Memory> {
    match number {
        RESISTORS => Ok(String::from_str(alloc, "q")?),
        _ => Ok(format!(in alloc; "n{number}")?),
    }
}

/// An inductor and resistors in a row, as a cell.
fn cell(alloc: Global) -> Result<String, Memory> {
    let mut text = String::from_str(alloc, ".subckt long p q\nl1 p n0\n")?;
    for below in 0..RESISTORS {
        let number = below + 1;
        let near = cell_net(alloc, below)?;
        let far = cell_net(alloc, number)?;
        text.push_str(&format!(in alloc; "r{number} {near} {far}\n")?)?;
    }
    text.push_str(".ends\n")?;
    Ok(text)
}

/// The same row in a deck, with a value each. Each second resistor has its ends exchanged.
fn deck(alloc: Global) -> Result<String, Memory> {
    let mut text = String::from_str(alloc, "long\nld a a0 1n\n")?;
    for below in 0..RESISTORS {
        let number = below + 1;
        let (first, second) = if below % 2 == 0 {
            (below, number)
        } else {
            (number, below)
        };
        text.push_str(&format!(in alloc; "rd{number} a{first} a{second} {number}k\n")?)?;
    }
    text.push_str(".end\n")?;
    Ok(text)
}

/// The lifted deck: one variant, which has the values and the exchanged ends, and its call.
fn lifted_deck(alloc: Global) -> Result<String, Memory> {
    let mut text = String::from_str(alloc, "long\n.subckt long_v1 p q\nl1 p n0 1n\n")?;
    for below in 0..RESISTORS {
        let number = below + 1;
        let near = cell_net(alloc, below)?;
        let far = cell_net(alloc, number)?;
        let (first, second) = if below % 2 == 0 {
            (near, far)
        } else {
            (far, near)
        };
        text.push_str(&format!(in alloc; "r{number} {first} {second} {number}k\n")?)?;
    }
    text.push_str(".ends long_v1\nxg1 a a255 long_v1\n.end\n")?;
    Ok(text)
}

/// The lines of the map for resistors.
fn device_lines(alloc: Global) -> Result<String, Memory> {
    let mut text = String::new(alloc);
    for below in 0..RESISTORS {
        let number = below + 1;
        text.push_str(&format!(in alloc; "device r.xg1.r{number} rd{number}\n")?)?;
    }
    Ok(text)
}

/// The lines of the map for inner nets.
fn inner_lines(alloc: Global) -> Result<String, Memory> {
    let mut text = String::new(alloc);
    for number in 0..RESISTORS {
        text.push_str(&format!(in alloc; "net xg1.n{number} a{number}\n")?)?;
    }
    Ok(text)
}

/// The images of the cell's resistors.
fn images(alloc: Global) -> Result<String, Memory> {
    let mut text = String::new(alloc);
    for below in 0..RESISTORS {
        let number = below + 1;
        text.push_str(&format!(in alloc; " r{number}=rd{number}")?)?;
    }
    Ok(text)
}

#[test]
fn long_cell(rt: HostRuntime) -> Result<(), Memory> {
    let alloc = rt.alloc();
    let deck = deck(alloc)?;
    let found = lifted(alloc, &deck, &cell(alloc)?, "")?;
    let text = lifted_deck(alloc)?;
    let (devices, nets, images) = (device_lines(alloc)?, inner_lines(alloc)?, images(alloc)?);
    let map = format!(in alloc;
        "gatelift map 1\ndevice l.xg1.l1 ld\n{devices}net a a\n{nets}net a255 a255\nend\n"
    )?;
    let report = format!(in alloc;
        "round 0\ncell long ports 2 instances 1 chosen 1\n1 xg1 p=a q=a255 | l1=ld{images}\nleft 0\nend\n"
    )?;
    let wanted = all_written(alloc, [&text, &map, &report])?;
    assert!(rt; found.as_slice() == wanted.as_bytes());
    let back = restored(alloc, &text, &map, "")?;
    assert!(rt; back.as_slice() == format!(in alloc; "0[{deck}][]")?.as_bytes());
    Ok(())
}
