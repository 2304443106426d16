//! The limits of what `lift` writes, through the top call: names as long as they may be, and one byte longer.

use crate::lifted_texts::{all_written, lifted, restored};
use gl_desk::Memory;
use std::alloc::Global;

/// The deck: one resistor.
const DECK: &str = "limit\nra a b 1k\n.end\n";

/// What is answered where a name is too long: no output is opened.
const LONG_NAME: &str =
    "6[none][none][none][gatelift: 6 limit: 50 OutLimit which=Name number=1024\n]";

/// A name of so many bytes.
fn name_of(alloc: Global, length: u32) -> Result<String, Memory> {
    let mut name = String::from_str(alloc, "r")?;
    for _ in 1..length {
        name.push_str("q")?;
    }
    Ok(name)
}

/// What `lift` answers on a library of one cell, of this name and with a card of this name.
fn answered(alloc: Global, cell: &str, card: &str) -> Result<Vec<u8>, Memory> {
    let library = format!(in alloc; ".subckt {cell} p q\n{card} p q\n.ends\n")?;
    lifted(alloc, DECK, &library, "")
}

/// The three files of such a library.
fn files(alloc: Global, cell: &str, card: &str) -> Result<[String; 3], Memory> {
    Ok([
        format!(in alloc;
            "limit\n.subckt {cell}_v1 p q\n{card} p q 1k\n.ends {cell}_v1\nxg1 a b {cell}_v1\n.end\n"
        )?,
        format!(in alloc; "gatelift map 1\ndevice r.xg1.{card} ra\nnet a a\nnet b b\nend\n")?,
        format!(in alloc;
            "round 0\ncell {cell} ports 2 instances 2 chosen 1\n1 xg1 p=a q=b | {card}=ra\n2 over xg1 p=b q=a | {card}=ra\nleft 0\nend\n"
        )?,
    ])
}

/// Whether the files are written, and `restore` of them gives the deck.
fn are_written(alloc: Global, cell: &str, card: &str) -> Result<bool, Memory> {
    let [text, map, report] = files(alloc, cell, card)?;
    let found = answered(alloc, cell, card)?;
    let wanted = all_written(alloc, [&text, &map, &report])?;
    let back = restored(alloc, &text, &map, "")?;
    let original = format!(in alloc; "0[{DECK}][]")?;
    Ok(found.as_slice() == wanted.as_bytes() && back.as_slice() == original.as_bytes())
}

/// A variant's name has three bytes more than its cell's.
#[test]
fn names_of_variants(rt: HostRuntime) -> Result<(), Memory> {
    let alloc = rt.alloc();
    assert!(rt; are_written(alloc, &name_of(alloc, 1_021)?, "r1")?);
    let long = answered(alloc, &name_of(alloc, 1_022)?, "r1")?;
    assert!(rt; long.as_slice() == LONG_NAME.as_bytes());
    Ok(())
}

/// The flat name of a chosen instance's resistor has six bytes more than the cell's card.
#[test]
fn flat_names(rt: HostRuntime) -> Result<(), Memory> {
    let alloc = rt.alloc();
    assert!(rt; are_written(alloc, "one", &name_of(alloc, 1_018)?)?);
    let long = answered(alloc, "one", &name_of(alloc, 1_019)?)?;
    assert!(rt; long.as_slice() == LONG_NAME.as_bytes());
    Ok(())
}
