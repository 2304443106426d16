//! The job `lift` through the top call where a call of the desk fails.

use crate::lifted_texts::desk_of;
use crate::reports::answers;
use gl_desk::{CallKind, Memory, MemoryDesk, Slot};
use std::alloc::Global;

const DECK: &str =
    "one inverter\n.global vdd\n.model nch nmos\n.model pch pmos\nm1 out in vdd vdd pch w=4u l=1u\nm2 out in 0 0 nch w=2u l=1u\n.end\n";

const INV: &str =
    "* gates\n.global vdd\n.subckt inv a y\nmp y a vdd vdd pch\nmn y a 0 0 nch\n.ends\n";

/// What `lift` answers where the call of this kind and number fails, at most 50 bytes a call.
fn faulty(alloc: Global, kind: CallKind, number: u32) -> Result<Vec<u8>, Memory> {
    let mut desk = desk_of(alloc, ("deck", DECK), ("library", INV))?;
    desk.fail(kind, number)?;
    let outputs = [Slot::Lifted, Slot::NewMap, Slot::Report];
    answers(alloc, desk, &outputs, "lift deck library lifted map report")
}

/// The kind and number of a call that fails, and what is answered.
const CALLS: [(CallKind, u32, &str); 18] = [
    // the first piece of the deck
    (
        CallKind::Take,
        1,
        "7[none][none][none][gatelift: 7 read: Deck\n]",
    ),
    // the end of the deck, the first and the last of the library, and no further one
    (
        CallKind::Take,
        4,
        "7[none][none][none][gatelift: 7 read: Deck\n]",
    ),
    (
        CallKind::Take,
        5,
        "7[none][none][none][gatelift: 7 read: Library\n]",
    ),
    (
        CallKind::Take,
        7,
        "7[none][none][none][gatelift: 7 read: Library\n]",
    ),
    // an input that is not opened
    (
        CallKind::Open,
        1,
        "7[none][none][none][gatelift: 7 read: Deck\n]",
    ),
    (
        CallKind::Open,
        2,
        "7[none][none][none][gatelift: 7 read: Library\n]",
    ),
    // no output is opened
    (
        CallKind::Open,
        3,
        "8[none][none][none][gatelift: 8 write: Lifted\n]",
    ),
    // the lifted deck is whole, and so is the map behind it
    (
        CallKind::Open,
        4,
        "8[one inverter\n.global vdd\n.model nch nmos\n.model pch pmos\n.subckt inv_v1 a y\nmp y a vdd vdd pch w=4u l=1u\nmn y a 0 0 nch w=2u l=1u\n.ends inv_v1\nxg1 in out inv_v1\n.end\n][none][none][gatelift: 8 write: NewMap\n]",
    ),
    (
        CallKind::Open,
        5,
        "8[one inverter\n.global vdd\n.model nch nmos\n.model pch pmos\n.subckt inv_v1 a y\nmp y a vdd vdd pch w=4u l=1u\nmn y a 0 0 nch w=2u l=1u\n.ends inv_v1\nxg1 in out inv_v1\n.end\n][gatelift map 1\ndevice m.xg1.mp m1\ndevice m.xg1.mn m2\nnet out out\nnet in in\nnet vdd vdd\nnet 0 0\nend\n][none][gatelift: 8 write: Report\n]",
    ),
    // nothing was given yet
    (
        CallKind::Give,
        1,
        "8[][none][none][gatelift: 8 write: Lifted\n]",
    ),
    // in the middle of each file
    (
        CallKind::Give,
        3,
        "8[one inverter\n.global vdd\n.model nch nmos\n.model pch pmos\n.subckt inv_v1 a y\nmp y a vdd vdd pch w=4u ][none][none][gatelift: 8 write: Lifted\n]",
    ),
    (
        CallKind::Give,
        6,
        "8[one inverter\n.global vdd\n.model nch nmos\n.model pch pmos\n.subckt inv_v1 a y\nmp y a vdd vdd pch w=4u l=1u\nmn y a 0 0 nch w=2u l=1u\n.ends inv_v1\nxg1 in out inv_v1\n.end\n][gatelift map 1\ndevice m.xg1.mp m1\ndevice m.xg1.mn ][none][gatelift: 8 write: NewMap\n]",
    ),
    (
        CallKind::Give,
        8,
        "8[one inverter\n.global vdd\n.model nch nmos\n.model pch pmos\n.subckt inv_v1 a y\nmp y a vdd vdd pch w=4u l=1u\nmn y a 0 0 nch w=2u l=1u\n.ends inv_v1\nxg1 in out inv_v1\n.end\n][gatelift map 1\ndevice m.xg1.mp m1\ndevice m.xg1.mn m2\nnet out out\nnet in in\nnet vdd vdd\nnet 0 0\nend\n][round 0\ncell inv ports 2 instances 1 chosen 1\n1 xg][gatelift: 8 write: Report\n]",
    ),
    // the first bytes of the later files
    (
        CallKind::Give,
        5,
        "8[one inverter\n.global vdd\n.model nch nmos\n.model pch pmos\n.subckt inv_v1 a y\nmp y a vdd vdd pch w=4u l=1u\nmn y a 0 0 nch w=2u l=1u\n.ends inv_v1\nxg1 in out inv_v1\n.end\n][][none][gatelift: 8 write: NewMap\n]",
    ),
    (
        CallKind::Give,
        7,
        "8[one inverter\n.global vdd\n.model nch nmos\n.model pch pmos\n.subckt inv_v1 a y\nmp y a vdd vdd pch w=4u l=1u\nmn y a 0 0 nch w=2u l=1u\n.ends inv_v1\nxg1 in out inv_v1\n.end\n][gatelift map 1\ndevice m.xg1.mp m1\ndevice m.xg1.mn m2\nnet out out\nnet in in\nnet vdd vdd\nnet 0 0\nend\n][][gatelift: 8 write: Report\n]",
    ),
    // no such call is made
    (
        CallKind::Open,
        6,
        "0[one inverter\n.global vdd\n.model nch nmos\n.model pch pmos\n.subckt inv_v1 a y\nmp y a vdd vdd pch w=4u l=1u\nmn y a 0 0 nch w=2u l=1u\n.ends inv_v1\nxg1 in out inv_v1\n.end\n][gatelift map 1\ndevice m.xg1.mp m1\ndevice m.xg1.mn m2\nnet out out\nnet in in\nnet vdd vdd\nnet 0 0\nend\n][round 0\ncell inv ports 2 instances 1 chosen 1\n1 xg1 a=in y=out | mp=m1 mn=m2\nleft 0\nend\n][]",
    ),
    (
        CallKind::Give,
        9,
        "0[one inverter\n.global vdd\n.model nch nmos\n.model pch pmos\n.subckt inv_v1 a y\nmp y a vdd vdd pch w=4u l=1u\nmn y a 0 0 nch w=2u l=1u\n.ends inv_v1\nxg1 in out inv_v1\n.end\n][gatelift map 1\ndevice m.xg1.mp m1\ndevice m.xg1.mn m2\nnet out out\nnet in in\nnet vdd vdd\nnet 0 0\nend\n][round 0\ncell inv ports 2 instances 1 chosen 1\n1 xg1 a=in y=out | mp=m1 mn=m2\nleft 0\nend\n][]",
    ),
    (
        CallKind::Take,
        8,
        "0[one inverter\n.global vdd\n.model nch nmos\n.model pch pmos\n.subckt inv_v1 a y\nmp y a vdd vdd pch w=4u l=1u\nmn y a 0 0 nch w=2u l=1u\n.ends inv_v1\nxg1 in out inv_v1\n.end\n][gatelift map 1\ndevice m.xg1.mp m1\ndevice m.xg1.mn m2\nnet out out\nnet in in\nnet vdd vdd\nnet 0 0\nend\n][round 0\ncell inv ports 2 instances 1 chosen 1\n1 xg1 a=in y=out | mp=m1 mn=m2\nleft 0\nend\n][]",
    ),
];

#[test]
fn failing_calls(rt: HostRuntime) -> Result<(), Memory> {
    let alloc = rt.alloc();
    for (kind, number, wanted) in CALLS {
        let found = faulty(alloc, kind, number)?;
        assert!(rt; found.as_slice() == wanted.as_bytes());
    }
    Ok(())
}

/// The same where a slot wants to be opened by another name, which counts no fault.
fn misnamed(alloc: Global, slot: Slot) -> Result<Vec<u8>, Memory> {
    let mut desk = desk_of(alloc, ("deck", DECK), ("library", INV))?;
    desk.want(slot, "other")?;
    let outputs = [Slot::Lifted, Slot::NewMap, Slot::Report];
    answers(alloc, desk, &outputs, "lift deck library lifted map report")
}

/// A slot that wants another name, and what is answered.
const NAMES: [(Slot, &str); 5] = [
    (Slot::Deck, "7[none][none][none][gatelift: 7 read: Deck\n]"),
    (
        Slot::Library,
        "7[none][none][none][gatelift: 7 read: Library\n]",
    ),
    (
        Slot::Lifted,
        "8[none][none][none][gatelift: 8 write: Lifted\n]",
    ),
    (
        Slot::NewMap,
        "8[one inverter\n.global vdd\n.model nch nmos\n.model pch pmos\n.subckt inv_v1 a y\nmp y a vdd vdd pch w=4u l=1u\nmn y a 0 0 nch w=2u l=1u\n.ends inv_v1\nxg1 in out inv_v1\n.end\n][none][none][gatelift: 8 write: NewMap\n]",
    ),
    (
        Slot::Report,
        "8[one inverter\n.global vdd\n.model nch nmos\n.model pch pmos\n.subckt inv_v1 a y\nmp y a vdd vdd pch w=4u l=1u\nmn y a 0 0 nch w=2u l=1u\n.ends inv_v1\nxg1 in out inv_v1\n.end\n][gatelift map 1\ndevice m.xg1.mp m1\ndevice m.xg1.mn m2\nnet out out\nnet in in\nnet vdd vdd\nnet 0 0\nend\n][none][gatelift: 8 write: Report\n]",
    ),
];

#[test]
fn other_names(rt: HostRuntime) -> Result<(), Memory> {
    let alloc = rt.alloc();
    for (slot, wanted) in NAMES {
        let found = misnamed(alloc, slot)?;
        assert!(rt; found.as_slice() == wanted.as_bytes());
    }
    Ok(())
}
