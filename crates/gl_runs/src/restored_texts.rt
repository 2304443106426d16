//! The job `restore` through the top call: restored decks, refusals in their order and calls that fail.
ghost use Rattle.std.specs.Prelude.{IfOk};
ghost use Rattle.gl_desk.specs.Desk.{IsFresh};
ghost use Rattle.gl_desk.specs.MemoryDesk.{view_of};

use crate::reports::answer;
use gl_desk::{CallKind, Memory, MemoryDesk, Slot};
use std::alloc::Global;

/// An inverter whose transistor of the upper half had its ends exchanged.
const LIFTED: &str =
    "exchanged\n.global vdd\n.model nch nmos\n.model pch pmos\n.subckt inv_v1 a y\nmp vdd a y vdd pch ad=1p as=2p\nmn y a 0 0 nch ad=3p as=4p\n.ends inv_v1\nxg1 in out inv_v1\n.end\n";

const MAP: &str =
    "gatelift map 1\ndevice m.xg1.mp m1\ndevice m.xg1.mn m2\nnet vdd vdd\nnet in in\nnet out out\nnet 0 0\nend\n";

const BACK: &str =
    "exchanged\n.global vdd\n.model nch nmos\n.model pch pmos\nm1 vdd in out vdd pch ad=1p as=2p\nm2 out in 0 0 nch ad=3p as=4p\n.end\n";

/// Two X cards, one in the other, with inner nets of both.
const NEST: &str =
    "nest\n.subckt cellb p\nm3 p n 0 0 nch w=1u\nc1 n 0 1p\n.ends\n.subckt cella q\nx1 q cellb\n.ends\nx2 top1 cella\n.end\n";

/// A subcircuit that is the top.
const TOPPED: &str =
    "* extracted\n.subckt inv_v1 a y vdd gnd\nmp y a vdd vdd pch w=4u\nmn y a gnd gnd nch w=2u\n.ends inv_v1\n.subckt top in out vdd gnd\nxg1 in mid vdd gnd inv_v1\nc1 mid gnd 2.1fF\nr1 mid out 1k\n.ends top\n.end\n";

/// A desk that holds a lifted deck and a map.
fn desk_of(alloc: Global, lifted: &str, map: &str) -> Result<MemoryDesk, Memory>
    ensures fresh { IfOk result (IsFresh view_of) }
{
    let mut desk = MemoryDesk::new(alloc, 50);
    desk.put("lifted", lifted.as_bytes())?;
    desk.put("map", map.as_bytes())?;
    Ok(desk)
}

/// What the run answers: its status, what was written and what was said.
fn restored(alloc: Global, lifted: &str, map: &str) -> Result<Vec<u8>, Memory> {
    let desk = desk_of(alloc, lifted, map)?;
    answer(alloc, desk, Slot::Out, "restore lifted map out")
}

/// This text was written, and nothing said.
fn written(alloc: Global, text: &str) -> Result<String, Memory> {
    let mut wanted = String::from_str(alloc, "0[")?;
    wanted.push_str(text)?;
    wanted.push_str("][]")?;
    Ok(wanted)
}

/// Nothing was written, and this refusal of the map was said.
fn refused(alloc: Global, refusal: &str) -> Result<String, Memory> {
    let mut wanted = String::from_str(alloc, "4[none][gatelift: 4 map: ")?;
    wanted.push_str(refusal)?;
    wanted.push_str("\n]")?;
    Ok(wanted)
}

/// A lifted deck, a map, and the flat deck under its old names.
const TEXTS: [(&str, &str, &str); 8] = [
    (LIFTED, MAP, BACK),
    // carriage returns at the ends of lines
    (
        LIFTED,
        "gatelift map 1\r\ndevice m.xg1.mp m1\r\ndevice m.xg1.mn m2\r\nnet vdd vdd\r\nnet in in\r\nnet out out\r\nnet 0 0\r\nend\r\n",
        BACK,
    ),
    // no last newline
    (
        LIFTED,
        "gatelift map 1\ndevice m.xg1.mp m1\ndevice m.xg1.mn m2\nnet vdd vdd\nnet in in\nnet out out\nnet 0 0\nend",
        BACK,
    ),
    // two nets are exchanged: another deck comes out
    (
        LIFTED,
        "gatelift map 1\ndevice m.xg1.mp m1\ndevice m.xg1.mn m2\nnet vdd vdd\nnet in out\nnet out in\nnet 0 0\nend\n",
        "exchanged\n.global vdd\n.model nch nmos\n.model pch pmos\nm1 vdd out in vdd pch ad=1p as=2p\nm2 in out 0 0 nch ad=3p as=4p\n.end\n",
    ),
    // the devices in another order, and nets too
    (
        LIFTED,
        "gatelift map 1\ndevice m.xg1.mn m2\ndevice m.xg1.mp m1\nnet 0 0\nnet vdd vdd\nnet in in\nnet out out\nend\n",
        "exchanged\n.global vdd\n.model nch nmos\n.model pch pmos\nm2 out in 0 0 nch ad=3p as=4p\nm1 vdd in out vdd pch ad=1p as=2p\n.end\n",
    ),
    // the cards were reordered by hand, and one tail changed
    (
        "exchanged\n.global vdd\n.model nch nmos\n.model pch pmos\nxg1 in out inv_v1\n.subckt inv_v1 a y\nmn y a 0 0 nch ad=3p as=4p\nmp vdd a y vdd pch ad=9p as=2p\n.ends\n",
        MAP,
        "exchanged\n.global vdd\n.model nch nmos\n.model pch pmos\nm1 vdd in out vdd pch ad=9p as=2p\nm2 out in 0 0 nch ad=3p as=4p\n.end\n",
    ),
    // X cards in X cards, whose inner nets get their names back
    (
        NEST,
        "gatelift map 1\ndevice m.x2.x1.m3 m7\ndevice c.x2.x1.c1 c8\nnet top1 top1\nnet x2.x1.n k\nnet 0 0\nend\n",
        "nest\nm7 top1 k 0 0 nch w=1u\nc8 k 0 1p\n.end\n",
    ),
    // no devices
    ("t\n", "gatelift map 1\nend\n", "t\n.end\n"),
];

#[test]
fn restored_texts(rt: HostRuntime) -> Result<(), Memory> {
    let alloc = rt.alloc();
    for (lifted, map, text) in TEXTS {
        let found = restored(alloc, lifted, map)?;
        assert!(rt; found.as_slice() == written(alloc, text)?.as_bytes());
    }
    Ok(())
}

/// A map of the inverter, and the refusal that is said.
const MAPS: [(&str, &str); 13] = [
    ("", "40 BadHeader"),
    // 40 before 41
    ("gatelift map 2\nnets\n", "40 BadHeader"),
    // 41 before 42
    ("gatelift map 1\nnet a\n", "41 BadLine line=2"),
    // two spaces, a large letter, a device behind a net, and a line behind the end
    (
        "gatelift map 1\ndevice m.xg1.mp  m1\nend\n",
        "41 BadLine line=2",
    ),
    (
        "gatelift map 1\ndevice m.xg1.mp M1\nend\n",
        "41 BadLine line=2",
    ),
    (
        "gatelift map 1\nnet in in\ndevice m.xg1.mp m1\nend\n",
        "41 BadLine line=3",
    ),
    (
        "gatelift map 1\ndevice m.xg1.mp m1\nend\nend\n",
        "41 BadLine line=4",
    ),
    // 42 before 43
    (
        "gatelift map 1\ndevice m.xg1.mp m1\ndevice m.xg1.mp m2\n",
        "42 NoEnd",
    ),
    // 43 before 44
    (
        "gatelift map 1\ndevice m.xg1.mp m1\ndevice m.xg1.mp m2\nend\n",
        "43 DoubleNew line=3",
    ),
    (
        "gatelift map 1\ndevice m.xg1.mp m1\ndevice m.xg1.mn m2\nnet in in\nnet in out\nend\n",
        "43 DoubleNew line=5",
    ),
    // an empty map
    ("gatelift map 1\nend\n", "44 Missing name=m.xg1.mp"),
    // 44 before 45: a device and then a net
    (
        "gatelift map 1\ndevice m.xg1.mp m1\ndevice m9 m2\nend\n",
        "44 Missing name=m.xg1.mn",
    ),
    (
        "gatelift map 1\ndevice m.xg1.mp m1\ndevice m.xg1.mn m2\nnet vdd vdd\nnet q in\nnet out out\nend\n",
        "44 Missing name=in",
    ),
];

#[test]
fn maps_refused(rt: HostRuntime) -> Result<(), Memory> {
    let alloc = rt.alloc();
    for (map, refusal) in MAPS {
        let found = restored(alloc, LIFTED, map)?;
        assert!(rt; found.as_slice() == refused(alloc, refusal)?.as_bytes());
    }
    Ok(())
}

/// The lines of a map of the inverter between the first and the last, and the refusal that is said.
const LINES: [(&str, &str); 8] = [
    // 45 before 46, also at a later line: a device before a net
    (
        "device m.xg1.mp m1\ndevice m.xg1.mn m2\nnet vdd vdd\nnet in in\nnet out in\nnet 0 0\nnet q q\n",
        "45 Extra line=8",
    ),
    (
        "device m.xg1.mp m1\ndevice m.xg1.mn m2\ndevice m9 m9\nnet q q\nnet vdd vdd\nnet in in\nnet out out\nnet 0 0\n",
        "45 Extra line=4",
    ),
    // 46 before 47, at a later line
    (
        "device m.xg1.mp r1\ndevice m.xg1.mn m2\nnet vdd vdd\nnet in out\nnet out out\nnet 0 0\n",
        "46 NetMerge line=6",
    ),
    (
        "device m.xg1.mp m1\ndevice m.xg1.mn m2\nnet vdd vdd\nnet in in\nnet out in\nnet 0 in\n",
        "46 NetMerge line=6",
    ),
    // 47 before 48
    (
        "device m.xg1.mp r1\ndevice m.xg1.mn r1\nnet vdd vdd\nnet in in\nnet out out\nnet 0 0\n",
        "47 LetterChanged line=2",
    ),
    (
        "device m.xg1.mp m1\ndevice m.xg1.mn c2\nnet vdd vdd\nnet in in\nnet out out\nnet 0 0\n",
        "47 LetterChanged line=3",
    ),
    (
        "device m.xg1.mp m1\ndevice m.xg1.mn m1\nnet vdd vdd\nnet in in\nnet out out\nnet 0 0\n",
        "48 DeviceMerge line=3",
    ),
    // a map of another deck
    (
        "device m.xg1.mp1 m1\ndevice m.xg1.mp2 m2\nnet y y\nnet a a\n",
        "44 Missing name=m.xg1.mp",
    ),
];

#[test]
fn lines_refused(rt: HostRuntime) -> Result<(), Memory> {
    let alloc = rt.alloc();
    for (lines, refusal) in LINES {
        let mut map = String::from_str(alloc, "gatelift map 1\n")?;
        map.push_str(lines)?;
        map.push_str("end\n")?;
        let found = restored(alloc, LIFTED, map.as_str())?;
        assert!(rt; found.as_slice() == refused(alloc, refusal)?.as_bytes());
    }
    Ok(())
}

/// So many letters.
fn letters(alloc: Global, count: u32) -> Result<String, Memory> {
    let mut name = String::new(alloc);
    for _ in 0..count {
        name.push_str("a")?;
    }
    Ok(name)
}

/// The answer of a deck whose net has a long name, and of a map where this name has so many letters.
fn long_named(alloc: Global, count: u32) -> Result<Vec<u8>, Memory> {
    let mut deck = String::from_str(alloc, "t\nr1 ")?;
    deck.push_str(letters(alloc, 1024)?.as_str())?;
    deck.push_str(" 0 1\n")?;
    let mut map = String::from_str(alloc, "gatelift map 1\ndevice r1 r1\nnet ")?;
    map.push_str(letters(alloc, count)?.as_str())?;
    map.push_str(" b\nnet 0 0\nend\n")?;
    restored(alloc, deck.as_str(), map.as_str())
}

#[test]
fn long_names(rt: HostRuntime) -> Result<(), Memory> {
    let alloc = rt.alloc();
    let longest = long_named(alloc, 1024)?;
    assert!(rt; longest.as_slice() == written(alloc, "t\nr1 b 0 1\n.end\n")?.as_bytes());
    let longer = long_named(alloc, 1025)?;
    assert!(rt; longer.as_slice() == refused(alloc, "41 BadLine line=3")?.as_bytes());
    Ok(())
}

/// The map of the deck with a top.
const TOPPED_MAP: &str =
    "gatelift map 1\ndevice m.xg1.mp m1000\ndevice m.xg1.mn m1001\ndevice c1 c1\ndevice r1 r1\nnet mid mid\nnet in in\nnet vdd vdd\nnet gnd gnd\nnet out out\nend\n";

/// A lifted deck, words, and what is answered. No slot holds what `none` names.
const WORDS: [(&str, &str, &str); 10] = [
    (
        TOPPED,
        "restore lifted map out --top TOP",
        "0[* extracted\n.subckt top in out vdd gnd\nm1000 mid in vdd vdd pch w=4u\nm1001 mid in gnd gnd nch w=2u\nc1 mid gnd 2.1fF\nr1 mid out 1k\n.ends top\n.end\n][]",
    ),
    // without it the deck has no devices
    (
        TOPPED,
        "restore lifted map out",
        "4[none][gatelift: 4 map: 45 Extra line=2\n]",
    ),
    // the deck is refused before the map is opened
    (
        TOPPED,
        "restore lifted none out --top other",
        "2[none][gatelift: 2 deck: 24 NoTop name=other\n]",
    ),
    (
        "t\nq1 c b e mod\n",
        "restore lifted none out",
        "2[none][gatelift: 2 deck: 4 UnknownCard line=2 byte=113\n]",
    ),
    (
        "t\n.subckt s a\nr1 a n 1k\nr2 n 0 1k\n.ends\nx1 p s\nr3 x1.n 0 2k\n",
        "restore lifted none out",
        "2[none][gatelift: 2 deck: 20 NameClash name=x1.n\n]",
    ),
    (
        TOPPED,
        "restore lifted none out",
        "7[none][gatelift: 7 read: Map\n]",
    ),
    (
        TOPPED,
        "restore none map out",
        "7[none][gatelift: 7 read: Deck\n]",
    ),
    (TOPPED, "restore lifted map", "1[none][gatelift: 1 words\n]"),
    (
        TOPPED,
        "restore lifted map out more",
        "1[none][gatelift: 1 words\n]",
    ),
    (
        TOPPED,
        "restore lifted map out --keep mid",
        "1[none][gatelift: 1 words\n]",
    ),
];

#[test]
fn words(rt: HostRuntime) -> Result<(), Memory> {
    let alloc = rt.alloc();
    for (lifted, words, wanted) in WORDS {
        let desk = desk_of(alloc, lifted, TOPPED_MAP)?;
        let found = answer(alloc, desk, Slot::Out, words)?;
        assert!(rt; found.as_slice() == wanted.as_bytes());
    }
    Ok(())
}

/// The same as `restored` of the inverter where a call fails.
fn faulty(alloc: Global, kind: CallKind, number: u32) -> Result<Vec<u8>, Memory> {
    let mut desk = desk_of(alloc, LIFTED, MAP)?;
    desk.fail(kind, number)?;
    answer(alloc, desk, Slot::Out, "restore lifted map out")
}

#[test]
fn failing_calls(rt: HostRuntime) -> Result<(), Memory> {
    let alloc = rt.alloc();
    let second_open = faulty(alloc, CallKind::Open, 2)?;
    assert!(rt; second_open.as_slice() == b"7[none][gatelift: 7 read: Map\n]".as_slice());
    let third_open = faulty(alloc, CallKind::Open, 3)?;
    assert!(rt; third_open.as_slice() == b"8[none][gatelift: 8 write: Out\n]".as_slice());
    let second_give = faulty(alloc, CallKind::Give, 2)?;
    assert!(rt;
        second_give.as_slice()
            == b"8[exchanged\n.global vdd\n.model nch nmos\n.model pch p][gatelift: 8 write: Out\n]".as_slice()
    );
    Ok(())
}
