//! Words and options through the top call.
ghost use Rattle.std.specs.Prelude.{IfOk};
ghost use Rattle.gl_desk.specs.Desk.{IsFresh};
ghost use Rattle.gl_desk.specs.MemoryDesk.{view_of};

use crate::reports::answer;
use gl_desk::{Memory, MemoryDesk, Slot};
use std::alloc::Global;

/// A gate, whose inner net is `x`.
const GATE: &str =
    "loaded\n.global vdd w\n.model nch nmos\n.model pch pmos\nm1 y a vdd vdd pch\nm2 y b vdd vdd pch\nm3 y a x 0 nch\nm4 x b 0 0 nch\n.end\n";

const NAND: &str =
    ".global vdd\n.subckt nand2 a b y\nmp1 y a vdd vdd pch\nmp2 y b vdd vdd pch\nmn1 y a x 0 nch\nmn2 x b 0 0 nch\n.ends\n";

/// The report where the gate is found.
const FOUND: &str =
    "0[round 0\ncell nand2 ports 3 instances 1 chosen 1\n1 xg1 a=a b=b y=y | mp1=m1 mp2=m2 mn1=m3 mn2=m4\nleft 0\nend\n][]";

/// The report where it is not.
const MISSED: &str = "0[round 0\ncell nand2 ports 3 instances 0 chosen 0\nleft 4\nend\n][]";

const WORDS: &str = "1[none][gatelift: 1 words\n]";

/// Two resistors in a row below an X card, and the cell of two in a row.
const ROW: &str = "row\n.subckt two p q\nr1 p n 1\nr2 n q 1\n.ends\nx1 a b two\n";

const TWO: &str = ".subckt pair p q\nra p n\nrb n q\n.ends\n";

/// A deck as an extractor writes it: one subcircuit with all devices.
const EXTRACTED: &str =
    "* extracted\n.subckt top in out vdd gnd\nM1000 mid in vdd vdd pch w=4u l=1u\n+ ad=8p as=8p pd=10u ps=10u\nM1001 mid in gnd gnd nch w=2u l=1u\n+ ad=4p as=4p pd=6u ps=6u\nM1002 out mid vdd vdd pch w=4u l=1u\n+ ad=8p as=8p pd=10u ps=10u\nM1003 out mid gnd gnd nch w=2u l=1u\n+ ad=4p as=4p pd=6u ps=6u\nC1 mid gnd 2.1fF\n.ends\n.end\n";

const PINV: &str = ".subckt inv a y vdd gnd\nmp y a vdd vdd pch\nmn y a gnd gnd nch\n.ends\n";

/// The report of it with its top.
const TOPPED: &str =
    "0[round 0\ncell inv ports 4 instances 2 chosen 2\n1 xg1 a=in y=mid vdd=vdd gnd=gnd | mp=m1000 mn=m1001\n2 xg2 a=mid y=out vdd=vdd gnd=gnd | mp=m1002 mn=m1003\nleft 1\nend\n][]";

/// A desk that holds a deck and a library.
fn desk_of(alloc: Global, deck: &str, library: &str) -> Result<MemoryDesk, Memory>
    ensures fresh { IfOk result (IsFresh view_of) }
{
    let mut desk = MemoryDesk::new(alloc, 50);
    desk.put("deck", deck.as_bytes())?;
    desk.put("library", library.as_bytes())?;
    Ok(desk)
}

/// A deck, a library, the words behind `lift deck library lifted map report`, and what is answered.
const LIFTS: [(&str, &str, &str, &str); 18] = [
    (GATE, NAND, "", FOUND),
    (GATE, NAND, " --keep x", MISSED),
    (GATE, NAND, " --keep=X", MISSED),
    (GATE, NAND, " --keep a,B,y", FOUND),
    // a rail on a device, and one on none
    (GATE, NAND, " --keep vdd,0", FOUND),
    (
        GATE,
        NAND,
        " --keep vdd,w",
        "2[none][gatelift: 2 deck: 32 UnknownKeep name=w\n]",
    ),
    // the first unknown name by the order given, and an empty one
    (
        GATE,
        NAND,
        " --keep nosuch",
        "2[none][gatelift: 2 deck: 32 UnknownKeep name=nosuch\n]",
    ),
    (
        GATE,
        NAND,
        " --keep a,q,p",
        "2[none][gatelift: 2 deck: 32 UnknownKeep name=q\n]",
    ),
    (
        GATE,
        NAND,
        " --keep a,,b",
        "2[none][gatelift: 2 deck: 32 UnknownKeep name=\n]",
    ),
    // a net below an X card
    (
        ROW,
        TWO,
        " --keep x1.n",
        "0[round 0\ncell pair ports 2 instances 0 chosen 0\nleft 2\nend\n][]",
    ),
    (
        ROW,
        TWO,
        " --keep n",
        "2[none][gatelift: 2 deck: 32 UnknownKeep name=n\n]",
    ),
    // a top
    (EXTRACTED, PINV, " --top top", TOPPED),
    (EXTRACTED, PINV, " --top=TOP --keep=in", TOPPED),
    (
        EXTRACTED,
        PINV,
        "",
        "0[round 0\ncell inv ports 4 instances 0 chosen 0\nleft 0\nend\n][]",
    ),
    (
        EXTRACTED,
        PINV,
        " --top other",
        "2[none][gatelift: 2 deck: 24 NoTop name=other\n]",
    ),
    // refusals of the top come before those of kept names
    (
        EXTRACTED,
        PINV,
        " --keep q --top other",
        "2[none][gatelift: 2 deck: 24 NoTop name=other\n]",
    ),
    (
        ROW,
        TWO,
        " --keep q --top two",
        "2[none][gatelift: 2 deck: 25 TopDevices line=6\n]",
    ),
    (ROW, TWO, " --top", WORDS),
];

#[test]
fn lifts_with_options(rt: HostRuntime) -> Result<(), Memory> {
    let alloc = rt.alloc();
    for (deck, library, options, wanted) in LIFTS {
        let mut words = String::from_str(alloc, "lift deck library lifted map report")?;
        words.push_str(options)?;
        let desk = desk_of(alloc, deck, library)?;
        let found = answer(alloc, desk, Slot::Report, words.as_str())?;
        assert!(rt; found.as_slice() == wanted.as_bytes());
    }
    Ok(())
}

/// A deck, all words, and what is answered.
const FLATS: [(&str, &str, &str); 19] = [
    (
        ROW,
        "flat deck out",
        "0[row\nr.x1.r1 a x1.n 1\nr.x1.r2 x1.n b 1\n.end\n][]",
    ),
    (
        ROW,
        "flat -- deck out",
        "0[row\nr.x1.r1 a x1.n 1\nr.x1.r2 x1.n b 1\n.end\n][]",
    ),
    (ROW, "Flat deck out", WORDS),
    (ROW, "FLAT deck out", WORDS),
    (ROW, "lift deck library lifted map", WORDS),
    (ROW, "flat deck out --keep a", WORDS),
    (ROW, "flat deck out --top", WORDS),
    (ROW, "flat deck out --top a --top b", WORDS),
    (ROW, "flat deck out -x", WORDS),
    (ROW, "flat deck --help", WORDS),
    // a top, between its lines, and its refusals in their order
    (
        "t\n.subckt s p q\nr1 p n 1\nr2 n q 1\n.ends\n",
        "flat --top S deck out",
        "0[t\n.subckt s p q\nr1 p n 1\nr2 n q 1\n.ends s\n.end\n][]",
    ),
    (
        ROW,
        "flat deck out --top other",
        "2[none][gatelift: 2 deck: 24 NoTop name=other\n]",
    ),
    (
        ROW,
        "flat deck out --top two",
        "2[none][gatelift: 2 deck: 25 TopDevices line=6\n]",
    ),
    // a name that clashes, without a top, and 24 and 25 in its place
    (
        "t\n.subckt s a\nr1 a n 1\n.ends\nr1 x1.n 0 1\nx1 p s\n",
        "flat deck out",
        "2[none][gatelift: 2 deck: 20 NameClash name=x1.n\n]",
    ),
    (
        "t\n.subckt s a\nr1 a n 1\n.ends\nr1 x1.n 0 1\nx1 p s\n",
        "flat deck out --top u",
        "2[none][gatelift: 2 deck: 24 NoTop name=u\n]",
    ),
    (
        "t\n.subckt s a\nr1 a n 1\n.ends\nr1 x1.n 0 1\nx1 p s\n",
        "flat deck out --top s",
        "2[none][gatelift: 2 deck: 25 TopDevices line=5\n]",
    ),
    // a refusal of reading comes before
    (
        "t\nq1 a b\n",
        "flat deck out --top u",
        "2[none][gatelift: 2 deck: 4 UnknownCard line=2 byte=113\n]",
    ),
    // a file that is not there comes before
    (
        ROW,
        "flat missing out --top u",
        "7[none][gatelift: 7 read: Deck\n]",
    ),
    (ROW, "", WORDS),
];

#[test]
fn flats_with_options(rt: HostRuntime) -> Result<(), Memory> {
    let alloc = rt.alloc();
    for (deck, words, wanted) in FLATS {
        let found = answer(alloc, desk_of(alloc, deck, "")?, Slot::Out, words)?;
        assert!(rt; found.as_slice() == wanted.as_bytes());
    }
    Ok(())
}

#[test]
fn long_kept_name(rt: HostRuntime) -> Result<(), Memory> {
    let alloc = rt.alloc();
    let mut name = String::new(alloc);
    for _ in 0..1025 {
        name.push_str("n")?;
    }
    let words = format!(in alloc; "lift deck library lifted map report --keep {name}")?;
    let wanted = format!(in alloc; "2[none][gatelift: 2 deck: 32 UnknownKeep name={name}\n]")?;
    let found = answer(
        alloc,
        desk_of(alloc, GATE, NAND)?,
        Slot::Report,
        words.as_str(),
    )?;
    assert!(rt; found.as_slice() == wanted.as_bytes());
    Ok(())
}
