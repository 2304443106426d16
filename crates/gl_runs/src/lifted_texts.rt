//! The job `lift` through the top call: whole texts of all three files, and the way back.
ghost use Rattle.std.specs.Prelude.{IfOk};
ghost use Rattle.gl_desk.specs.Desk.{IsFresh};
ghost use Rattle.gl_desk.specs.MemoryDesk.{view_of};

use crate::reports::{answer, answers};
use gl_desk::{Memory, MemoryDesk, Slot};
use std::alloc::Global;
use std::process::Abort;

/// A deck and a library, and what is wanted of them.
#[derive(Clone, Copy)]
pub struct Row {
    pub deck: &'static str,
    pub library: &'static str,
    /// The library's globals that the deck lacks, as a card behind the deck.
    pub globals: &'static str,
    /// What stands behind the words of `lift`, `restore` and `flat` alike.
    pub options: &'static str,
    pub lifted: &'static str,
    pub map: &'static str,
    pub report: &'static str,
}

const INV: &str =
    "* gates\n.global vdd\n.subckt inv a y\nmp y a vdd vdd pch\nmn y a 0 0 nch\n.ends\n";

const NAND: &str =
    ".global vdd\n.subckt nand2 a b y\nmp1 y a vdd vdd pch\nmp2 y b vdd vdd pch\nmn1 y a x 0 nch\nmn2 x b 0 0 nch\n.ends\n";

/// A desk that holds two texts by their names.
pub fn desk_of(
    alloc: Global,
    first: (&str, &str),
    second: (&str, &str),
) -> Result<MemoryDesk, Memory>
    ensures fresh { IfOk result (IsFresh view_of) }
{
    let mut desk = MemoryDesk::new(alloc, 50);
    desk.put(first.0, first.1.as_bytes())?;
    desk.put(second.0, second.1.as_bytes())?;
    Ok(desk)
}

/// One text behind the other.
pub fn joined(alloc: Global, front: &str, rest: &str) -> Result<String, Memory> {
    let mut text = String::from_str(alloc, front)?;
    text.push_str(rest)?;
    Ok(text)
}

/// The three files were written, and nothing said.
pub fn all_written(alloc: Global, texts: [&str; 3]) -> Result<String, Memory> {
    let mut wanted = String::from_str(alloc, "0")?;
    for text in texts {
        wanted.push_str("[")?;
        wanted.push_str(text)?;
        wanted.push_str("]")?;
    }
    wanted.push_str("[]")?;
    Ok(wanted)
}

/// What `lift` answers: its status, the three files and what was said.
pub fn lifted(alloc: Global, deck: &str, library: &str, options: &str) -> Result<Vec<u8>, Memory> {
    let words = joined(alloc, "lift deck library lifted map report", options)?;
    let desk = desk_of(alloc, ("deck", deck), ("library", library))?;
    answers(
        alloc,
        desk,
        &[Slot::Lifted, Slot::NewMap, Slot::Report],
        &words,
    )
}

/// What `restore` answers on a lifted deck and a map.
pub fn restored(alloc: Global, lifted: &str, map: &str, options: &str) -> Result<Vec<u8>, Memory> {
    let words = joined(alloc, "restore lifted map out", options)?;
    let desk = desk_of(alloc, ("lifted", lifted), ("map", map))?;
    answer(alloc, desk, Slot::Out, &words)
}

/// What `flat` answers on the row's deck, with the library's globals among its own.
fn flattened(alloc: Global, row: Row) -> Result<Vec<u8>, Memory> {
    let words = joined(alloc, "flat deck out", row.options)?;
    let deck = joined(alloc, row.deck, row.globals)?;
    let desk = desk_of(alloc, ("deck", &deck), ("library", row.library))?;
    answer(alloc, desk, Slot::Out, &words)
}

/// `lift` writes the row's three files, and `restore` of them what `flat` writes of the deck.
pub fn is_lifted(rt: &impl Abort, alloc: Global, row: Row) -> Result<(), Memory> {
    let found = lifted(alloc, row.deck, row.library, row.options)?;
    let wanted = all_written(alloc, [row.lifted, row.map, row.report])?;
    assert!(rt; found.as_slice() == wanted.as_bytes());
    let back = restored(alloc, row.lifted, row.map, row.options)?;
    assert!(rt; back.first() == Some(&b'0'));
    assert!(rt; back.as_slice() == flattened(alloc, row)?.as_slice());
    Ok(())
}

/// Decks of one level.
const ROWS: [Row; 15] = [
    // one inverter
    Row {
        deck: "one inverter\n.global vdd\n.model nch nmos\n.model pch pmos\nm1 out in vdd vdd pch w=4u l=1u\nm2 out in 0 0 nch w=2u l=1u\n.end\n",
        library: INV,
        globals: "",
        options: "",
        lifted: "one inverter\n.global vdd\n.model nch nmos\n.model pch pmos\n.subckt inv_v1 a y\nmp y a vdd vdd pch w=4u l=1u\nmn y a 0 0 nch w=2u l=1u\n.ends inv_v1\nxg1 in out inv_v1\n.end\n",
        map: "gatelift map 1\ndevice m.xg1.mp m1\ndevice m.xg1.mn m2\nnet out out\nnet in in\nnet vdd vdd\nnet 0 0\nend\n",
        report: "round 0\ncell inv ports 2 instances 1 chosen 1\n1 xg1 a=in y=out | mp=m1 mn=m2\nleft 0\nend\n",
    },
    // a deck of no bytes
    Row {
        deck: "",
        library: INV,
        globals: "\n.global vdd\n",
        options: "",
        lifted: "\n.global vdd\n.end\n",
        map: "gatelift map 1\nend\n",
        report: "round 0\ncell inv ports 2 instances 0 chosen 0\nleft 0\nend\n",
    },
    // a ring
    Row {
        deck: "ring\n.global vdd\n.model nch nmos\n.model pch pmos\nm1 b a vdd vdd pch\nm2 b a 0 0 nch\nm3 a b vdd vdd pch\nm4 a b 0 0 nch\n.end\n",
        library: INV,
        globals: "",
        options: "",
        lifted: "ring\n.global vdd\n.model nch nmos\n.model pch pmos\n.subckt inv_v1 a y\nmp y a vdd vdd pch\nmn y a 0 0 nch\n.ends inv_v1\nxg1 a b inv_v1\nxg2 b a inv_v1\n.end\n",
        map: "gatelift map 1\ndevice m.xg1.mp m1\ndevice m.xg1.mn m2\ndevice m.xg2.mp m3\ndevice m.xg2.mn m4\nnet b b\nnet a a\nnet vdd vdd\nnet 0 0\nend\n",
        report: "round 0\ncell inv ports 2 instances 2 chosen 2\n1 xg1 a=a y=b | mp=m1 mn=m2\n2 xg2 a=b y=a | mp=m3 mn=m4\nleft 0\nend\n",
    },
    // two sizes, and so two variants
    Row {
        deck: "two sizes\n.global vdd\n.model nch nmos\n.model pch pmos\nm1 b a vdd vdd pch w=4u\nm2 b a 0 0 nch w=2u\nm3 c b vdd vdd pch w=8u\nm4 c b 0 0 nch w=4u\n.end\n",
        library: INV,
        globals: "",
        options: "",
        lifted: "two sizes\n.global vdd\n.model nch nmos\n.model pch pmos\n.subckt inv_v1 a y\nmp y a vdd vdd pch w=4u\nmn y a 0 0 nch w=2u\n.ends inv_v1\n.subckt inv_v2 a y\nmp y a vdd vdd pch w=8u\nmn y a 0 0 nch w=4u\n.ends inv_v2\nxg1 a b inv_v1\nxg2 b c inv_v2\n.end\n",
        map: "gatelift map 1\ndevice m.xg1.mp m1\ndevice m.xg1.mn m2\ndevice m.xg2.mp m3\ndevice m.xg2.mn m4\nnet b b\nnet a a\nnet vdd vdd\nnet 0 0\nnet c c\nend\n",
        report: "round 0\ncell inv ports 2 instances 2 chosen 2\n1 xg1 a=a y=b | mp=m1 mn=m2\n2 xg2 a=b y=c | mp=m3 mn=m4\nleft 0\nend\n",
    },
    // three sizes, of which the third is the first again
    Row {
        deck: "three sizes\n.global vdd\n.model nch nmos\n.model pch pmos\nm1 b a vdd vdd pch w=4u\nm2 b a 0 0 nch w=2u\nm3 c b vdd vdd pch w=8u\nm4 c b 0 0 nch w=4u\nm5 d c vdd vdd pch w=4u\nm6 d c 0 0 nch w=2u\n.end\n",
        library: INV,
        globals: "",
        options: "",
        lifted: "three sizes\n.global vdd\n.model nch nmos\n.model pch pmos\n.subckt inv_v1 a y\nmp y a vdd vdd pch w=4u\nmn y a 0 0 nch w=2u\n.ends inv_v1\n.subckt inv_v2 a y\nmp y a vdd vdd pch w=8u\nmn y a 0 0 nch w=4u\n.ends inv_v2\nxg1 a b inv_v1\nxg2 b c inv_v2\nxg3 c d inv_v1\n.end\n",
        map: "gatelift map 1\ndevice m.xg1.mp m1\ndevice m.xg1.mn m2\ndevice m.xg2.mp m3\ndevice m.xg2.mn m4\ndevice m.xg3.mp m5\ndevice m.xg3.mn m6\nnet b b\nnet a a\nnet vdd vdd\nnet 0 0\nnet c c\nnet d d\nend\n",
        report: "round 0\ncell inv ports 2 instances 3 chosen 3\n1 xg1 a=a y=b | mp=m1 mn=m2\n2 xg2 a=b y=c | mp=m3 mn=m4\n3 xg3 a=c y=d | mp=m5 mn=m6\nleft 0\nend\n",
    },
    // drain and source exchanged
    Row {
        deck: "exchanged\n.global vdd\n.model nch nmos\n.model pch pmos\nm1 vdd in out vdd pch ad=1p as=2p\nm2 out in 0 0 nch ad=3p as=4p\n.end\n",
        library: INV,
        globals: "",
        options: "",
        lifted: "exchanged\n.global vdd\n.model nch nmos\n.model pch pmos\n.subckt inv_v1 a y\nmp vdd a y vdd pch ad=1p as=2p\nmn y a 0 0 nch ad=3p as=4p\n.ends inv_v1\nxg1 in out inv_v1\n.end\n",
        map: "gatelift map 1\ndevice m.xg1.mp m1\ndevice m.xg1.mn m2\nnet vdd vdd\nnet in in\nnet out out\nnet 0 0\nend\n",
        report: "round 0\ncell inv ports 2 instances 1 chosen 1\n1 xg1 a=in y=out | mp=m1 mn=m2\nleft 0\nend\n",
    },
    // both transistors exchanged, beside one that is not
    Row {
        deck: "both\n.global vdd\n.model nch nmos\n.model pch pmos\nm1 vdd a b vdd pch ad=1p as=2p\nm2 0 a b 0 nch\nm3 c b vdd vdd pch ad=1p as=2p\nm4 c b 0 0 nch\n.end\n",
        library: INV,
        globals: "",
        options: "",
        lifted: "both\n.global vdd\n.model nch nmos\n.model pch pmos\n.subckt inv_v1 a y\nmp vdd a y vdd pch ad=1p as=2p\nmn 0 a y 0 nch\n.ends inv_v1\n.subckt inv_v2 a y\nmp y a vdd vdd pch ad=1p as=2p\nmn y a 0 0 nch\n.ends inv_v2\nxg1 a b inv_v1\nxg2 b c inv_v2\n.end\n",
        map: "gatelift map 1\ndevice m.xg1.mp m1\ndevice m.xg1.mn m2\ndevice m.xg2.mp m3\ndevice m.xg2.mn m4\nnet vdd vdd\nnet a a\nnet b b\nnet 0 0\nnet c c\nend\n",
        report: "round 0\ncell inv ports 2 instances 2 chosen 2\n1 xg1 a=a y=b | mp=m1 mn=m2\n2 xg2 a=b y=c | mp=m3 mn=m4\nleft 0\nend\n",
    },
    // an inner net with a place outside
    Row {
        deck: "loaded\n.global vdd\n.model nch nmos\n.model pch pmos\nm1 y a vdd vdd pch\nm2 y b vdd vdd pch\nm3 y a x 0 nch\nm4 x b 0 0 nch\nm5 q x 0 0 nch\n.end\n",
        library: NAND,
        globals: "",
        options: "",
        lifted: "loaded\n.global vdd\n.model nch nmos\n.model pch pmos\nm1 y a vdd vdd pch\nm2 y b vdd vdd pch\nm3 y a x 0 nch\nm4 x b 0 0 nch\nm5 q x 0 0 nch\n.end\n",
        map: "gatelift map 1\ndevice m1 m1\ndevice m2 m2\ndevice m3 m3\ndevice m4 m4\ndevice m5 m5\nnet y y\nnet a a\nnet vdd vdd\nnet b b\nnet x x\nnet 0 0\nnet q q\nend\n",
        report: "round 0\ncell nand2 ports 3 instances 0 chosen 0\nleft 5\nend\n",
    },
    // the same without it
    Row {
        deck: "unloaded\n.global vdd\n.model nch nmos\n.model pch pmos\nm1 y a vdd vdd pch\nm2 y b vdd vdd pch\nm3 y a x 0 nch\nm4 x b 0 0 nch\n.end\n",
        library: NAND,
        globals: "",
        options: "",
        lifted: "unloaded\n.global vdd\n.model nch nmos\n.model pch pmos\n.subckt nand2_v1 a b y\nmp1 y a vdd vdd pch\nmp2 y b vdd vdd pch\nmn1 y a x 0 nch\nmn2 x b 0 0 nch\n.ends nand2_v1\nxg1 a b y nand2_v1\n.end\n",
        map: "gatelift map 1\ndevice m.xg1.mp1 m1\ndevice m.xg1.mp2 m2\ndevice m.xg1.mn1 m3\ndevice m.xg1.mn2 m4\nnet y y\nnet a a\nnet vdd vdd\nnet b b\nnet xg1.x x\nnet 0 0\nend\n",
        report: "round 0\ncell nand2 ports 3 instances 1 chosen 1\n1 xg1 a=a b=b y=y | mp1=m1 mp2=m2 mn1=m3 mn2=m4\nleft 0\nend\n",
    },
    // a pass gate, bound both ways
    Row {
        deck: "pass\n.global vdd\n.model nch nmos\n.model pch pmos\nm1 u s v 0 nch\nm2 u sb v vdd pch\n.end\n",
        library: ".global vdd\n.subckt tg p q c cb\nmn p c q 0 nch\nmp p cb q vdd pch\n.ends\n",
        globals: "",
        options: "",
        lifted: "pass\n.global vdd\n.model nch nmos\n.model pch pmos\n.subckt tg_v1 p q c cb\nmn p c q 0 nch\nmp p cb q vdd pch\n.ends tg_v1\nxg1 u v s sb tg_v1\n.end\n",
        map: "gatelift map 1\ndevice m.xg1.mn m1\ndevice m.xg1.mp m2\nnet u u\nnet s s\nnet v v\nnet 0 0\nnet sb sb\nnet vdd vdd\nend\n",
        report: "round 0\ncell tg ports 4 instances 2 chosen 1\n1 xg1 p=u q=v c=s cb=sb | mn=m1 mp=m2\n2 over xg1 p=v q=u c=s cb=sb | mn=m1 mp=m2\nleft 0\nend\n",
    },
    // three resistors: the third is left
    Row {
        deck: "three resistors\nr1 a b 1k\nr2 a b 2k\nr3 a b 3k\n.end\n",
        library: ".subckt par p q\nra p q\nrb p q\n.ends\n",
        globals: "",
        options: "",
        lifted: "three resistors\n.subckt par_v1 p q\nra p q 1k\nrb p q 2k\n.ends par_v1\nxg1 a b par_v1\nr3 a b 3k\n.end\n",
        map: "gatelift map 1\ndevice r.xg1.ra r1\ndevice r.xg1.rb r2\ndevice r3 r3\nnet a a\nnet b b\nend\n",
        report: "round 0\ncell par ports 2 instances 6 chosen 1\n1 xg1 p=a q=b | ra=r1 rb=r2\n2 over xg1 p=b q=a | ra=r1 rb=r2\n3 over xg1 p=a q=b | ra=r1 rb=r3\n4 over xg1 p=b q=a | ra=r1 rb=r3\n5 over xg1 p=a q=b | ra=r2 rb=r3\n6 over xg1 p=b q=a | ra=r2 rb=r3\nleft 1\nend\n",
    },
    // an inverter in a gate, searched first
    Row {
        deck: "overlap\n.global vdd\n.model nch nmos\n.model pch pmos\nm1 y a vdd vdd pch\nm2 y b vdd vdd pch\nm3 y a x 0 nch\nm4 x b 0 0 nch\nm5 y a 0 0 nch\n.end\n",
        library: ".global vdd\n.subckt inv a y\nmp y a vdd vdd pch\nmn y a 0 0 nch\n.ends\n.subckt nand2 a b y\nmp1 y a vdd vdd pch\nmp2 y b vdd vdd pch\nmn1 y a x 0 nch\nmn2 x b 0 0 nch\n.ends\n",
        globals: "",
        options: "",
        lifted: "overlap\n.global vdd\n.model nch nmos\n.model pch pmos\n.subckt inv_v1 a y\nmp y a vdd vdd pch\nmn y a 0 0 nch\n.ends inv_v1\nxg1 a y inv_v1\nm2 y b vdd vdd pch\nm3 y a x 0 nch\nm4 x b 0 0 nch\n.end\n",
        map: "gatelift map 1\ndevice m.xg1.mp m1\ndevice m2 m2\ndevice m3 m3\ndevice m4 m4\ndevice m.xg1.mn m5\nnet y y\nnet a a\nnet vdd vdd\nnet b b\nnet x x\nnet 0 0\nend\n",
        report: "round 0\ncell inv ports 2 instances 1 chosen 1\n1 xg1 a=a y=y | mp=m1 mn=m5\ncell nand2 ports 3 instances 1 chosen 0\n1 over xg1 a=a b=b y=y | mp1=m1 mp2=m2 mn1=m3 mn2=m4\nleft 3\nend\n",
    },
    // and searched behind the gate
    Row {
        deck: "overlap\n.global vdd\n.model nch nmos\n.model pch pmos\nm1 y a vdd vdd pch\nm2 y b vdd vdd pch\nm3 y a x 0 nch\nm4 x b 0 0 nch\nm5 y a 0 0 nch\n.end\n",
        library: ".global vdd\n.subckt nand2 a b y\nmp1 y a vdd vdd pch\nmp2 y b vdd vdd pch\nmn1 y a x 0 nch\nmn2 x b 0 0 nch\n.ends\n.subckt inv a y\nmp y a vdd vdd pch\nmn y a 0 0 nch\n.ends\n",
        globals: "",
        options: "",
        lifted: "overlap\n.global vdd\n.model nch nmos\n.model pch pmos\n.subckt nand2_v1 a b y\nmp1 y a vdd vdd pch\nmp2 y b vdd vdd pch\nmn1 y a x 0 nch\nmn2 x b 0 0 nch\n.ends nand2_v1\nxg1 a b y nand2_v1\nm5 y a 0 0 nch\n.end\n",
        map: "gatelift map 1\ndevice m.xg1.mp1 m1\ndevice m.xg1.mp2 m2\ndevice m.xg1.mn1 m3\ndevice m.xg1.mn2 m4\ndevice m5 m5\nnet y y\nnet a a\nnet vdd vdd\nnet b b\nnet xg1.x x\nnet 0 0\nend\n",
        report: "round 0\ncell nand2 ports 3 instances 1 chosen 1\n1 xg1 a=a b=b y=y | mp1=m1 mp2=m2 mn1=m3 mn2=m4\ncell inv ports 2 instances 1 chosen 0\n1 over xg1 a=a y=y | mp=m1 mn=m5\nleft 1\nend\n",
    },
    // an inner net of an instance that is not chosen keeps its name
    Row {
        deck: "chain\nr1 a b 1k\nr2 b c 2k\nr3 c d 3k\n.end\n",
        library: ".subckt pair p q\nra p n\nrb n q\n.ends\n",
        globals: "",
        options: "",
        lifted: "chain\n.subckt pair_v1 p q\nra p n 1k\nrb n q 2k\n.ends pair_v1\nxg1 a c pair_v1\nr3 c d 3k\n.end\n",
        map: "gatelift map 1\ndevice r.xg1.ra r1\ndevice r.xg1.rb r2\ndevice r3 r3\nnet a a\nnet xg1.n b\nnet c c\nnet d d\nend\n",
        report: "round 0\ncell pair ports 2 instances 4 chosen 1\n1 xg1 p=a q=c | ra=r1 rb=r2\n2 over xg1 p=c q=a | ra=r2 rb=r1\n3 over xg1 p=b q=d | ra=r2 rb=r3\n4 over xg1 p=d q=b | ra=r3 rb=r2\nleft 1\nend\n",
    },
    // two cells of one level: numbers run over both
    Row {
        deck: "mixed\n.global vdd\n.model nch nmos\n.model pch pmos\nm9 z y vdd vdd pch w=1u\nm10 z y 0 0 nch w=1u\nm1 y a vdd vdd pch\nm2 y b vdd vdd pch\nm3 y a x 0 nch\nm4 x b 0 0 nch\nm5 w z vdd vdd pch w=1u\nm6 w z 0 0 nch w=1u\n.end\n",
        library: ".global vdd\n.subckt nand2 a b y\nmp1 y a vdd vdd pch\nmp2 y b vdd vdd pch\nmn1 y a x 0 nch\nmn2 x b 0 0 nch\n.ends\n.subckt inv a y\nmp y a vdd vdd pch\nmn y a 0 0 nch\n.ends\n",
        globals: "",
        options: "",
        lifted: "mixed\n.global vdd\n.model nch nmos\n.model pch pmos\n.subckt nand2_v1 a b y\nmp1 y a vdd vdd pch\nmp2 y b vdd vdd pch\nmn1 y a x 0 nch\nmn2 x b 0 0 nch\n.ends nand2_v1\n.subckt inv_v1 a y\nmp y a vdd vdd pch w=1u\nmn y a 0 0 nch w=1u\n.ends inv_v1\nxg2 y z inv_v1\nxg1 a b y nand2_v1\nxg3 z w inv_v1\n.end\n",
        map: "gatelift map 1\ndevice m.xg2.mp m9\ndevice m.xg2.mn m10\ndevice m.xg1.mp1 m1\ndevice m.xg1.mp2 m2\ndevice m.xg1.mn1 m3\ndevice m.xg1.mn2 m4\ndevice m.xg3.mp m5\ndevice m.xg3.mn m6\nnet z z\nnet y y\nnet vdd vdd\nnet 0 0\nnet a a\nnet b b\nnet xg1.x x\nnet w w\nend\n",
        report: "round 0\ncell nand2 ports 3 instances 1 chosen 1\n1 xg1 a=a b=b y=y | mp1=m1 mp2=m2 mn1=m3 mn2=m4\ncell inv ports 2 instances 2 chosen 2\n1 xg2 a=y y=z | mp=m9 mn=m10\n2 xg3 a=z y=w | mp=m5 mn=m6\nleft 0\nend\n",
    },
];

#[test]
fn one_level(rt: HostRuntime) -> Result<(), Memory> {
    for row in ROWS {
        is_lifted(&rt, rt.alloc(), row)?;
    }
    Ok(())
}

#[test]
fn kept_net(rt: HostRuntime) -> Result<(), Memory> {
    let alloc = rt.alloc();
    let deck =
        "unloaded\n.global vdd\n.model nch nmos\n.model pch pmos\nm1 y a vdd vdd pch\nm2 y b vdd vdd pch\nm3 y a x 0 nch\nm4 x b 0 0 nch\n.end\n";
    let found = lifted(alloc, deck, NAND, " --keep x")?;
    let wanted = all_written(
        alloc,
        [
            deck,
            "gatelift map 1\ndevice m1 m1\ndevice m2 m2\ndevice m3 m3\ndevice m4 m4\nnet y y\nnet a a\nnet vdd vdd\nnet b b\nnet x x\nnet 0 0\nend\n",
            "round 0\ncell nand2 ports 3 instances 0 chosen 0\nleft 4\nend\n",
        ],
    )?;
    assert!(rt; found.as_slice() == wanted.as_bytes());
    Ok(())
}
