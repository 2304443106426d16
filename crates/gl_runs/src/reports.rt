//! The job `lift` through the top call: reports and refusals.
ghost use Rattle.std.specs.Prelude.{IfOk};
ghost use Rattle.gl_desk.specs.Desk.{IsFresh};
ghost use Rattle.gl_desk.specs.MemoryDesk.{view_of};

use gl_desk::{Memory, MemoryDesk, Slot};
use gl_run::run;
use std::alloc::{AllocError, Global};

/// The front of each deck behind its title.
const MODELS: &str = ".global vdd\n.model nch nmos\n.model pch pmos\n";

const INV: &str =
    "* gates\n.global vdd\n.subckt inv a y\nmp y a vdd vdd pch\nmn y a 0 0 nch\n.ends\n";

const NAND: &str =
    ".global vdd\n.subckt nand2 a b y\nmp1 y a vdd vdd pch\nmp2 y b vdd vdd pch\nmn1 y a x 0 nch\nmn2 x b 0 0 nch\n.ends\n";

const TG: &str = ".global vdd\n.subckt tg p q c cb\nmn p c q 0 nch\nmp p cb q vdd pch\n.ends\n";

const PAR: &str = ".subckt par p q\nra p q\nrb p q\n.ends\n";

/// A gate whose first transistor is half of an inverter too.
const OVERLAP: &str =
    "m1 y a vdd vdd pch\nm2 y b vdd vdd pch\nm3 y a x 0 nch\nm4 x b 0 0 nch\nm5 y a 0 0 nch\n";

const INV_NAND: &str =
    ".global vdd\n.subckt inv a y\nmp y a vdd vdd pch\nmn y a 0 0 nch\n.ends\n.subckt nand2 a b y\nmp1 y a vdd vdd pch\nmp2 y b vdd vdd pch\nmn1 y a x 0 nch\nmn2 x b 0 0 nch\n.ends\n";

const NAND_INV: &str =
    ".global vdd\n.subckt nand2 a b y\nmp1 y a vdd vdd pch\nmp2 y b vdd vdd pch\nmn1 y a x 0 nch\nmn2 x b 0 0 nch\n.ends\n.subckt inv a y\nmp y a vdd vdd pch\nmn y a 0 0 nch\n.ends\n";

/// An inverter behind a cell without cards and one with a port on none.
const FILLED: &str =
    ".global vdd\n.subckt fill a b\n.ends\n.subckt odd a b\nr1 a 0 1\n.ends\n.subckt inv a y\nmp y a vdd vdd pch\nmn y a 0 0 nch\n.ends\n";

const LOOSE: &str = "r1 a b 1k\n";

/// The words of the job.
fn words_of(alloc: Global, text: &str) -> Result<Vec<String>, AllocError> {
    let mut words = Vec::new(alloc);
    for word in text.split_whitespace() {
        words.push(String::from_str(alloc, word)?)?;
    }
    Ok(words)
}

/// A desk that holds a deck behind its title and models, and a library.
fn desk_of(alloc: Global, cards: &str, library: &str) -> Result<MemoryDesk, Memory>
    ensures fresh { IfOk result (IsFresh view_of) }
{
    let mut deck = String::from_str(alloc, "title\n")?;
    deck.push_str(MODELS)?;
    deck.push_str(cards)?;
    let mut desk = MemoryDesk::new(alloc, 50);
    desk.put("deck", deck.as_bytes())?;
    desk.put("library", library.as_bytes())?;
    Ok(desk)
}

/// What the run answers: its status, what the outputs were given and what was said, each in brackets.
pub fn answers(
    alloc: Global,
    mut desk: MemoryDesk,
    outputs: &[Slot],
    text: &str,
) -> Result<Vec<u8>, Memory>
    requires { IsFresh view_of desk }
{
    let words = words_of(alloc, text)?;
    let status = run(alloc, &words, &mut desk);
    let mut said = Vec::new(alloc);
    said.push(b'0' + status % 10)?;
    for output in outputs {
        said.push(b'[')?;
        said.extend_from_slice(desk.text(*output).unwrap_or(b"none"))?;
        said.push(b']')?;
    }
    said.push(b'[')?;
    said.extend_from_slice(desk.text(Slot::Says).unwrap_or(b"none"))?;
    said.push(b']')?;
    Ok(said)
}

/// The same of one output.
pub fn answer(alloc: Global, desk: MemoryDesk, output: Slot, text: &str) -> Result<Vec<u8>, Memory>
    requires { IsFresh view_of desk }
{
    answers(alloc, desk, &[output], text)
}

/// The same of the job `lift` on a deck and a library.
pub fn lifted(alloc: Global, cards: &str, library: &str) -> Result<Vec<u8>, Memory> {
    answer(
        alloc,
        desk_of(alloc, cards, library)?,
        Slot::Report,
        "lift deck library lifted map report",
    )
}

/// What a deck's cards and a library are, and the report of them.
const REPORTS: [(&str, &str, &str); 21] = [
    // one inverter
    (
        "m1 out in vdd vdd pch w=4u l=1u\nm2 out in 0 0 nch w=2u l=1u\n.end\n",
        INV,
        "round 0\ncell inv ports 2 instances 1 chosen 1\n1 xg1 a=in y=out | mp=m1 mn=m2\nleft 0\nend\n",
    ),
    // a pass gate is bound both ways
    (
        "m1 u s v 0 nch\nm2 u sb v vdd pch\n.end\n",
        TG,
        "round 0\ncell tg ports 4 instances 2 chosen 1\n1 xg1 p=u q=v c=s cb=sb | mn=m1 mp=m2\n2 over xg1 p=v q=u c=s cb=sb | mn=m1 mp=m2\nleft 0\nend\n",
    ),
    // a ring
    (
        "m1 b a vdd vdd pch\nm2 b a 0 0 nch\nm3 a b vdd vdd pch\nm4 a b 0 0 nch\n.end\n",
        INV,
        "round 0\ncell inv ports 2 instances 2 chosen 2\n1 xg1 a=a y=b | mp=m1 mn=m2\n2 xg2 a=b y=a | mp=m3 mn=m4\nleft 0\nend\n",
    ),
    // the ring, renamed and reordered, has the same sets
    (
        "mp3 a b vdd vdd pch\nmn1 b a 0 0 nch\nmn3 a b 0 0 nch\nmp1 b a vdd vdd pch\n.end\n",
        INV,
        "round 0\ncell inv ports 2 instances 2 chosen 2\n1 xg1 a=b y=a | mp=mp3 mn=mn3\n2 xg2 a=a y=b | mp=mp1 mn=mn1\nleft 0\nend\n",
    ),
    // an inner net with a place outside
    (
        "m1 y a vdd vdd pch\nm2 y b vdd vdd pch\nm3 y a x 0 nch\nm4 x b 0 0 nch\nm5 q x 0 0 nch\n.end\n",
        NAND,
        "round 0\ncell nand2 ports 3 instances 0 chosen 0\nleft 5\nend\n",
    ),
    // drains and sources exchanged
    (
        "m1 vdd a y vdd pch\nm2 y b vdd vdd pch\nm3 x a y 0 nch\nm4 0 b x 0 nch\n.end\n",
        NAND,
        "round 0\ncell nand2 ports 3 instances 1 chosen 1\n1 xg1 a=a b=b y=y | mp1=m1 mp2=m2 mn1=m3 mn2=m4\nleft 0\nend\n",
    ),
    // a rail is no other net
    (
        "m1 out in vdd vdd pch\nm2 out in vdd 0 nch\nm3 o2 in vss vdd pch\nm4 o2 in 0 0 nch\n.end\n",
        INV,
        "round 0\ncell inv ports 2 instances 0 chosen 0\nleft 4\nend\n",
    ),
    // carriage returns, large letters, and what stands behind the end
    (
        "M1 OUT IN VDD VDD PCH\r\n M2,OUT (IN 0 0) NCH w=1\r\n.END\r\nm2 out in 0 0 nch\r\n",
        INV,
        "round 0\ncell inv ports 2 instances 1 chosen 1\n1 xg1 a=in y=out | mp=m1 mn=m2\nleft 0\nend\n",
    ),
    // continued lines and separators
    (
        "M1 OUT,IN (VDD VDD) PCH  W=4U\n* note\n+ L=1U\nm2 out in\n+ 0 0 nch\n.options x\n",
        INV,
        "round 0\ncell inv ports 2 instances 1 chosen 1\n1 xg1 a=in y=out | mp=m1 mn=m2\nleft 0\nend\n",
    ),
    // three resistors
    (
        "r1 a b 1k\nr2 a b 2k\nr3 a b 3k\n",
        PAR,
        "round 0\ncell par ports 2 instances 6 chosen 1\n1 xg1 p=a q=b | ra=r1 rb=r2\n2 over xg1 p=b q=a | ra=r1 rb=r2\n3 over xg1 p=a q=b | ra=r1 rb=r3\n4 over xg1 p=b q=a | ra=r1 rb=r3\n5 over xg1 p=a q=b | ra=r2 rb=r3\n6 over xg1 p=b q=a | ra=r2 rb=r3\nleft 1\nend\n",
    ),
    // two sizes of one cell
    (
        "m1 b a vdd vdd pch w=4u\nm2 b a 0 0 nch w=2u\nm3 c b vdd vdd pch w=8u\nm4 c b 0 0 nch w=4u\n",
        INV,
        "round 0\ncell inv ports 2 instances 2 chosen 2\n1 xg1 a=a y=b | mp=m1 mn=m2\n2 xg2 a=b y=c | mp=m3 mn=m4\nleft 0\nend\n",
    ),
    // an inverter inside a gate, searched first: it lies in no other list, which is full all the same
    (
        OVERLAP,
        INV_NAND,
        "round 0\ncell inv ports 2 instances 1 chosen 1\n1 xg1 a=a y=y | mp=m1 mn=m5\ncell nand2 ports 3 instances 1 chosen 0\n1 over xg1 a=a b=b y=y | mp1=m1 mp2=m2 mn1=m3 mn2=m4\nleft 3\nend\n",
    ),
    // and searched behind the gate
    (
        OVERLAP,
        NAND_INV,
        "round 0\ncell nand2 ports 3 instances 1 chosen 1\n1 xg1 a=a b=b y=y | mp1=m1 mp2=m2 mn1=m3 mn2=m4\ncell inv ports 2 instances 1 chosen 0\n1 over xg1 a=a y=y | mp=m1 mn=m5\nleft 1\nend\n",
    ),
    // cells that are skipped
    (
        "m1 out in vdd vdd pch\nm2 out in 0 0 nch\n",
        FILLED,
        "round 0\ncell fill skipped empty\ncell odd skipped loose b\ncell inv ports 2 instances 1 chosen 1\n1 xg1 a=in y=out | mp=m1 mn=m2\nleft 0\nend\n",
    ),
    // names in which the stem stands
    (
        "m1 xg_ xg1.n vdd vdd pch\nm2 xg_ xg1.n 0 0 nch\n",
        INV,
        "round 0\ncell inv ports 2 instances 1 chosen 1\n1 xg__1 a=xg1.n y=xg_ | mp=m1 mn=m2\nleft 0\nend\n",
    ),
    // no devices, and no cells
    (
        "",
        INV,
        "round 0\ncell inv ports 2 instances 0 chosen 0\nleft 0\nend\n",
    ),
    ("r1 a b 1k\n", ".model nch nmos\n", "left 1\nend\n"),
    // devices below an X card
    (
        ".subckt gate i o\nmp o i vdd vdd pch\nmn o i 0 0 nch\n.ends\nx1 a b gate\nx2 b c gate\n",
        INV,
        "round 0\ncell inv ports 2 instances 2 chosen 2\n1 xg1 a=a y=b | mp=m.x1.mp mn=m.x1.mn\n2 xg2 a=b y=c | mp=m.x2.mp mn=m.x2.mn\nleft 0\nend\n",
    ),
    // the library's globals are rails of the deck
    (
        ".subckt s a\nr1 a vss 1k\n.ends\nx1 p s\nx2 q s\n",
        ".global vss\n.subckt pull a\nr1 a vss\n.ends\n",
        "round 0\ncell pull ports 1 instances 2 chosen 2\n1 xg1 a=p | r1=r.x1.r1\n2 xg2 a=q | r1=r.x2.r1\nleft 0\nend\n",
    ),
    // a cell named as a letter is no type
    (
        "r1 a b 1k\n",
        ".subckt r p q\nc1 p q 1p\n.ends\n",
        "round 0\ncell r ports 2 instances 0 chosen 0\nleft 1\nend\n",
    ),
    // the deck's model comes before the library's
    (
        "m1 a b c d nch\n",
        ".model nch pmos\n.subckt n a b c d\nm1 a b c d nch\n.ends\n.subckt p a b c d\nm1 a b c d pch\n.ends\n",
        "round 0\ncell n ports 4 instances 2 chosen 1\n1 xg1 a=a b=b c=c d=d | m1=m1\n2 over xg1 a=c b=b c=a d=d | m1=m1\ncell p ports 4 instances 0 chosen 0\nleft 0\nend\n",
    ),
];

#[test]
fn reports(rt: HostRuntime) -> Result<(), Memory> {
    let alloc = rt.alloc();
    for (cards, library, report) in REPORTS {
        let found = lifted(alloc, cards, library)?;
        let mut wanted = String::from_str(alloc, "0[")?;
        wanted.push_str(report)?;
        wanted.push_str("][]")?;
        assert!(rt; found.as_slice() == wanted.as_bytes());
    }
    Ok(())
}

/// The line that is said of a refused deck or library.
fn said(alloc: Global, cards: &str, library: &str) -> Result<Vec<u8>, Memory> {
    let words = words_of(alloc, "lift deck library lifted map report")?;
    let mut desk = desk_of(alloc, cards, library)?;
    let _ = run(alloc, &words, &mut desk);
    Ok(Vec::from_slice(alloc, desk.text(Slot::Says).unwrap_or(b"none"))?)
}

/// A deck's cards behind line 4, and the refusal that is said.
const DECKS: [(&str, &str); 9] = [
    ("r1 a b 1\n.ends\n", "8 LooseEnds line=6"),
    ("q1 c b e mod\n", "4 UnknownCard line=5 byte=113"),
    ("m1 out in vdd\n", "5 ShortCard line=5 has=4 needs=6"),
    ("r1 a b 1\nR1 c d 2\n", "13 DuplicateName line=6 first=5"),
    ("x1 a b s\n", "17 UnknownSubckt line=5"),
    (
        ".subckt s a\n.ends\nx1 p q s\n",
        "18 WrongNodeCount line=7 has=2 needs=1",
    ),
    // a net at the top is named as one below an X card
    (
        "r1 x1.n 0 1\n.subckt s a\nr1 a n 1\n.ends\nx1 p s\n",
        "20 NameClash name=x1.n",
    ),
    (
        "r1 p q 1\nx1 p s\n.subckt s a\nr1 a 0 1\nc1 b 0 1\nr2 b vdd 1\n.ends\nc.x1.c1 p 0 1\n",
        "20 NameClash name=c.x1.c1",
    ),
    (
        "r1 p q 1\n.subckt s a\nx1 a s\n.ends\nx1 p s\n",
        "19 Recursive line=7",
    ),
];

#[test]
fn decks_refused(rt: HostRuntime) -> Result<(), Memory> {
    let alloc = rt.alloc();
    for (cards, refusal) in DECKS {
        let found = said(alloc, cards, INV)?;
        let mut wanted = String::from_str(alloc, "gatelift: 2 deck: ")?;
        wanted.push_str(refusal)?;
        wanted.push_str("\n")?;
        assert!(rt; found.as_slice() == wanted.as_bytes());
    }
    Ok(())
}

/// A cell of 65 ports.
const PORTS: &str =
    ".subckt s a0 a1 a2 a3 a4 a5 a6 a7 a8 a9 b0 b1 b2 b3 b4 b5 b6 b7 b8 b9 c0 c1 c2 c3 c4 c5 c6 c7 c8 c9 d0 d1 d2 d3 d4 d5 d6 d7 d8 d9 e0 e1 e2 e3 e4 e5 e6 e7 e8 e9 f0 f1 f2 f3 f4 f5 f6 f7 f8 f9 g0 g1 g2 g3 g4\n.ends\n";

/// A library, and the refusal that is said.
const LIBRARIES: [(&str, &str); 9] = [
    (LOOSE, "30 TopCard line=1"),
    (
        ".model n nmos\n.subckt s a\nr1 a 0 1\n.ends\nx1 p s\nr1 a b 1\n",
        "30 TopCard line=5",
    ),
    (PORTS, "31 CellLimit cell=s what=Ports number=65"),
    (
        ".subckt k p\nx1 p s\nr1 x1.n p 1\n.ends\n.subckt s a\nr1 a n 1\nr2 n 0 1\n.ends\n",
        "33 CellClash cell=k name=x1.n",
    ),
    (
        ".subckt s a\nr1 a 0 1\n.ends\n.subckt u a\nx1 a s\n.ends\n.subckt s a\nr1 a 0 1\n.ends\n",
        "13 DuplicateName line=7 first=1",
    ),
    (".subckt m=nch a\nr1 a 0 1\n.ends\n", "12 Parameters line=1"),
    (".subckt s a\nx1 a s\n.ends\n", "19 Recursive line=2"),
    (".subckt s a a\n.ends\n", "14 DuplicatePort line=1"),
    (".subckt s a\n", "10 OpenSubckt line=1"),
];

#[test]
fn libraries_refused(rt: HostRuntime) -> Result<(), Memory> {
    let alloc = rt.alloc();
    for (library, refusal) in LIBRARIES {
        let found = said(alloc, "", library)?;
        let mut wanted = String::from_str(alloc, "gatelift: 3 library: ")?;
        wanted.push_str(refusal)?;
        wanted.push_str("\n")?;
        assert!(rt; found.as_slice() == wanted.as_bytes());
    }
    Ok(())
}

#[test]
fn other_words(rt: HostRuntime) -> Result<(), Memory> {
    let alloc = rt.alloc();
    for text in [
        "",
        "lift deck library lifted map",
        "lift deck library lifted map report more",
        "flat deck library lifted map report",
    ] {
        let found = answer(alloc, desk_of(alloc, "", INV)?, Slot::Report, text)?;
        assert!(rt; found.as_slice() == b"1[none][gatelift: 1 words\n]".as_slice());
    }
    Ok(())
}
