//! Files that are read as decks.
use gl_deck::{Deck, DeckFault};
use std::alloc::{AllocError, Global};
use std::process::Abort;
use std::test::Fail;

/// A file, and the deck that it is read as, printed, or its refusal.
type Row = (&'static [u8], &'static [u8]);

const DECKS: [Row; 20] = [
    // a deck as it is printed
    (
        b"A title\n.global vdd\n.global vss\n.model nch nmos (level=1 vto=0.7)\n.model dmod d\n.subckt pair a b\nm1 a b 0 0 nch w=1u\nx1 empty\nr1 a b 1k\n.ends pair\n.subckt empty\n.ends empty\nx1 p q pair\nd1 p q dmod\n.options  reltol=1e-3\n.temp 27\n.end\n",
        b"A title\n.global vdd\n.global vss\n.model nch nmos (level=1 vto=0.7)\n.model dmod d\n.subckt pair a b\nm1 a b 0 0 nch w=1u\nx1 empty\nr1 a b 1k\n.ends pair\n.subckt empty\n.ends empty\nx1 p q pair\nd1 p q dmod\n.options  reltol=1e-3\n.temp 27\n.end\n",
    ),
    // an extractor's card, with a comment inside it
    (
        b"ext\nM1 (OUT,IN VDD VDD) PCH W=4U\n* note\n+ L=1U AS=(2)\n.END\njunk\n",
        b"ext\nm1 out in vdd vdd pch W=4U L=1U AS=(2)\n.end\n",
    ),
    // lines that end in a carriage return
    (
        b"t\r\nr1 a b 1k\r\n+ x\r\n.end\r\n",
        b"t\nr1 a b 1k x\n.end\n",
    ),
    (b"", b"\n.end\n"),
    // no newline at the end
    (b"t\nr1 a b 1k", b"t\nr1 a b 1k\n.end\n"),
    // continued after dropped lines
    (b"t\nr1 a b\n\n* c\n+ 1k\n", b"t\nr1 a b 1k\n.end\n"),
    // the end continues, and nothing is read behind it
    (b"t\nr1 a b 1\n.end\n+ x\n+y\nq1\n+", b"t\nr1 a b 1\n.end\n"),
    // a text as one separator before the end
    (b"t\n \t.end x\nq1\n", b"t\n.end\n"),
    // a title that looks like a card
    (b".subckt s a\nr1 a b 1\n", b".subckt s a\nr1 a b 1\n.end\n"),
    // any bytes
    (
        b"t\x00\xff\nr1\x00 a\xff b \xff\x00\n",
        b"t\x00\xff\nr1\x00 a\xff b \xff\x00\n.end\n",
    ),
    // no ports
    (
        b"t\n.subckt s\n.ends\nx1 s\n",
        b"t\n.subckt s\n.ends s\nx1 s\n.end\n",
    ),
    // an end with a name and one without
    (
        b"t\n.subckt s a\nr1 a 0 1\n.ends S\n.subckt u a\n.ends\n",
        b"t\n.subckt s a\nr1 a 0 1\n.ends s\n.subckt u a\n.ends u\n.end\n",
    ),
    // each global once
    (
        b"t\n.global vdd 0 VDD\n.global\n.global vss vdd\n",
        b"t\n.global vdd\n.global vss\n.end\n",
    ),
    // a model and a subcircuit of one name
    (
        b"t\n.model s nmos (l=1)\n.subckt s a\n.ends\n",
        b"t\n.model s nmos (l=1)\n.subckt s a\n.ends s\n.end\n",
    ),
    // each circuit has names of its own
    (
        b"t\nr1 a b 1\n.subckt s a\nr1 a 0 2\n.ends\n.subckt u a\nr1 a 0 3\n.ends\nr2 a b 4\n",
        b"t\n.subckt s a\nr1 a 0 2\n.ends s\n.subckt u a\nr1 a 0 3\n.ends u\nr1 a b 1\nr2 a b 4\n.end\n",
    ),
    // passed cards keep their text
    (
        b"t\n.Options  reltol=1 \n.param x=1\n",
        b"t\n.Options  reltol=1\n.param x=1\n.end\n",
    ),
    // a call before its subcircuit
    (
        b"t\nx1 a s\n.subckt s p\n.ends\n",
        b"t\n.subckt s p\n.ends s\nx1 a s\n.end\n",
    ),
    // calls of one subcircuit in two others
    (
        b"t\n.subckt c a\nr1 a 0 1\n.ends\n.subckt b a\nx1 a c\n.ends\n.subckt d a\nx1 a b\nx2 a c\n.ends\nx1 n d\n",
        b"t\n.subckt c a\nr1 a 0 1\n.ends c\n.subckt b a\nx1 a c\n.ends b\n.subckt d a\nx1 a b\nx2 a c\n.ends d\nx1 n d\n.end\n",
    ),
    // each letter
    (
        b"t\nM1 a b c d N w=1\nD1 a b DM 2\nR1 a b 1\nC1 a b 1p\nL1 a b=5\nV1 a b DC 1\nI1 a b 1\n",
        b"t\nm1 a b c d n w=1\nd1 a b dm 2\nr1 a b 1\nc1 a b 1p\nl1 a b =5\nv1 a b DC 1\ni1 a b 1\n.end\n",
    ),
    // names differ by one byte
    (
        b"t\nr1 a b 1\nr10 a b 1\n",
        b"t\nr1 a b 1\nr10 a b 1\n.end\n",
    ),
];

/// Refused lines.
const REFUSALS: [Row; 30] = [
    (
        b"t\n* c\n+ w=1\n",
        b"line 3: a `+` line has no card before it",
    ),
    (b"t\nq1 c b e mod\n", b"line 2: byte 113 begins no card"),
    (b"t\n,.end\n", b"line 2: byte 44 begins no card"),
    (b"t\nm1 a b c nch\n", b"line 2: 5 fields, 6 needed"),
    (b"t\n.control\n", b"line 2: a control block"),
    (
        b"t\n.subckt s a\n.subckt u b\n",
        b"line 3: a subcircuit inside a subcircuit",
    ),
    (b"t\n.ends", b"line 2: no subcircuit is open"),
    (
        b"t\n.subckt s a\n.ends\n.ends\n",
        b"line 4: no subcircuit is open",
    ),
    (
        b"t\n.subckt s a\n.ends u\n",
        b"line 3: another subcircuit is open",
    ),
    (
        b"t\n.subckt s a\n.end\n.ends\n",
        b"line 2: a subcircuit without an end",
    ),
    (
        b"t\n.subckt s a\n.model n nmos\n",
        b"line 3: a card that belongs to the top stands inside a subcircuit",
    ),
    (
        b"t\n.subckt s a\n.global n\n",
        b"line 3: a card that belongs to the top stands inside a subcircuit",
    ),
    (
        b"t\n.subckt s a\n.options\n",
        b"line 3: a card that belongs to the top stands inside a subcircuit",
    ),
    (b"t\nx1 a=b s\n", b"line 2: parameters"),
    (b"t\n.subckt s a w=1\n", b"line 2: parameters"),
    (
        b"t\nx1 a s\nr1 a b 1\nX1 b s\n",
        b"line 4: the name of line 2",
    ),
    (
        b"t\n.subckt s a\nr1 a 0 1\nr1 a 0 1\n",
        b"line 4: the name of line 3",
    ),
    (
        b"t\nr1 a b 1\n.subckt s a\n.ends\nR1 c d 2",
        b"line 5: the name of line 2",
    ),
    // behind a continued line and an empty one
    (
        b"t\nr1 a b\n+ 1\n\nr1 a b 2\n",
        b"line 5: the name of line 2",
    ),
    (
        b"t\n.model n nmos\n.model N pmos\n",
        b"line 3: the name of line 2",
    ),
    (
        b"t\n.subckt s a\n.ends\n.subckt S b\n",
        b"line 4: the name of line 2",
    ),
    (b"t\n.subckt s a b A\n", b"line 2: a port twice"),
    (b"t\n.subckt s a 0\n", b"line 2: the port 0"),
    // the first line counts
    (b"t\n.control\nq1\n", b"line 2: a control block"),
    // a subcircuit inside another before an equal sign
    (
        b"t\n.subckt s a\n.subckt u b w=1\n",
        b"line 3: a subcircuit inside a subcircuit",
    ),
    // an equal sign before a name that is taken
    (b"t\nx1 a s\nx1 b s w=1\n", b"line 3: parameters"),
    // a name that is taken before a port twice
    (
        b"t\n.subckt s a\n.ends\n.subckt s b b\n",
        b"line 4: the name of line 2",
    ),
    // a port twice before the port 0
    (b"t\n.subckt s 0 0\n", b"line 2: a port twice"),
    // an open subcircuit before a call
    (
        b"t\nx1 a b s\n.subckt u a\n",
        b"line 3: a subcircuit without an end",
    ),
    // a name of a line that is none
    (b"t\nr1 a b 1\n+ x\nr1\n", b"line 4: 1 fields, 3 needed"),
];

/// Refused calls.
const CALLS: [Row; 10] = [
    (b"t\nx1 a b s\n", b"line 2: no such subcircuit"),
    (
        b"t\n.subckt a p q\n.ends\nx1 n m a\nx2 n m o a\n",
        b"line 5: 3 nodes, 2 ports",
    ),
    // a call from outside does not lead back
    (
        b"t\nx1 n s\n.subckt s a\nx1 a s\n.ends\n",
        b"line 4: a call that leads back to its own subcircuit",
    ),
    // a number of nodes before a call that leads back
    (
        b"t\n.subckt s a\nx1 s\n.ends\n",
        b"line 3: 0 nodes, 1 ports",
    ),
    // through another, behind a call that does not
    (
        b"t\n.subckt a\nx1 c\nx2 b\n.ends\n.subckt b\nx1 a\n.ends\n.subckt c\n.ends\n",
        b"line 4: a call that leads back to its own subcircuit",
    ),
    // a call of what leads back, but not here
    (
        b"t\n.subckt u\nx1 a\n.ends\n.subckt a\nx1 b\n.ends\n.subckt b\nx1 c\n.ends\n.subckt c\nx1 a\n.ends\n",
        b"line 6: a call that leads back to its own subcircuit",
    ),
    // the first call counts
    (
        b"t\nx2 a b u\nx1 a s\n.subckt u a\n.ends\n",
        b"line 2: 2 nodes, 1 ports",
    ),
    (
        b"t\nx1 a s\nx2 a b u\n.subckt u a\n.ends\n",
        b"line 2: no such subcircuit",
    ),
    (
        b"t\n.subckt b\nx1 none\nx2 a\n.ends\n.subckt a\nx1 b\n.ends\n",
        b"line 3: no such subcircuit",
    ),
    // a call of what calls a subcircuit that is not there
    (
        b"t\n.subckt b\nx1 a\n.ends\n.subckt a\nx1 none\n.ends\n",
        b"line 6: no such subcircuit",
    ),
];

/// Files without a title.
const UNTITLED: [Row; 3] = [
    (b"r1 a b 1\n", b"\nr1 a b 1\n.end\n"),
    (b"+ x\n", b"line 1: a `+` line has no card before it"),
    (b"r1 a b 1\nr1 a b 1", b"line 2: the name of line 1"),
];

/// So many times the letter x between two texts.
type Filled = (&'static [u8], usize, &'static [u8]);

const LIMITS: [(Filled, Filled); 12] = [
    ((b"", 131_072, b"\r\n"), (b"", 131_072, b"\n.end\n")),
    (
        (b"", 131_073, b"\r\nq1\n"),
        (b"line 1: 131073 bytes, more than a card may have", 0, b""),
    ),
    ((b"t\n.o", 131_070, b"\n"), (b"t\n.o", 131_070, b"\n.end\n")),
    (
        (b"t\n.o", 131_071, b""),
        (b"line 2: 131073 bytes, more than a card may have", 0, b""),
    ),
    (
        (b"t\nr", 1_023, b" a b 1\n"),
        (b"t\nr", 1_023, b" a b 1\n.end\n"),
    ),
    (
        (b"t\nr", 1_024, b" a b 1\n"),
        (b"line 2: a name of 1025 bytes", 0, b""),
    ),
    (
        (b"t\nr1 a b ", 65_536, b""),
        (b"t\nr1 a b ", 65_536, b"\n.end\n"),
    ),
    (
        (b"t\nr1 a b ", 65_537, b"\nq1\n"),
        (b"line 2: a tail of 65537 bytes", 0, b""),
    ),
    // a name that is taken before a long tail
    (
        (b"t\nr1 a b 1\nr1 a b ", 65_537, b""),
        (b"line 3: the name of line 2", 0, b""),
    ),
    // a card that belongs to the top before a long tail
    (
        (b"t\n.subckt s a\n.model n nmos ", 65_537, b""),
        (
            b"line 3: a card that belongs to the top stands inside a subcircuit",
            0,
            b"",
        ),
    ),
    // a long name before a subcircuit that is left open
    (
        (b"t\n.subckt s a\nr", 1_024, b" a b 1\n"),
        (b"line 3: a name of 1025 bytes", 0, b""),
    ),
    // a long name before a card that belongs to the top
    (
        (b"t\n.subckt s a\n.model ", 1_025, b" nmos\n"),
        (b"line 3: a name of 1025 bytes", 0, b""),
    ),
];

/// The deck, printed, or the refusal.
fn answer(alloc: Global, read: Result<Deck, DeckFault>) -> Result<Vec<u8>, Fail> {
    let mut text = Vec::new(alloc);
    match read {
        Ok(deck) => deck.print(&mut text)?,
        Err(fault) => text.extend_from_slice(fault.to_string(alloc)?.as_bytes())?,
    }
    Ok(text)
}

/// The file gives this.
fn gives(alloc: Global, bytes: &[u8], has_title: bool, wanted: &[u8]) -> Result<bool, Fail> {
    if bytes.len() > 67_108_864 {
        return Ok(false);
    }
    let deck = Deck::read(alloc, bytes, has_title);
    Ok(answer(alloc, deck)?.as_slice() == wanted)
}

fn all_give(rt: &impl Abort, alloc: Global, rows: &[Row], has_title: bool) -> Result<(), Fail> {
    for (bytes, wanted) in rows {
        assert!(rt; gives(alloc, bytes, has_title, wanted)?, "{wanted:?}");
    }
    Ok(())
}

#[test]
fn rows(rt: HostRuntime) -> Result<(), Fail> {
    all_give(&rt, rt.alloc(), &DECKS, true)?;
    all_give(&rt, rt.alloc(), &REFUSALS, true)?;
    all_give(&rt, rt.alloc(), &CALLS, true)?;
    all_give(&rt, rt.alloc(), &UNTITLED, false)
}

fn filled(alloc: Global, text: Filled) -> Result<Vec<u8>, AllocError> {
    let (before, count, after) = text;
    let mut bytes = Vec::from_slice(alloc, before)?;
    for _ in 0..count {
        bytes.push(b'x')?;
    }
    bytes.extend_from_slice(after)?;
    Ok(bytes)
}

#[test]
fn limits(rt: HostRuntime) -> Result<(), Fail> {
    for (text, wanted) in LIMITS {
        let bytes = filled(rt.alloc(), text)?;
        let wanted = filled(rt.alloc(), wanted)?;
        assert!(rt; gives(rt.alloc(), &bytes, true, &wanted)?, "{}", text.1);
    }
    Ok(())
}

/// A title, subcircuits `s0`, `s1` and so on, each of which calls the next, and a text.
fn chain(alloc: Global, count: u32, last: &[u8]) -> Result<Vec<u8>, Fail> {
    let mut bytes = Vec::from_slice(alloc, b"t\n")?;
    for i in 0..count {
        let next = i + 1;
        let text = format!(in alloc; ".subckt s{i}\nx s{next}\n.ends\n")?;
        bytes.extend_from_slice(text.as_bytes())?;
    }
    bytes.extend_from_slice(last)?;
    Ok(bytes)
}

#[test]
fn long_chains(rt: HostRuntime) -> Result<(), Fail> {
    let open = chain(rt.alloc(), 1_000, b"")?;
    let wanted = b"line 3000: no such subcircuit";
    assert!(rt; gives(rt.alloc(), &open, true, wanted)?);
    let back = chain(rt.alloc(), 1_000, b".subckt s1000\nx s500\n.ends\n")?;
    let wanted = b"line 1503: a call that leads back to its own subcircuit";
    assert!(rt; gives(rt.alloc(), &back, true, wanted)?);
    Ok(())
}
