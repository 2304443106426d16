//! The job `flat` through the top call: flat texts, refusals and calls that fail.
ghost use Rattle.std.specs.Prelude.{IfOk};
ghost use Rattle.gl_desk.specs.Desk.{IsFresh};
ghost use Rattle.gl_desk.specs.MemoryDesk.{view_of};

use crate::reports::answer;
use gl_desk::{CallKind, Memory, MemoryDesk, Slot};
use std::alloc::Global;

/// A desk that holds a deck.
fn desk_of(alloc: Global, deck: &str) -> Result<MemoryDesk, Memory>
    ensures fresh { IfOk result (IsFresh view_of) }
{
    let mut desk = MemoryDesk::new(alloc, 50);
    desk.put("deck", deck.as_bytes())?;
    Ok(desk)
}

/// What the run answers: its status, what was written and what was said.
fn flattened(alloc: Global, deck: &str) -> Result<Vec<u8>, Memory> {
    answer(alloc, desk_of(alloc, deck)?, Slot::Out, "flat deck out")
}

const NEST: &str =
    "nest\n.subckt cellb p\nm3 p n 0 0 nch w=1u\nc1 n 0 1p\n.ends\n.subckt cella q\nx1 q cellb\n.ends\nx2 top1 cella\n.end\n";

/// A deck, and its flat text.
const TEXTS: [(&str, &str); 9] = [
    // an X card in an X card
    (
        NEST,
        "nest\nm.x2.x1.m3 top1 x2.x1.n 0 0 nch w=1u\nc.x2.x1.c1 x2.x1.n 0 1p\n.end\n",
    ),
    // parentheses, a continued card, and what stands behind the end
    (
        "t\nM1 OUT,IN (VDD VDD) PCH  W=4U\n* note\n+ L=1U\n.END\njunk\n",
        "t\nm1 out in vdd vdd pch W=4U L=1U\n.end\n",
    ),
    // no bytes at all
    ("", "\n.end\n"),
    // a rail's name inside a subcircuit
    (
        "t\n.global vdd\n.subckt s a\nr1 a vdd 1k\n.ends\nx1 p s\n",
        "t\n.global vdd\nr.x1.r1 p vdd 1k\n.end\n",
    ),
    // a port with a rail's name
    (
        "t\n.global vdd\n.subckt s vdd\nr1 vdd 0 1k\n.ends\nx1 a s\n",
        "t\n.global vdd\nr.x1.r1 a 0 1k\n.end\n",
    ),
    // one net on two ports
    (
        "t\n.subckt s a b\nr1 a b 1k\n.ends\nx1 p p s\n",
        "t\nr.x1.r1 p p 1k\n.end\n",
    ),
    // an X card without nodes
    (
        "t\n.subckt s\nr1 a b 1k\n.ends\nx1 s\n",
        "t\nr.x1.r1 x1.a x1.b 1k\n.end\n",
    ),
    // a title with a carriage return, a model and a passed card
    (
        "t\r\n.options  noacct\r\n.model NCH nmos level=1\r\nm1 d g 0 0 nch\r\n",
        "t\n.model nch nmos level=1\nm1 d g 0 0 nch\n.options  noacct\n.end\n",
    ),
    // globals, each once and without `0`
    (
        "t\n.global vdd 0 VDD\n.global vss\nr1 vss vdd 1k\n",
        "t\n.global vdd\n.global vss\nr1 vss vdd 1k\n.end\n",
    ),
];

#[test]
fn flat_texts(rt: HostRuntime) -> Result<(), Memory> {
    let alloc = rt.alloc();
    for (deck, text) in TEXTS {
        let found = flattened(alloc, deck)?;
        let mut wanted = String::from_str(alloc, "0[")?;
        wanted.push_str(text)?;
        wanted.push_str("][]")?;
        assert!(rt; found.as_slice() == wanted.as_bytes());
    }
    Ok(())
}

/// Nothing was written, and this refusal was said.
fn refused(alloc: Global, refusal: &str) -> Result<String, Memory> {
    let mut wanted = String::from_str(alloc, "2[none][gatelift: 2 deck: ")?;
    wanted.push_str(refusal)?;
    wanted.push_str("\n]")?;
    Ok(wanted)
}

/// A deck's cards behind the title, and the refusal that is said.
const REFUSALS: [(&str, &str); 10] = [
    // two nets of one flat name
    (
        ".subckt s a\nr1 a n 1k\nr2 n 0 1k\n.ends\nx1 p s\nr3 x1.n 0 2k\n.end\n",
        "20 NameClash name=x1.n",
    ),
    // two devices of one flat name
    (
        ".subckt s a\nr1 a 0 1k\n.ends\nx1 p s\nr.x1.r1 p 0 1k\n",
        "20 NameClash name=r.x1.r1",
    ),
    // a subcircuit in itself
    (".subckt s a\nx1 a s\n.ends\n.end\n", "19 Recursive line=3"),
    ("+ w=1\n", "1 LoosePlus line=2"),
    ("q1 c b e mod\n", "4 UnknownCard line=2 byte=113"),
    ("m1 a b c nch\n", "5 ShortCard line=2 has=5 needs=6"),
    (".subckt s a\n", "10 OpenSubckt line=2"),
    ("r1 a b 1\nR1 c d 2\n", "13 DuplicateName line=3 first=2"),
    ("x1 a b s\n", "17 UnknownSubckt line=2"),
    (
        ".subckt s a\n.ends\nx1 p q s\n",
        "18 WrongNodeCount line=4 has=2 needs=1",
    ),
];

#[test]
fn decks_refused(rt: HostRuntime) -> Result<(), Memory> {
    let alloc = rt.alloc();
    for (cards, refusal) in REFUSALS {
        let mut deck = String::from_str(alloc, "t\n")?;
        deck.push_str(cards)?;
        let found = flattened(alloc, deck.as_str())?;
        let wanted = refused(alloc, refusal)?;
        assert!(rt; found.as_slice() == wanted.as_bytes());
    }
    Ok(())
}

/// Subcircuits from `e0` to this one: the first is empty, and each other one calls the one before it twice.
fn doubling_deck(alloc: Global, last: u32) -> Result<String, Memory> {
    let mut deck = String::from_str(alloc, "t\n.subckt e0\n.ends\n")?;
    for below in 0..last {
        let number = below + 1;
        let sub = format!(in alloc; ".subckt e{number}\nx1 e{below}\nx2 e{below}\n.ends\n")?;
        deck.push_str(sub.as_str())?;
    }
    let top = format!(in alloc; "x1 e{last}\n")?;
    deck.push_str(top.as_str())?;
    Ok(deck)
}

#[test]
fn doubling_decks(rt: HostRuntime) -> Result<(), Memory> {
    let alloc = rt.alloc();
    let many = flattened(alloc, doubling_deck(alloc, 31)?.as_str())?;
    assert!(rt;
        many.as_slice() == refused(alloc, "22 TooMany what=Cards number=400001")?.as_bytes()
    );
    let deep = flattened(alloc, doubling_deck(alloc, 32)?.as_str())?;
    assert!(rt; deep.as_slice() == refused(alloc, "23 TooDeep number=33")?.as_bytes());
    Ok(())
}

#[test]
fn other_words(rt: HostRuntime) -> Result<(), Memory> {
    let alloc = rt.alloc();
    for text in ["flat", "flat deck", "flat deck out more", "flats deck out"] {
        let found = answer(alloc, desk_of(alloc, NEST)?, Slot::Out, text)?;
        assert!(rt; found.as_slice() == b"1[none][gatelift: 1 words\n]".as_slice());
    }
    Ok(())
}

/// The same as `flattened` of the nest where a call fails.
fn faulty(alloc: Global, kind: CallKind, number: u32) -> Result<Vec<u8>, Memory> {
    let mut desk = desk_of(alloc, NEST)?;
    desk.fail(kind, number)?;
    answer(alloc, desk, Slot::Out, "flat deck out")
}

#[test]
fn failing_calls(rt: HostRuntime) -> Result<(), Memory> {
    let alloc = rt.alloc();
    let missing = answer(alloc, desk_of(alloc, NEST)?, Slot::Out, "flat missing out")?;
    assert!(rt; missing.as_slice() == b"7[none][gatelift: 7 read: Deck\n]".as_slice());
    let first_take = faulty(alloc, CallKind::Take, 1)?;
    assert!(rt; first_take.as_slice() == b"7[none][gatelift: 7 read: Deck\n]".as_slice());
    let second_open = faulty(alloc, CallKind::Open, 2)?;
    assert!(rt; second_open.as_slice() == b"8[none][gatelift: 8 write: Out\n]".as_slice());
    let second_give = faulty(alloc, CallKind::Give, 2)?;
    assert!(rt;
        second_give.as_slice()
            == b"8[nest\nm.x2.x1.m3 top1 x2.x1.n 0 0 nch w=1u\nc.x2.x1.][gatelift: 8 write: Out\n]".as_slice()
    );
    Ok(())
}
