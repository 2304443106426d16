//! Decks whose cards are counted as they expand.
use gl_deck::Deck;
use gl_size::{Excess, Sizes, first_excess};
use std::alloc::Global;
use std::process::Abort;
use std::test::Fail;

/// How many cards and devices a deck expands to, and what is too much.
type Expansion = (u32, u32, Option<Excess>);

const DECKS: [(&[u8], Expansion); 4] = [
    (b"", (0, 0, None)),
    (b"t\nr1 a b\nr2 a b\nr3 a b\n", (3, 3, None)),
    // one that nothing calls
    (
        b"t\n.subckt u\nr1 a b\nr2 a b\nx1 s\n.ends\n.subckt s\nr1 a b\nr2 a b\n.ends\nr1 a b\nx1 s\nx2 s\n",
        (7, 5, None),
    ),
    // calls of one in two others
    (
        b"t\n.subckt b\nx1 d\nx2 d\n.ends\n.subckt d\nr1 a b\n.ends\n.subckt c\nr1 a b\nx1 d\nx2 b\n.ends\nx1 b\nx2 c\n",
        (14, 6, None),
    ),
];

/// Subcircuits, each of which calls the next this often, the devices of the last and those beside a call of the first.
type Chain = (u32, u32, u32, u32);

const CHAINS: [(Chain, Expansion); 9] = [
    ((32, 1, 1, 0), (33, 1, None)),
    ((33, 1, 1, 0), (33, 0, Some(Excess::TooDeep))),
    (
        (32, 2, 1, 0),
        (400_001, 200_001, Some(Excess::TooManyCards)),
    ),
    ((33, 2, 1, 0), (400_001, 0, Some(Excess::TooDeep))),
    ((18, 2, 1, 6_785), (400_000, 137_857, None)),
    (
        (18, 2, 1, 6_786),
        (400_001, 137_858, Some(Excess::TooManyCards)),
    ),
    ((7, 2, 3_125, 0), (200_127, 200_000, None)),
    (
        (7, 2, 3_125, 1),
        (200_128, 200_001, Some(Excess::TooManyDevices)),
    ),
    (
        (8, 2, 3_125, 0),
        (400_001, 200_001, Some(Excess::TooManyCards)),
    ),
];

/// The deck expands to this.
fn expands(rt: &impl Abort, alloc: Global, bytes: &[u8], wanted: Expansion) -> Result<(), Fail> {
    assert!(rt; bytes.len() <= 67_108_864);
    let Ok(deck) = Deck::read(alloc, bytes, true) else {
        assert!(rt; false, "no deck");
        return Ok(());
    };
    let subs = deck.subs();
    let sizes = Sizes::of(alloc, subs)?;
    assert_eq!(rt; sizes.cards(subs, deck.top()), wanted.0);
    assert_eq!(rt; sizes.devices(subs, deck.top()), wanted.1);
    assert_eq!(rt; first_excess(alloc, subs, deck.top())?, wanted.2);
    Ok(())
}

/// So many cards of one kind, which call this or have these nodes.
fn put(
    text: &mut Vec<u8>,
    alloc: Global,
    kind: &str,
    count: u32,
    behind: &str,
) -> Result<(), Fail> {
    for i in 0..count {
        let card = format!(in alloc; "{kind}{i} {behind}\n")?;
        text.extend_from_slice(card.as_bytes())?;
    }
    Ok(())
}

/// The cards of a subcircuit, or of the last one.
fn put_sub(text: &mut Vec<u8>, alloc: Global, chain: Chain, next: u32) -> Result<(), Fail> {
    if next == chain.0 {
        return put(text, alloc, "r", chain.2, "a b");
    }
    let called = format!(in alloc; "s{next}")?;
    put(text, alloc, "x", chain.1, called.as_str())
}

/// The deck of a chain.
fn chained(alloc: Global, chain: Chain) -> Result<Vec<u8>, Fail> {
    let mut text = Vec::from_slice(alloc, b"t\nx s0\n")?;
    put(&mut text, alloc, "r", chain.3, "a b")?;
    for i in 0..chain.0 {
        let head = format!(in alloc; ".subckt s{i}\n")?;
        text.extend_from_slice(head.as_bytes())?;
        put_sub(&mut text, alloc, chain, i + 1)?;
        text.extend_from_slice(b".ends\n")?;
    }
    Ok(text)
}

#[test]
fn small_decks(rt: HostRuntime) -> Result<(), Fail> {
    for (bytes, wanted) in DECKS {
        expands(&rt, rt.alloc(), bytes, wanted)?;
    }
    Ok(())
}

#[test]
fn chains(rt: HostRuntime) -> Result<(), Fail> {
    for (chain, wanted) in CHAINS {
        let bytes = chained(rt.alloc(), chain)?;
        expands(&rt, rt.alloc(), &bytes, wanted)?;
    }
    Ok(())
}
