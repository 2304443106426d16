//! Files that are flattened, with a top or without.
ghost use Rattle.std.specs.Prelude.{IfOk};
ghost use Rattle.gl_printed.specs.ReadDecks.{IsReadDeck};

use gl_flat::{Deck, FlatFault, Name, flatten, flattened_text};
use gl_printed::read_decks_are_fine;
use std::alloc::{AllocError, Global};
use std::process::Abort;
use std::test::Fail;

/// What must come of a file.
enum Wanted {
    /// This flat text.
    Text(&'static [u8]),
    /// The refusal of this name.
    Clash(&'static [u8]),
    /// The refusal of this name of a top.
    NoTop(&'static [u8]),
    /// The refusal of the card of this line.
    TopDevices(u32),
    /// The refusal of a flat name of so many bytes.
    LongName(u32),
}

/// What it shows, a file, the name of the top or nothing, and what must come of it.
type Row = (&'static str, &'static [u8], &'static [u8], Wanted);

/// Two subcircuits, one in the other.
const NEST: &[u8] =
    b"nest\n.subckt cellb p\nm3 p n 0 0 nch w=1u\nc1 n 0 1p\n.ends\n.subckt cella q\nx1 q cellb\n.ends\nx2 top1 cella\n.end\n";

const ROWS: [Row; 16] = [
    (
        "an X card in an X card",
        NEST,
        b"",
        Wanted::Text(
            b"nest\nm.x2.x1.m3 top1 x2.x1.n 0 0 nch w=1u\nc.x2.x1.c1 x2.x1.n 0 1p\n.end\n",
        ),
    ),
    (
        "two nets of one flat name",
        b"clash\n.subckt s a\nr1 a n 1k\nr2 n 0 1k\n.ends\nx1 p s\nr3 x1.n 0 2k\n.end\n",
        b"",
        Wanted::Clash(b"x1.n"),
    ),
    (
        "a net behind an X card that has the name of one before it",
        b"t\n.subckt s a\nr1 a n 1k\n.ends\nr3 x1.n 0 2k\nx1 p s\n",
        b"",
        Wanted::Clash(b"x1.n"),
    ),
    (
        "a device behind an X card that has the name of one before it",
        b"t\n.subckt s a\nr1 a 0 1k\n.ends\nr.x1.r1 p 0 1k\nx1 p s\n",
        b"",
        Wanted::Clash(b"r.x1.r1"),
    ),
    (
        "the name of a device before those of its nets",
        b"t\n.subckt s a\nr1 a n 1k\n.ends\nx1 p s\nr.x1.r1 x1.n 0 1k\n",
        b"",
        Wanted::Clash(b"r.x1.r1"),
    ),
    (
        "names with dots at the top",
        b"t\nr.x1.r1 x1.n 0 1k\nr2 x1.n 0 2k\n",
        b"",
        Wanted::Text(b"t\nr.x1.r1 x1.n 0 1k\nr2 x1.n 0 2k\n.end\n"),
    ),
    (
        "a device and a net of one name",
        b"t\nr1 r1 0 1k\n",
        b"",
        Wanted::Text(b"t\nr1 r1 0 1k\n.end\n"),
    ),
    (
        "a net that has the flat name of a port of the top",
        b"t\n.subckt s a\nr1 a n 1k\n.ends\n.subckt u x1.n\nx1 p s\n.ends\n",
        b"u",
        Wanted::Clash(b"x1.n"),
    ),
    (
        "one net on two ports",
        b"t\n.subckt s a b\nr1 a b 1k\n.ends\nx1 p p s\n",
        b"",
        Wanted::Text(b"t\nr.x1.r1 p p 1k\n.end\n"),
    ),
    (
        "an X card without nodes",
        b"t\n.subckt s\nr1 a b 1k\n.ends\nx1 s\n",
        b"",
        Wanted::Text(b"t\nr.x1.r1 x1.a x1.b 1k\n.end\n"),
    ),
    (
        "a port of the top that is a rail",
        b"t\n.global vdd\n.subckt s vdd\nr1 vdd 0 1k\n.ends\n",
        b"s",
        Wanted::Text(b"t\n.global vdd\n.subckt s vdd\nr1 vdd 0 1k\n.ends s\n.end\n"),
    ),
    (
        "a subcircuit as the top, and a rail inside another",
        b"t\n.global vdd\n.subckt s a\nr1 a n 1k\nx1 n u\n.ends\n.subckt u b\nr2 b m 2k\nr3 m vdd 3k\n.ends\n.end\n",
        b"s",
        Wanted::Text(
            b"t\n.global vdd\n.subckt s a\nr1 a n 1k\nr.x1.r2 n x1.m 2k\nr.x1.r3 x1.m vdd 3k\n.ends s\n.end\n",
        ),
    ),
    (
        "no such top, before a card beside it",
        b"t\n.subckt s a\nr1 a n 1k\n.ends\nr1 a 0 1\n.end\n",
        b"q",
        Wanted::NoTop(b"q"),
    ),
    (
        "a card beside the top, before a clash",
        b"t\n.subckt s a\nr1 a n 1k\nx1 a u\nr2 x1.m a 1\n.ends\n.subckt u b\nr1 b m 1\n.ends\nr1 a 0 1\n.end\n",
        b"s",
        Wanted::TopDevices(10),
    ),
    (
        "no device",
        b"t\n.subckt s a\n.ends\nx1 a s\n",
        b"",
        Wanted::Text(b"t\n.end\n"),
    ),
    (
        "models and passed cards",
        b"t\n.options  noacct\n.model nch nmos level=1\nm1 d g 0 0 nch w=1u\n",
        b"",
        Wanted::Text(b"t\n.model nch nmos level=1\nm1 d g 0 0 nch w=1u\n.options  noacct\n.end\n"),
    ),
];

/// The deck of a file with a title.
fn read(alloc: Global, bytes: &[u8]) -> Result<Deck, Fail>
    ensures read { IfOk result (λ deck. IsReadDeck deck) }
{
    read_decks_are_fine();
    if bytes.len() > 67_108_864 {
        return Err(Fail::new("unexpected"));
    }
    Ok(Deck::read(alloc, bytes, true)?)
}

/// The name of the top, if there is one.
fn top_of(alloc: Global, name: &[u8]) -> Result<Option<Name>, AllocError> {
    if name.is_empty() {
        return Ok(None);
    }
    Ok(Some(Name::of(alloc, name)?))
}

/// The flat text of a deck with its own globals, by way of a flat deck.
fn printed(alloc: Global, deck: &Deck, top: Option<&Name>) -> Result<Vec<u8>, FlatFault>
    requires read { IsReadDeck deck.now }
{
    let flat = flatten(alloc, deck, deck.globals(), top)?;
    let mut text = Vec::new(alloc);
    flat.print(&mut text)?;
    Ok(text)
}

/// The refusal is the wanted one.
fn is_refusal(fault: &FlatFault, wanted: &Wanted) -> bool {
    match (fault, wanted) {
        (FlatFault::NameClash { name }, Wanted::Clash(other)) => name.as_bytes() == *other,
        (FlatFault::NoTop { name }, Wanted::NoTop(other)) => name.as_bytes() == *other,
        (FlatFault::TopDevices { line }, Wanted::TopDevices(other)) => line == other,
        (FlatFault::LongFlatName { len }, Wanted::LongName(other)) => len == other,
        _ => false,
    }
}

/// The answer is the wanted one.
fn is_wanted(answer: &Result<Vec<u8>, FlatFault>, wanted: &Wanted) -> bool {
    match (answer, wanted) {
        (Ok(text), Wanted::Text(other)) => text.as_slice() == *other,
        (Ok(_), _) => false,
        (Err(fault), _) => is_refusal(fault, wanted),
    }
}

/// Flattens a file in both ways.
fn flatten_both(rt: &impl Abort, alloc: Global, row: &Row) -> Result<(), Fail> {
    let (name, file, top, wanted) = row;
    let deck = read(alloc, file)?;
    let top = top_of(alloc, top)?;
    let text = printed(alloc, &deck, top.as_ref());
    assert!(rt; is_wanted(&text, wanted), "{name}");
    let text = flattened_text(alloc, &deck, deck.globals(), top.as_ref());
    assert!(rt; is_wanted(&text, wanted), "{name}, directly");
    Ok(())
}

#[test]
fn flat_texts(rt: HostRuntime) -> Result<(), Fail> {
    for row in &ROWS {
        flatten_both(&rt, rt.alloc(), row)?;
    }
    Ok(())
}

/// The answer for a deck with an X card of 511 letters, in whose subcircuit there is this net.
fn long_answer(alloc: Global, net: &[u8]) -> Result<Result<Vec<u8>, FlatFault>, Fail> {
    let mut text = Vec::from_slice(alloc, b"t\n.subckt s a\nr1 a ")?;
    text.extend_from_slice(net)?;
    text.extend_from_slice(b" 1k\n.ends\n")?;
    text.extend_from_slice(&[b'x'; 511])?;
    text.extend_from_slice(b" p s\n")?;
    let deck = read(alloc, &text)?;
    Ok(printed(alloc, &deck, None))
}

#[test]
fn long_names(rt: HostRuntime) -> Result<(), Fail> {
    assert!(rt; long_answer(rt.alloc(), &[b'n'; 512])?.is_ok());
    let longer = long_answer(rt.alloc(), &[b'n'; 513])?;
    assert!(rt; is_wanted(&longer, &Wanted::LongName(1025)));
    Ok(())
}

#[test]
fn numbers(rt: HostRuntime) -> Result<(), Fail> {
    let deck = read(rt.alloc(), NEST)?;
    let Ok(flat) = flatten(rt.alloc(), &deck, deck.globals(), None) else {
        return Err(Fail::new("refused"));
    };
    let [p, n, zero] = flat.nets().items() else {
        return Err(Fail::new("not three nets"));
    };
    assert!(rt; p.as_bytes() == b"top1".as_slice());
    assert!(rt; n.as_bytes() == b"x2.x1.n".as_slice());
    assert!(rt; zero.as_bytes() == b"0".as_slice());
    let [transistor, capacitor] = flat.devices() else {
        return Err(Fail::new("not two devices"));
    };
    assert!(rt; transistor.nets() == [0, 1, 2, 2].as_slice());
    assert!(rt; capacitor.nets() == [1, 2].as_slice());
    Ok(())
}
