ghost use Rattle.std.specs.Prelude.{IfOk};
ghost use Rattle.gl_printed.specs.ReadDecks.{IsReadDeck};

use crate::{Flat, stem};
use gl_flat::{Deck, Name, flatten};
use gl_printed::read_decks_are_fine;
use std::alloc::Global;
use std::test::Fail;

/// A file with a subcircuit `top`, and the stem of its flat deck.
#[derive(Clone, Copy)]
struct Row {
    title: &'static str,
    file: &'static [u8],
    stem: &'static str,
}

const ROWS: [Row; 8] = [
    Row {
        title: "no device",
        file: b"\n.subckt top a\n.ends\n",
        stem: "xg",
    },
    Row {
        title: "no name with xg",
        file: b"\n.global vdd\n.subckt top a\nm1 x g gx x_g nch\nmg x g gx x_g nch\n.ends\n",
        stem: "xg",
    },
    Row {
        title: "one with and one without an underscore",
        file: b"\n.subckt top a\nr1 xg1.n xg_\n.ends\n",
        stem: "xg__",
    },
    Row {
        title: "inside a name",
        file: b"\n.subckt top a\nr1 axg__xg 0\n.ends\n",
        stem: "xg___",
    },
    Row {
        title: "the last name has fewer",
        file: b"\n.subckt top a\nr1 xg___ xg\n.ends\n",
        stem: "xg____",
    },
    Row {
        title: "a device",
        file: b"\n.subckt top a\nr.xg.1 a 0\nr2 a 0\n.ends\n",
        stem: "xg_",
    },
    Row {
        title: "a rail that no device has",
        file: b"\n.global xg_ vdd\n.subckt top a\nr1 a 0\n.ends\n",
        stem: "xg__",
    },
    Row {
        title: "a port of the top",
        file: b"\n.subckt top a xxg__b\nr1 xg_ 0\n.ends\n",
        stem: "xg___",
    },
];

/// The deck of a file with a title.
fn read(alloc: Global, bytes: &[u8]) -> Result<Deck, Fail>
    ensures read { IfOk result (λ deck. IsReadDeck deck) }
{
    read_decks_are_fine();
    if bytes.len() > 67_108_864 {
        return Err(Fail::new("unexpected"));
    }
    Ok(Deck::read(alloc, bytes, true)?)
}

/// The flat deck of the subcircuit `top`.
fn flat(alloc: Global, deck: &Deck) -> Result<Flat, Fail>
    requires read { IsReadDeck deck.now }
{
    let top = Name::of(alloc, b"top")?;
    match flatten(alloc, deck, deck.globals(), Some(&top)) {
        Ok(flat) => Ok(flat),
        Err(_) => Err(Fail::new("refused")),
    }
}

#[test]
fn stems(rt: HostRuntime) -> Result<(), Fail> {
    let alloc = rt.alloc();
    for row in &ROWS {
        let deck = read(alloc, row.file)?;
        let given = stem(alloc, &flat(alloc, &deck)?)?;
        assert_eq!(rt; given.as_slice(), row.stem.as_bytes(), "{}", row.title);
    }
    Ok(())
}
