//! Decks that are lifted with a library.
ghost use Rattle.std.specs.Prelude.{IfOk};
ghost use Rattle.gl_lift.specs.Liftable.{IsLiftable, IsSearchable};

use crate::way::written_of;
use gl_cells::{Deck, Library};
use gl_lib::Name;
use gl_lift::read_values_are_lifted;
use std::alloc::{AllocError, Global};
use std::process::Abort;
use std::test::Fail;

/// What it shows, a deck, a library, the name of the top or nothing, and the text of the lifted deck.
type Row = (
    &'static str,
    &'static [u8],
    &'static [u8],
    &'static [u8],
    &'static [u8],
);

/// An inverter.
const INV: &[u8] = b".global vdd\n.subckt inv a y\nmp y a vdd vdd pch\nmn y a 0 0 nch\n.ends\n";

/// A gate, and two of it that hold each other.
const LATCH: &[u8] =
    b".global vdd\n.subckt nand2 a b y\nmp1 y a vdd vdd pch\nmp2 y b vdd vdd pch\nmn1 y a x 0 nch\nmn2 x b 0 0 nch\n.ends\n.subckt latch s r q qb\nx1 s qb q nand2\nx2 r q qb nand2\n.ends\n";

const ROWS: [Row; 7] = [
    (
        "two sizes, and the third is the first again",
        b"t\nm1 b a vdd vdd pch w=2u\nm2 b a 0 0 nch w=1u\nm3 c b vdd vdd pch w=4u\nm4 c b 0 0 nch w=2u\nm5 d c vdd vdd pch w=2u\nm6 d c 0 0 nch w=1u\n",
        INV,
        b"",
        b"t\n.global vdd\n.subckt inv_v1 a y\nmp y a vdd vdd pch w=2u\nmn y a 0 0 nch w=1u\n.ends inv_v1\n.subckt inv_v2 a y\nmp y a vdd vdd pch w=4u\nmn y a 0 0 nch w=2u\n.ends inv_v2\nxg1 a b inv_v1\nxg2 b c inv_v2\nxg3 c d inv_v1\n.end\n",
    ),
    (
        "exchanged drain and source are a variant, and stay exchanged",
        b"t\nm1 vdd a b vdd pch\nm2 b a 0 0 nch\nm3 c b vdd vdd pch\nm4 c b 0 0 nch\nr1 c 0 1k\n",
        INV,
        b"",
        b"t\n.global vdd\n.subckt inv_v1 a y\nmp vdd a y vdd pch\nmn y a 0 0 nch\n.ends inv_v1\n.subckt inv_v2 a y\nmp y a vdd vdd pch\nmn y a 0 0 nch\n.ends inv_v2\nxg1 a b inv_v1\nxg2 b c inv_v2\nr1 c 0 1k\n.end\n",
    ),
    (
        "variants that call variants",
        b"t\nm1 q sn vdd vdd pch\nm2 q qn vdd vdd pch\nm3 q sn k1 0 nch\nm4 k1 qn 0 0 nch\nm5 qn rn vdd vdd pch l=2\nm6 qn q vdd vdd pch\nm7 qn rn k2 0 nch\nm8 k2 q 0 0 nch\n",
        LATCH,
        b"",
        b"t\n.global vdd\n.subckt nand2_v1 a b y\nmp1 y a vdd vdd pch\nmp2 y b vdd vdd pch\nmn1 y a x 0 nch\nmn2 x b 0 0 nch\n.ends nand2_v1\n.subckt nand2_v2 a b y\nmp1 y a vdd vdd pch l=2\nmp2 y b vdd vdd pch\nmn1 y a x 0 nch\nmn2 x b 0 0 nch\n.ends nand2_v2\n.subckt latch_v1 s r q qb\nx1 s qb q nand2_v1\nx2 r q qb nand2_v2\n.ends latch_v1\nxg3 sn rn q qn latch_v1\n.end\n",
    ),
    (
        "a top that is named as a variant",
        b"t\n.subckt inv_v1 in out\nm1 out in vdd vdd pch\nm2 out in 0 0 nch\n.ends\n",
        INV,
        b"inv_v1",
        b"t\n.global vdd\n.subckt inv_v2 a y\nmp y a vdd vdd pch\nmn y a 0 0 nch\n.ends inv_v2\n.subckt inv_v1 in out\nxg1 in out inv_v2\n.ends inv_v1\n.end\n",
    ),
    (
        "a model, a passed card, and a net that is named as an instance",
        b"t\n.options  noacct\n.model zz nmos level=1\nm1 xg1 in vdd vdd pch\nm2 xg1 in 0 0 nch\n",
        INV,
        b"",
        b"t\n.global vdd\n.model zz nmos level=1\n.subckt inv_v1 a y\nmp y a vdd vdd pch\nmn y a 0 0 nch\n.ends inv_v1\nxg_1 in xg1 inv_v1\n.options  noacct\n.end\n",
    ),
    (
        "subcircuits of the deck, whose names have dots, and two ends that are exchanged",
        b"* t\n.subckt s p q\nr1 p n 1k\nr2 q n 2k\n.ends\nx1 a b s\n",
        b".subckt one p q\nr1 p q\n.ends\n",
        b"",
        b"* t\n.subckt one_v1 p q\nr1 p q 1k\n.ends one_v1\n.subckt one_v2 p q\nr1 q p 2k\n.ends one_v2\nxg1 a x1.n one_v1\nxg2 x1.n b one_v2\n.end\n",
    ),
    (
        "nothing found",
        b"t\nr1 a b 1k\n",
        INV,
        b"",
        b"t\n.global vdd\nr1 a b 1k\n.end\n",
    ),
];

/// The deck of a file with a title.
fn read(alloc: Global, bytes: &[u8]) -> Result<Deck, Fail>
    ensures read { IfOk result IsLiftable }
{
    read_values_are_lifted();
    if bytes.len() > 67_108_864 {
        return Err(Fail::new("unexpected"));
    }
    Ok(Deck::read(alloc, bytes, true)?)
}

/// The library of a file.
fn library_of(alloc: Global, bytes: &[u8]) -> Result<Library, Fail>
    ensures read { IfOk result IsSearchable }
{
    read_values_are_lifted();
    if bytes.len() > 67_108_864 {
        return Err(Fail::new("unexpected"));
    }
    Ok(Library::read(alloc, bytes)?)
}

/// The name of the top, if there is one.
fn top_of(alloc: Global, name: &[u8]) -> Result<Option<Name>, AllocError> {
    if name.is_empty() {
        return Ok(None);
    }
    Ok(Some(Name::of(alloc, name)?))
}

/// Lifts a deck.
fn lift_row(rt: &impl Abort, alloc: Global, row: &Row) -> Result<(), Fail> {
    let (name, deck, library, top, wanted) = row;
    let deck = read(alloc, deck)?;
    let library = library_of(alloc, library)?;
    let top = top_of(alloc, top)?;
    let Ok(written) = written_of(alloc, &deck, &library, top.as_ref()) else {
        return Err(Fail::new("refused"));
    };
    assert!(rt; !written.has_long_name, "{name}");
    let Some(text) = written.text else {
        return Err(Fail::new("too long"));
    };
    assert!(rt; text.as_slice() == *wanted, "{name}");
    Ok(())
}

#[test]
fn lifted_decks(rt: HostRuntime) -> Result<(), Fail> {
    for row in &ROWS {
        lift_row(&rt, rt.alloc(), row)?;
    }
    Ok(())
}
