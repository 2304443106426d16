//! Lines that are read as cards.
use gl_card::{Card, CardFault};
use gl_line::Logical;
use std::alloc::{AllocError, Global};
use std::borrow::CowSlice;
use std::test::Fail;

/// A line's text, and its card, printed, or its refusal.
type Row = (&'static [u8], &'static str);

const ROWS: [Row; 33] = [
    (
        b"M1 OUT,IN (VDD VDD) PCH  W=4U L=1U",
        "m1 out in vdd vdd pch W=4U L=1U",
    ),
    (b"D1 a k DMod area=2", "d1 a k dmod area=2"),
    (b"R1 a b", "r1 a b"),
    (b"c1 a,b ,)  1p\t", "c1 a b 1p"),
    (b"L1 a b=5", "l1 a b =5"),
    (b"V1 p 0 DC 5 AC 1", "v1 p 0 DC 5 AC 1"),
    (b"i1 a 0 SIN(0 1 \t1k)", "i1 a 0 SIN(0 1 1k)"),
    (b"X1 A B (C) Sub", "x1 a b c sub"),
    (b"x1 s", "x1 s"),
    (b".SUBCKT Inv In Out", ".subckt inv in out"),
    (b".subckt s", ".subckt s"),
    (b".ENDS", ".ends"),
    (b".ends Inv junk w=1", ".ends inv"),
    (
        b".Model NCH NMOS (LEVEL=1  VTO=0.7)",
        ".model nch nmos (LEVEL=1 VTO=0.7)",
    ),
    (b".global VDD 0 VDD", ".global vdd 0 vdd"),
    (b".global", ".global"),
    (b".END junk", ".end"),
    (b".Options  reltol=1e-3 \r", ".Options  reltol=1e-3"),
    (b".", "."),
    (b"m1 a b c nch", "line 2: 5 fields, 6 needed"),
    (b"x1", "line 2: 1 fields, 2 needed"),
    (b"x1=", "line 2: 1 fields, 2 needed"),
    (b".subckt", "line 2: 1 fields, 2 needed"),
    (b".model n", "line 2: 2 fields, 3 needed"),
    (b"q1 c b e mod", "line 2: byte 113 begins no card"),
    (b" r1 a b", "line 2: byte 32 begins no card"),
    (b",.end", "line 2: byte 44 begins no card"),
    (b"+ r1", "line 2: byte 43 begins no card"),
    (b"\xff", "line 2: byte 255 begins no card"),
    (b".CONTROL", "line 2: a control block"),
    (b"x1 a s w=1", "line 2: parameters"),
    (b".subckt s a w=1", "line 2: parameters"),
    (b".subckt s = a", "line 2: parameters"),
];

fn shown(alloc: Global, card: Result<Card, CardFault>, line: &str) -> Result<bool, Fail> {
    match card {
        Ok(card) => {
            let mut out = Vec::new(alloc);
            card.print(&mut out)?;
            Ok(out.as_slice() == line.as_bytes())
        }
        Err(fault) => Ok(fault.to_string(alloc)?.as_str() == line),
    }
}

#[test]
fn cards(rt: HostRuntime) -> Result<(), Fail> {
    for (text, line) in ROWS {
        let logical = Logical {
            line: 2,
            text: CowSlice::Borrowed(text),
        };
        assert!(rt; 1 <= text.len() && text.len() <= 131_072);
        let card = Card::read(rt.alloc(), &logical);
        assert!(rt; shown(rt.alloc(), card, line)?, "{line}");
    }
    Ok(())
}

/// So many times the letter x between two texts, and the refusal, if there is one.
type Long = (&'static [u8], usize, &'static [u8], &'static str);

const LIMITS: [Long; 5] = [
    (b"r", 1_023, b" a b 1", ""),
    (b"r", 1_024, b" a b 1", "line 7: a name of 1025 bytes"),
    (b"m1 ", 1_025, b"", "line 7: a name of 1025 bytes"),
    (b"r1 a b ", 65_536, b"", ""),
    (b"r1 a b ", 65_537, b"", "line 7: a tail of 65537 bytes"),
];

fn long_text(alloc: Global, row: Long) -> Result<Vec<u8>, AllocError> {
    let mut text = Vec::from_slice(alloc, row.0)?;
    for _ in 0..row.1 {
        text.push(b'x')?;
    }
    text.extend_from_slice(row.2)?;
    Ok(text)
}

#[test]
fn limits(rt: HostRuntime) -> Result<(), Fail> {
    for row in LIMITS {
        let text = long_text(rt.alloc(), row)?;
        assert!(rt; 1 <= text.len() && text.len() <= 131_072);
        let logical = Logical {
            line: 7,
            text: CowSlice::Borrowed(&text),
        };
        match Card::read(rt.alloc(), &logical) {
            Ok(_) => assert_eq!(rt; row.3, ""),
            Err(fault) => assert_eq!(rt; fault.to_string(rt.alloc())?.as_str(), row.3),
        }
    }
    Ok(())
}
