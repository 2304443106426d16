//! Files that are read as libraries.
use gl_cells::{LibCell, LibFault, Library, Limit, Name, Skip};
use std::alloc::{AllocError, Global};
use std::test::Fail;

/// What it shows, a file, and what its cells are or the refusal.
type Row = (&'static str, &'static str, &'static str);

const ROWS: [Row; 13] = [
    (
        "three kinds of skipped cells",
        ".subckt fill a b\n.ends\n.subckt odd a b\nr1 a 0 1\n.ends\n.subckt inv a y\nmp y a vdd vdd pch\nmn y a 0 0 nch\n.ends\n.subckt dbl a y\nx1 a m inv\nx2 m y fill\n.ends\n",
        "0 empty;0 loose b;0;1 uses fill;",
    ),
    (
        "the first loose port",
        ".subckt s a b c\nr1 b 0 1\n.ends\n",
        "0 loose a;",
    ),
    (
        "the first skipped cell by its cards",
        ".subckt e a\n.ends\n.subckt l a\nr1 b 0 1\n.ends\n.subckt f a\nr1 a 0 1\n.ends\n.subckt t a\nx1 a f\nx2 a l\nx3 a e\n.ends\n",
        "0 empty;0 loose a;0;1 uses l;",
    ),
    ("nothing", "", ""),
    (
        "levels, where calls stand before what they call and behind it",
        ".subckt z q\nx9 q k\nx7 q j\nx8 q h\n.ends\n.subckt h q\nr2 q 0 1\nx5 q j\n.ends\n.subckt j q\nr2 q 0 1\n.ends\n.subckt k q\nx6 q j\nx5 q h\n.ends\n",
        "3;1;0;2;",
    ),
    (
        "the deck is refused first",
        "r1 a b 1\n.subckt s a\n.ends\n.ends\n",
        "line 4: no subcircuit is open",
    ),
    (
        "a cell calls itself",
        ".subckt s a\nx1 a s\n.ends\n",
        "line 2: a call that leads back to its own subcircuit",
    ),
    (
        "a card at the top",
        ".model n nmos\n.subckt s a\n.ends\nr1 a b 1\nx1 a s\n",
        "line 4: a card outside subcircuits",
    ),
    (
        "an X card at the top",
        ".subckt s a\nr1 a 0 1\n.ends\nx1 a s\n",
        "line 4: a card outside subcircuits",
    ),
    (
        "a cell twice in one without a clash, and two nets of one name in another",
        ".subckt s a\nr1 a n 1\nr2 n 0 1\n.ends\n.subckt k p\nx1 p s\nx2 p s\n.ends\n.subckt o p\nx1 p s\nr1 x1.n p 1\n.ends\n",
        "o: clash x1.n",
    ),
    (
        "the first cell that clashes",
        ".subckt s a\nr1 a 0 1\n.ends\n.subckt k p\nx1 p s\nr.x1.r1 p 0 1\n.ends\n.subckt j p\nx2 p s\nr.x2.r1 p 0 1\n.ends\n",
        "k: clash r.x1.r1",
    ),
    (
        "a clash in a skipped cell",
        ".subckt s a\nr1 a 0 1\n.ends\n.subckt k p q\nx1 p s\nr.x1.r1 p 0 1\n.ends\n",
        "k: clash r.x1.r1",
    ),
    (
        "level 16, and a clash before it",
        ".subckt k p\nx1 p c0\nr.x1.r1 p 0 1\n.ends\n.subckt c16 a\nx1 a c15\n.ends\n.subckt c0 a\nr1 a 0 1\n.ends\n.subckt c1 a\nx1 a c0\n.ends\n.subckt c2 a\nx1 a c1\n.ends\n.subckt c3 a\nx1 a c2\n.ends\n.subckt c4 a\nx1 a c3\n.ends\n.subckt c5 a\nx1 a c4\n.ends\n.subckt c6 a\nx1 a c5\n.ends\n.subckt c7 a\nx1 a c6\n.ends\n.subckt c8 a\nx1 a c7\n.ends\n.subckt c9 a\nx1 a c8\n.ends\n.subckt c10 a\nx1 a c9\n.ends\n.subckt c11 a\nx1 a c10\n.ends\n.subckt c12 a\nx1 a c11\n.ends\n.subckt c13 a\nx1 a c12\n.ends\n.subckt c14 a\nx1 a c13\n.ends\n.subckt c15 a\nx1 a c14\n.ends\n",
        "c16: 16 level",
    ),
];

/// A name of ASCII bytes.
fn put_name(text: &mut String, name: &Name) -> Result<(), AllocError> {
    match str::from_utf8(name.as_bytes()) {
        Ok(name) => text.push_str(name),
        Err(_) => text.push_str("?"),
    }
}

/// Why a cell is skipped.
fn put_skip(text: &mut String, skip: Option<&Skip>) -> Result<(), AllocError> {
    match skip {
        Some(Skip::Empty) => text.push_str(" empty"),
        Some(Skip::Loose(port)) => {
            text.push_str(" loose ")?;
            put_name(text, port)
        }
        Some(Skip::Uses(cell)) => {
            text.push_str(" uses ")?;
            put_name(text, cell)
        }
        None => Ok(()),
    }
}

/// The level of a cell, and why it is skipped.
fn put_cell(text: &mut String, cell: &LibCell) -> Result<(), AllocError> {
    let level = cell.level();
    write!(text, "{level}")?;
    put_skip(text, cell.skip())?;
    text.push_str(";")
}

/// What is said of the cells, in order.
fn put_library(text: &mut String, library: &Library) -> Result<(), AllocError> {
    for cell in library.cells() {
        put_cell(text, cell)?;
    }
    Ok(())
}

fn limit_text(what: Limit) -> &'static str {
    match what {
        Limit::Cells => "cells",
        Limit::Devices => "devices",
        Limit::Ports => "ports",
        Limit::Level => "level",
        Limit::Flat => "flat",
    }
}

/// The refusal, with its names and numbers.
fn put_refusal(text: &mut String, fault: &LibFault) -> Result<(), AllocError> {
    match fault {
        LibFault::CellLimit { cell, what, number } => {
            put_name(text, cell)?;
            let what = limit_text(*what);
            write!(text, ": {number} {what}")
        }
        LibFault::CellClash { cell, name } => {
            put_name(text, cell)?;
            text.push_str(": clash ")?;
            put_name(text, name)
        }
        _ => write!(text, "{fault}"),
    }
}

/// What the cells of a file are, or the refusal.
fn answer(alloc: Global, file: &str) -> Result<String, Fail> {
    if file.len() > 67_108_864 {
        return Err(Fail::new("unexpected"));
    }
    let mut text = String::new(alloc);
    match Library::read(alloc, file.as_bytes()) {
        Ok(library) => put_library(&mut text, &library)?,
        Err(fault) => put_refusal(&mut text, &fault)?,
    }
    Ok(text)
}

#[test]
fn libraries(rt: HostRuntime) -> Result<(), Fail> {
    for (name, file, wanted) in &ROWS {
        assert_eq!(rt; answer(rt.alloc(), file)?.as_str(), *wanted, "{name}");
    }
    Ok(())
}

/// A text that is written so many times, each with its number from 0 and a text behind; with 0 it is written once, alone.
type Piece = (&'static str, u32, &'static str);

/// The pieces of a file, and its refusal.
type LimitRow = (&'static [Piece], &'static str);

const LIMIT_ROWS: [LimitRow; 5] = [
    (&[(".subckt c", 257, " a\n.ends\n")], "c256: 257 cells"),
    (
        &[(".subckt c", 257, " a\n.ends\n"), ("r1 a b 1\n", 0, "")],
        "line 515: a card outside subcircuits",
    ),
    (
        &[
            (".subckt s", 0, ""),
            (" p", 65, ""),
            ("\n", 0, ""),
            ("r", 257, " a 0 1\n"),
            (".ends\n", 0, ""),
        ],
        "s: 257 devices",
    ),
    (
        &[
            (".subckt b", 0, ""),
            (" p", 65, ""),
            ("\n.ends\n.subckt c a\n", 0, ""),
            ("r", 257, " a 0 1\n"),
            (".ends\n", 0, ""),
        ],
        "b: 65 ports",
    ),
    (
        &[
            (".subckt d a\n", 0, ""),
            ("r", 256, " a 0 1\n"),
            (".ends\n.subckt e a\nr0 a 0 1\n.ends\n", 0, ""),
            (".subckt c a\nxe a e\n", 0, ""),
            ("x", 255, " a d\n"),
            (".ends\n", 0, ""),
        ],
        "c: 65537 flat",
    ),
];

fn put_piece(text: &mut String, piece: &Piece) -> Result<(), AllocError> {
    let (part, times, mark) = *piece;
    if times == 0 {
        return text.push_str(part);
    }
    for number in 0..times {
        write!(text, "{part}{number}{mark}")?;
    }
    Ok(())
}

fn file(alloc: Global, pieces: &[Piece]) -> Result<String, AllocError> {
    let mut text = String::new(alloc);
    for piece in pieces {
        put_piece(&mut text, piece)?;
    }
    Ok(text)
}

#[test]
fn limits(rt: HostRuntime) -> Result<(), Fail> {
    for (pieces, wanted) in &LIMIT_ROWS {
        let text = file(rt.alloc(), pieces)?;
        assert_eq!(rt; answer(rt.alloc(), text.as_str())?.as_str(), *wanted);
    }
    Ok(())
}
