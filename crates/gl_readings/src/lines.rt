//! Titles, logical lines, fields and names.
use gl_line::{LineFault, Logical, LogicalLines, Name, Tail, fields, is_word, split_title};
use std::alloc::Global;
use std::test::Fail;

struct Row {
    name: &'static str,
    first: u32,
    bytes: &'static [u8],
    lines: &'static [(u32, &'static [u8])],
    fault: Option<&'static str>,
}

const ROWS: [Row; 14] = [
    Row {
        name: "no bytes",
        first: 1,
        bytes: b"",
        lines: &[],
        fault: None,
    },
    Row {
        name: "blank lines and comments",
        first: 2,
        bytes: b"\n \t\r\n* note\n \t* note\n",
        lines: &[],
        fault: None,
    },
    Row {
        name: "continued over dropped lines",
        first: 2,
        bytes: b"m1 a b\n* note\n\n  + c d\n+e\nr1 a b 1\n",
        lines: &[(2, b"m1 a b  c d e"), (7, b"r1 a b 1")],
        fault: None,
    },
    Row {
        name: "carriage returns",
        first: 1,
        bytes: b"r1 a b 1\r\n+ x \r\nr2 c d 2\r\n",
        lines: &[(1, b"r1 a b 1  x"), (3, b"r2 c d 2")],
        fault: None,
    },
    Row {
        name: "no newline at the end",
        first: 1,
        bytes: b"r1 a b 1",
        lines: &[(1, b"r1 a b 1")],
        fault: None,
    },
    Row {
        name: "nothing behind the end but its own continuation",
        first: 2,
        bytes: b"r1 a b 1\n.END\n* note\n+ more\n+x\nr2 a b 1\n+",
        lines: &[(2, b"r1 a b 1"), (3, b".END  more x")],
        fault: None,
    },
    Row {
        name: "an end behind separators",
        first: 1,
        bytes: b",.eNd(x)\nr1 a b 1\n",
        lines: &[(1, b",.eNd(x)")],
        fault: None,
    },
    Row {
        name: "ends is not the end",
        first: 1,
        bytes: b".ends\nr1 a b 1\n",
        lines: &[(1, b".ends"), (2, b"r1 a b 1")],
        fault: None,
    },
    Row {
        name: "a continuation of nothing",
        first: 2,
        bytes: b"* note\n+ w=1\nr1 a b 1\n",
        lines: &[],
        fault: Some("line 3: a `+` line has no card before it"),
    },
    Row {
        name: "a star inside a line",
        first: 1,
        bytes: b"r1 a * b\n+*\n",
        lines: &[(1, b"r1 a * b *")],
        fault: None,
    },
    Row {
        name: "other bytes are kept",
        first: 1,
        bytes: b"\x00\xff\x0b\n",
        lines: &[(1, b"\x00\xff\x0b")],
        fault: None,
    },
    Row {
        name: "a plus alone",
        first: 1,
        bytes: b"a\n+\n+\n",
        lines: &[(1, b"a  ")],
        fault: None,
    },
    Row {
        name: "a loose continuation behind the end",
        first: 1,
        bytes: b".end\na\n",
        lines: &[(1, b".end")],
        fault: None,
    },
    Row {
        name: "a title is not looked for",
        first: 1,
        bytes: b"title\n",
        lines: &[(1, b"title")],
        fault: None,
    },
];

fn is_line(given: Option<Result<Logical<'_>, LineFault>>, line: u32, text: &[u8]) -> bool {
    match given {
        Some(Ok(logical)) => logical.line() == line && logical.text() == text,
        _ => false,
    }
}

fn length_of(given: Option<Result<Logical<'_>, LineFault>>) -> Option<usize> {
    match given {
        Some(Ok(logical)) => Some(logical.text().len()),
        _ => None,
    }
}

fn ends_with(
    alloc: Global,
    given: Option<Result<Logical<'_>, LineFault>>,
    fault: Option<&str>,
) -> Result<bool, Fail> {
    match (given, fault) {
        (None, None) => Ok(true),
        (Some(Err(e)), Some(text)) => Ok(e.to_string(alloc)?.as_str() == text),
        _ => Ok(false),
    }
}

#[test]
fn logical_lines(rt: HostRuntime) -> Result<(), Fail> {
    for row in &ROWS {
        let name = row.name;
        assert!(rt; row.bytes.len() <= 67_108_864 && 1 <= row.first && row.first <= 2);
        let mut lines = LogicalLines::new(rt.alloc(), row.bytes, row.first);
        for (line, text) in row.lines {
            assert!(rt; is_line(lines.next(), *line, text), "{name}: line {line}");
        }
        assert!(rt;
            ends_with(rt.alloc(), lines.next(), row.fault)?,
            "{name}: its end"
        );
        assert!(rt; lines.next().is_none(), "{name}: behind its end");
    }
    Ok(())
}

#[test]
fn the_longest_line(rt: HostRuntime) -> Result<(), Fail> {
    for (more, fault) in [
        (b"\n+".as_slice(), None),
        (
            b"\n+b".as_slice(),
            Some("line 1: 131073 bytes, more than a card may have"),
        ),
    ] {
        let mut bytes = vec![in rt.alloc(); b'a'; 131_071]?;
        bytes.extend_from_slice(more)?;
        assert!(rt; bytes.len() <= 67_108_864);
        let mut lines = LogicalLines::new(rt.alloc(), &bytes, 1);
        if fault.is_none() {
            assert!(rt; length_of(lines.next()) == Some(131_072));
        }
        assert!(rt; ends_with(rt.alloc(), lines.next(), fault)?);
        assert!(rt; lines.next().is_none());
    }
    Ok(())
}

#[test]
fn titles(rt: HostRuntime) {
    let rows: [(&[u8], &[u8], &[u8]); 6] = [
        (b"", b"", b""),
        (b"t\r\r\nx\n", b"t", b"x\n"),
        (b" .model\r", b" .model", b""),
        (b"\n", b"", b""),
        (b"\r\rt\n\nr1", b"\r\rt", b"\nr1"),
        (b"+ * t \n", b"+ * t ", b""),
    ];
    for (bytes, title, after) in rows {
        let split = split_title(bytes);
        assert!(rt; split.0 == title && split.1 == after, "{title:?}");
    }
}

#[test]
fn fields_of_a_card(rt: HostRuntime) {
    let text = b"M1 OUT,IN (VDD VDD) PCH  W=4U\t";
    let rows: [(u32, &[u8]); 8] = [
        (0, b"M1"),
        (3, b"OUT"),
        (7, b"IN"),
        (11, b"VDD"),
        (15, b"VDD"),
        (20, b"PCH"),
        (25, b"W"),
        (27, b"4U"),
    ];
    let mut found = fields(text);
    for (start, bytes) in rows {
        let field = found.next();
        assert!(rt;
            field.is_some_and(|f| f.start == start && f.bytes == bytes),
            "at {start}"
        );
    }
    assert!(rt; found.next().is_none());
    assert!(rt; fields(b" ,=()\r").next().is_none());
}

#[test]
fn names(rt: HostRuntime) -> Result<(), Fail> {
    let name = Name::of(rt.alloc(), b"vdd")?;
    assert!(rt; name.as_bytes() == b"vdd".as_slice());
    assert!(rt; name < Name::of(rt.alloc(), b"vss")?);
    assert!(rt; Name::folded(rt.alloc(), b"VdD[\xc4")?.as_bytes() == b"vdd[\xc4".as_slice());
    let tail = Tail::normal(rt.alloc(), b" ,) =\tW = 4U,  L=1)\r\t ")?;
    assert!(rt; tail.as_bytes() == b"= W = 4U, L=1)".as_slice());
    let rows: [(&[u8], bool); 5] = [
        (b".EnD", true),
        (b".end", true),
        (b".ends", false),
        (b"nend", false),
        (b".\x65n\x04", false),
    ];
    for (field, same) in rows {
        assert!(rt; is_word(field, b".end") == same, "{field:?}");
    }
    Ok(())
}
