//! Maps of names that are read, refused and printed, and new names.
use gl_map::{Name, NameMap, put_device_name, put_instance_name, put_net_name, put_variant_name};
use std::alloc::{AllocError, Global};
use std::process::Abort;
use std::test::Fail;

/// What a text shows, the text, and the map that it is read as, printed behind `map: `, or its refusal.
type Row = (&'static str, &'static [u8], &'static [u8]);

/// The map of a text, printed behind a word, or its refusal.
fn answer(alloc: Global, bytes: &[u8]) -> Result<Vec<u8>, Fail> {
    if bytes.len() > 67_108_864 {
        return Err(Fail::new("unexpected"));
    }
    match NameMap::read(alloc, bytes) {
        Ok(map) => {
            let mut out = Vec::from_slice(alloc, b"map: ")?;
            map.print(&mut out)?;
            Ok(out)
        }
        Err(fault) => {
            let text = fault.to_string(alloc)?;
            Ok(Vec::from_slice(alloc, text.as_bytes())?)
        }
    }
}

const MAPS: [Row; 8] = [
    (
        "an inverter",
        b"gatelift map 1\ndevice m.xg1.mp m1\ndevice m.xg1.mn m2\nnet out out\nnet in in\nnet vdd vdd\nnet 0 0\nend\n",
        b"map: gatelift map 1\ndevice m.xg1.mp m1\ndevice m.xg1.mn m2\nnet out out\nnet in in\nnet vdd vdd\nnet 0 0\nend\n",
    ),
    (
        "no name",
        b"gatelift map 1\nend\n",
        b"map: gatelift map 1\nend\n",
    ),
    (
        "no last newline",
        b"gatelift map 1\nnet a b\nend",
        b"map: gatelift map 1\nnet a b\nend\n",
    ),
    (
        "carriage returns at the ends of lines",
        b"gatelift map 1\r\ndevice m1 m2\r\nnet a b\r\r\nend\r\n",
        b"map: gatelift map 1\ndevice m1 m2\nnet a b\nend\n",
    ),
    (
        "a device and a net of one new name",
        b"gatelift map 1\ndevice r1 r2\nnet r1 b\nend\n",
        b"map: gatelift map 1\ndevice r1 r2\nnet r1 b\nend\n",
    ),
    (
        "an old name twice, and names exchanged",
        b"gatelift map 1\nnet a b\nnet b a\nnet c a\nend\n",
        b"map: gatelift map 1\nnet a b\nnet b a\nnet c a\nend\n",
    ),
    (
        "names that are words, and bytes that are no letters",
        b"gatelift map 1\ndevice device net\nnet end end\nnet #!.+*;$ \xff\x00\nend\n",
        b"map: gatelift map 1\ndevice device net\nnet end end\nnet #!.+*;$ \xff\x00\nend\n",
    ),
    (
        "devices alone",
        b"gatelift map 1\ndevice b a\ndevice a b\nend\n",
        b"map: gatelift map 1\ndevice b a\ndevice a b\nend\n",
    ),
];

const HEADER: &[u8] = b"the first line is not that of a map";

const REFUSED: [Row; 32] = [
    ("no bytes", b"", HEADER),
    ("an empty first line", b"\ngatelift map 1\nend\n", HEADER),
    (
        "a blank behind the header",
        b"gatelift map 1 \nend\n",
        HEADER,
    ),
    ("another version", b"gatelift map 2\nend\n", HEADER),
    (
        "a large letter in the header",
        b"Gatelift map 1\nend\n",
        HEADER,
    ),
    (
        "two header lines",
        b"gatelift map 1\ngatelift map 1\nend\n",
        b"line 2: it may not stand here",
    ),
    (
        "the header, then a bad line, no end and a double name",
        b"map\nx\nnet a a\nnet a b\n",
        HEADER,
    ),
    (
        "an empty line",
        b"gatelift map 1\n\nend\n",
        b"line 2: it may not stand here",
    ),
    (
        "a return alone",
        b"gatelift map 1\n\r\nend\n",
        b"line 2: it may not stand here",
    ),
    (
        "a word too few",
        b"gatelift map 1\nnet a b\nnet a\nend\n",
        b"line 3: it may not stand here",
    ),
    (
        "a word too many",
        b"gatelift map 1\nnet a b c\nend\n",
        b"line 2: it may not stand here",
    ),
    (
        "two blanks",
        b"gatelift map 1\nnet  a b\nend\n",
        b"line 2: it may not stand here",
    ),
    (
        "a blank at the end",
        b"gatelift map 1\nnet a b \nend\n",
        b"line 2: it may not stand here",
    ),
    (
        "a blank at the front",
        b"gatelift map 1\n net a b\nend\n",
        b"line 2: it may not stand here",
    ),
    (
        "a tab for a blank",
        b"gatelift map 1\nnet a\tb\nend\n",
        b"line 2: it may not stand here",
    ),
    (
        "another word",
        b"gatelift map 1\nnets a b\nend\n",
        b"line 2: it may not stand here",
    ),
    (
        "a large letter in a word",
        b"gatelift map 1\nNet a b\nend\n",
        b"line 2: it may not stand here",
    ),
    (
        "a large letter in a new name",
        b"gatelift map 1\nnet A b\nend\n",
        b"line 2: it may not stand here",
    ),
    (
        "a separator in an old name",
        b"gatelift map 1\nnet a b=c\nend\n",
        b"line 2: it may not stand here",
    ),
    (
        "a return inside a line",
        b"gatelift map 1\nnet a\r b\nend\n",
        b"line 2: it may not stand here",
    ),
    (
        "a device behind a net",
        b"gatelift map 1\ndevice m1 m2\nnet a b\ndevice m2 m1\nend\n",
        b"line 4: it may not stand here",
    ),
    (
        "a net behind the end",
        b"gatelift map 1\nend\nnet a b\n",
        b"line 3: it may not stand here",
    ),
    (
        "two ends",
        b"gatelift map 1\nend\nend\n",
        b"line 3: it may not stand here",
    ),
    (
        "an empty line behind the end",
        b"gatelift map 1\nend\n\n",
        b"line 3: it may not stand here",
    ),
    (
        "a bad line and no end",
        b"gatelift map 1\nnet a b\nx\n",
        b"line 3: it may not stand here",
    ),
    (
        "a double name before a bad line",
        b"gatelift map 1\nnet a b\nnet a c\nx\nend\n",
        b"line 4: it may not stand here",
    ),
    (
        "no end",
        b"gatelift map 1\nnet a b\n",
        b"no line is the end",
    ),
    (
        "no line behind the header",
        b"gatelift map 1",
        b"no line is the end",
    ),
    (
        "a double name and no end",
        b"gatelift map 1\nnet a b\nnet a c\n",
        b"no line is the end",
    ),
    (
        "a device line twice",
        b"gatelift map 1\ndevice m1 m2\ndevice m3 m4\ndevice m1 m2\nnet a b\nnet a c\nend\n",
        b"line 4: its new name has an earlier line",
    ),
    (
        "a net line twice",
        b"gatelift map 1\ndevice m.xg1.mp m1\ndevice m.xg1.mn m2\nnet out out\nnet out out\nnet in in\nnet vdd vdd\nnet 0 0\nend\n",
        b"line 5: its new name has an earlier line",
    ),
    (
        "a name three times",
        b"gatelift map 1\nnet a b\nnet a c\nnet a d\nend\n",
        b"line 3: its new name has an earlier line",
    ),
];

/// Each text is read as the map of its row, or is refused as it says.
fn tried(rt: &impl Abort, alloc: Global, rows: &[Row]) -> Result<(), Fail> {
    for (title, text, wanted) in rows {
        let given = answer(alloc, text)?;
        assert_eq!(rt; given.as_slice(), *wanted, "{title}");
    }
    Ok(())
}

#[test]
fn maps_are_read_and_printed(rt: HostRuntime) -> Result<(), Fail> {
    tried(&rt, rt.alloc(), &MAPS)
}

#[test]
fn texts_are_refused(rt: HostRuntime) -> Result<(), Fail> {
    tried(&rt, rt.alloc(), &REFUSED)
}

/// The text of a map with one net, whose old name has so many letters.
fn long_map(alloc: Global, letters: usize) -> Result<Vec<u8>, AllocError> {
    let mut text = Vec::from_slice(alloc, b"gatelift map 1\nnet a ")?;
    for _ in 0..letters {
        text.push(b'b')?;
    }
    text.extend_from_slice(b"\nend\n")?;
    Ok(text)
}

#[test]
fn names_have_a_limit(rt: HostRuntime) -> Result<(), Fail> {
    let alloc = rt.alloc();
    let longest = long_map(alloc, 1024)?;
    let mut wanted = Vec::from_slice(alloc, b"map: ")?;
    wanted.extend_from_slice(&longest)?;
    assert_eq!(rt; answer(alloc, &longest)?.as_slice(), wanted.as_slice());
    let given = answer(alloc, &long_map(alloc, 1025)?)?;
    assert_eq!(rt;
        given.as_slice(),
        b"line 2: it may not stand here".as_slice()
    );
    Ok(())
}

/// The flat names of a device and of a net, at the top or behind X cards, then the names of an instance and of a variant.
fn put_names(text: &mut Vec<u8>, way: &[Name]) -> Result<(), Fail> {
    put_device_name(text, way, b"mn1")?;
    text.push(b' ')?;
    put_net_name(text, way, b"x")?;
    text.push(b' ')?;
    put_instance_name(text, b"xg_", 12)?;
    text.push(b' ')?;
    put_variant_name(text, b"inv_v1", 20)?;
    Ok(())
}

#[test]
fn names_are_put(rt: HostRuntime) -> Result<(), Fail> {
    let alloc = rt.alloc();
    let mut text = Vec::new(alloc);
    put_names(&mut text, &[])?;
    assert_eq!(rt; text.as_slice(), b"mn1 x xg_12 inv_v1_v20".as_slice());
    let mut way = Vec::new(alloc);
    way.push(Name::of(alloc, b"xg3")?)?;
    way.push(Name::of(alloc, b"x1")?)?;
    text.clear();
    put_names(&mut text, &way)?;
    assert_eq!(rt;
        text.as_slice(),
        b"m.xg3.x1.mn1 xg3.x1.x xg_12 inv_v1_v20".as_slice()
    );
    Ok(())
}
