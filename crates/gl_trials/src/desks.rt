//! Desks that are read and written, in memory and over real files, where calls fail.
use gl_desk::{
    CallKind, Desk, Failed, Memory, MemoryDesk, ReadFault, RealDesk, Slot, read_all, write_all,
};
use std::alloc::{AllocError, Global};
use std::fs;
use std::fs::File;
use std::rt::Files;

/// The bytes 0, 1, .. 250, 0, 1, ..
fn sample(alloc: Global, count: usize) -> Result<Vec<u8>, AllocError> {
    let mut bytes = Vec::new(alloc);
    for i in 0..count {
        bytes.push((i % 251) as u8)?;
    }
    Ok(bytes)
}

/// Reads an input that wants the name `deck.sp`, 50 bytes a call, where one call fails.
fn read_over(
    alloc: Global,
    bytes: &[u8],
    name: &str,
    kind: CallKind,
    number: u32,
) -> Result<Vec<u8>, ReadFault> {
    let mut desk = MemoryDesk::new(alloc, 50);
    let put = desk.put("deck.sp", b"what was there before");
    let put_again = desk.put("deck.sp", bytes);
    let wanted = desk.want(Slot::Deck, "deck.sp");
    let failing = desk.fail(kind, number);
    if put.is_err() || put_again.is_err() || wanted.is_err() || failing.is_err() {
        return Err(ReadFault::Memory);
    }
    desk.open(Slot::Deck, name)?;
    read_all(alloc, &mut desk, Slot::Deck)
}

#[test]
fn an_input_is_read_whole_or_fails(rt: HostRuntime) -> Result<(), AllocError> {
    let alloc = rt.alloc();
    let bytes = sample(alloc, 120)?;
    // Pieces of 50, 50 and 20 bytes and the end are four takes.
    let rows = [
        ("deck.sp", CallKind::Take, 1, false),
        ("deck.sp", CallKind::Take, 3, false),
        ("deck.sp", CallKind::Take, 4, false),
        ("deck.sp", CallKind::Take, 5, true),
        ("deck.sp", CallKind::Open, 1, false),
        ("deck.sp", CallKind::Open, 2, true),
        ("deck.sp", CallKind::Give, 1, true),
        ("other.sp", CallKind::Open, 2, false),
    ];
    for (name, kind, number, whole) in rows {
        match read_over(alloc, &bytes, name, kind, number) {
            Ok(all) => assert!(rt;
                whole && all.as_slice() == bytes.as_slice(),
                "{name} {number}"
            ),
            Err(fault) => assert!(rt; !whole && fault == ReadFault::Failed, "{name} {number}"),
        }
    }
    Ok(())
}

/// What an output was given, 50 bytes a call, where one give fails, and whether that was all.
fn write_over(alloc: Global, bytes: &[u8], number: u32) -> Result<(bool, Vec<u8>), Memory> {
    let mut desk = MemoryDesk::new(alloc, 50);
    desk.fail(CallKind::Give, number)?;
    if desk.open(Slot::Lifted, "lifted.sp").is_err() {
        return Err(Memory);
    }
    let is_whole = write_all(&mut desk, Slot::Lifted, bytes).is_ok();
    match desk.text(Slot::Lifted) {
        Some(text) => Ok((is_whole, Vec::from_slice(alloc, text)?)),
        None => Err(Memory),
    }
}

#[test]
fn a_failing_give_leaves_a_front(rt: HostRuntime) -> Result<(), AllocError> {
    let alloc = rt.alloc();
    let bytes = sample(alloc, 120)?;
    for (number, given) in [(1, 0), (2, 50), (3, 100), (4, 120)] {
        match write_over(alloc, &bytes, number) {
            Ok((is_whole, text)) => {
                assert_eq!(rt; is_whole, number == 4, "give {number}");
                let front = sample(alloc, given)?;
                assert!(rt; text.as_slice() == front.as_slice(), "give {number}");
            }
            Err(_) => assert!(rt; false, "give {number}"),
        }
    }
    Ok(())
}

#[test]
fn a_new_desk_has_said_nothing(rt: HostRuntime) {
    let mut desk = MemoryDesk::new(rt.alloc(), 1);
    assert_eq!(rt; desk.text(Slot::Says), Some(b"".as_slice()));
    assert!(rt; desk.text(Slot::Deck).is_none() && desk.text(Slot::Out).is_none());
    assert!(rt; write_all(&mut desk, Slot::Says, b"a line\n").is_ok());
    assert_eq!(rt; desk.text(Slot::Says), Some(b"a line\n".as_slice()));
}

/// Writes a file.
fn write_file<R: Files<File = File> + Print>(
    rt: &R,
    name: &str,
    bytes: &[u8],
) -> Result<(), Failed> {
    let mut desk = RealDesk::new(rt);
    desk.open(Slot::Out, name)?;
    write_all(&mut desk, Slot::Out, bytes)
}

/// Reads a file.
fn read_file<R: Files<File = File> + Print>(
    rt: &R,
    alloc: Global,
    name: &str,
) -> Result<Vec<u8>, ReadFault> {
    let mut desk = RealDesk::new(rt);
    desk.open(Slot::Deck, name)?;
    read_all(alloc, &mut desk, Slot::Deck)
}

#[test]
fn a_file_is_written_and_read_back(rt: HostRuntime) -> Result<(), AllocError> {
    let alloc = rt.alloc();
    let bytes = sample(alloc, 100_000)?;
    let name = "gl_desk_written_and_read_back";
    assert!(rt; write_file(&rt, name, &bytes).is_ok());
    match read_file(&rt, alloc, name) {
        Ok(all) => assert!(rt; all.as_slice() == bytes.as_slice()),
        Err(_) => assert!(rt; false, "the file is read"),
    }
    assert!(rt; fs::remove_file(&rt, name).is_ok());
    // A file that is gone can't be opened, and a folder can't be read.
    for missing in [name, "."] {
        match read_file(&rt, alloc, missing) {
            Ok(_) => assert!(rt; false, "{missing}"),
            Err(fault) => assert!(rt; fault == ReadFault::Failed, "{missing}"),
        }
    }
    let mut desk = RealDesk::new(&rt);
    assert!(rt; write_all(&mut desk, Slot::Says, b"said\n").is_ok());
    Ok(())
}
