//! The rails of a run.
use gl_lib::{Name, run_rails};
use std::alloc::{AllocError, Global};

/// Names of bytes as they stand.
pub fn names(alloc: Global, texts: &[&str]) -> Result<Vec<Name>, AllocError> {
    let mut names = Vec::new(alloc);
    for text in texts {
        names.push(Name::of(alloc, text.as_bytes())?)?;
    }
    Ok(names)
}

/// The rails of a deck's and a library's globals, each before a blank.
fn rails(alloc: Global, deck: &[&str], library: &[&str]) -> Result<Vec<u8>, AllocError> {
    let mut text = Vec::new(alloc);
    for rail in run_rails(alloc, &names(alloc, deck)?, &names(alloc, library)?)?.iter() {
        text.extend_from_slice(rail.as_bytes())?;
        text.push(b' ')?;
    }
    Ok(text)
}

#[test]
fn rails_of_a_run(rt: HostRuntime) -> Result<(), AllocError> {
    let alloc = rt.alloc();
    assert!(rt; rails(alloc, &[], &[])?.as_slice() == b"".as_slice());
    assert!(rt; rails(alloc, &["vdd"], &["vdd"])?.as_slice() == b"vdd ".as_slice());
    assert!(rt;
        rails(alloc, &["vdd", "w"], &["gnd", "0", "vdd", "a"])?.as_slice()
            == b"vdd w gnd a ".as_slice()
    );
    assert!(rt; rails(alloc, &["0", "b", "a"], &["c"])?.as_slice() == b"b a c ".as_slice());
    Ok(())
}
