ghost use Rattle.std.specs.Prelude.{◌≡◌, ◌++◌, ◌∷◌, option_to_list, OnOk, IfOk};
ghost use Rattle.gl_text.specs.LogicalLines.{squeezed};
ghost use Rattle.gl_line.specs.Squeezing.{is_blank_first};

use crate::bytes::is_blank;
use std::alloc::{AllocError, Global};

/// A text begins with a blank.
fn begins_blank(text: &[u8]) -> bool
    ensures begins_blank { result ≡ is_blank_first text.now }
{
    match text {
        [first, ..] => is_blank(*first),
        [] => false,
    }
}

/// What becomes of a byte: the last blank of a run is a space, the others go, another byte stays.
pub fn kept_byte(first: u8, behind: &[u8]) -> Option<u8>
    ensures kept { squeezed (first ∷ behind.now) ≡ option_to_list result ++ squeezed behind.now }
{
    if !is_blank(first) {
        return Some(first);
    }
    if begins_blank(behind) {
        None
    } else {
        Some(b' ')
    }
}

/// A byte behind a text, if there is one.
fn put(out: &mut Vec<u8>, byte: Option<u8>) -> Result<(), AllocError>
    ensures put { OnOk result (out.new.items ≡ out.old.items ++ option_to_list byte) }
{
    if let Some(byte) = byte {
        out.push(byte)?;
    }
    Ok(())
}

/// A text with one space for each run of blanks.
pub fn squeeze(alloc: Global, text: &[u8]) -> Result<Vec<u8>, AllocError>
    ensures squeezed { IfOk result (λ out. out.items ≡ squeezed text.now) }
{
    let mut out = Vec::with_capacity(alloc, text.len())?;
    let mut rest = text;
    while let [first, behind @ ..] = rest {
        put(&mut out, kept_byte(*first, behind))?;
        rest = behind;
    }
    Ok(out)
}
