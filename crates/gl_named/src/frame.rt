//! What a flat deck's text has beside the lines of its devices.
ghost use Rattle.std.specs.Prelude.{◌≡◌, ◌++◌, [], IfOk, OnOk, length};
ghost use Rattle.std.specs.Option.{option_copied};
ghost use Rattle.gl_text.specs.Flattening.{around, flat_text};
ghost use Rattle.gl_named.specs.Named.{without_devices};

use gl_deck::{Head, put_all_passed, put_ends, put_globals, put_head, put_models, put_text};
use gl_flat::Flat;
use gl_map::Memory;
use std::alloc::Global;

/// Appends the cards that open and close the top subcircuit, if there is one.
fn put_top(out: &mut Vec<u8>, top: Option<&Head>) -> Result<(), Memory>
    ensures ok { OnOk result
        (out.new.items ≡ out.old.items ++ around (option_copied top.entry) []) }
{
    match top {
        None => Ok(()),
        Some(head) => {
            put_head(out, head)?;
            put_ends(out, head.name())
        }
    }
}

/// Appends a flat deck without its devices.
fn put_frame(out: &mut Vec<u8>, flat: &Flat) -> Result<(), Memory>
    ensures ok { OnOk result
        (out.new.items ≡ out.old.items ++ flat_text (without_devices flat.now)) }
{
    put_text(out, flat.title())?;
    put_globals(out, flat.rails())?;
    put_models(out, flat.models())?;
    put_top(out, flat.top())?;
    put_all_passed(out, flat.passed())?;
    put_text(out, b".end")?;
    Ok(())
}

/// How long the text of a flat deck is without its devices. It is built and thrown away.
pub fn frame_length(alloc: Global, flat: &Flat) -> Result<usize, Memory>
    ensures length { IfOk result (λ n. n ≡ length (flat_text (without_devices flat.now))) }
{
    let mut frame = Vec::new(alloc);
    put_frame(&mut frame, flat)?;
    Ok(frame.as_slice().len())
}
