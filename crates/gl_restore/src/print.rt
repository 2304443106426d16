ghost use Rattle.std.specs.Prelude.{◌≡◌, ◌∷◌, [], ◌++◌, OnOk, length, map, take};
ghost use Rattle.std.specs.Option.{option_copied};
ghost use Rattle.gl_text.specs.Cards.{spaced};
ghost use Rattle.gl_text.specs.Flattening.{around, flat_text};
ghost use Rattle.gl_base.specs.Reports.{name_at};
ghost use Rattle.gl_card.specs.Lines.{spaced_all};
ghost use Rattle.gl_flat.specs.Kept.{device_line, device_lines, numbers_text};
ghost use Rattle.gl_flat.specs.Lines.{model_text};
ghost use Rattle.gl_restore.specs.Backs.{flat_with};

use crate::back::Back;
use crate::{Flat, Memory, Name};
use gl_deck::{Head, put, put_all_passed, put_ends, put_globals, put_head, put_models, put_text};

/// The name of a net, by its number; empty where there is none.
pub fn net_name<'a>(nets: &[&'a Name], number: u32) -> &'a [u8]
    ensures name { result.now ≡ name_at (map (λ n. n.now) nets.now) number }
{
    match nets.get(number as usize) {
        Some(name) => name.as_bytes(),
        None => &[],
    }
}

/// Appends a space and a word.
fn put_word(out: &mut Vec<u8>, word: &[u8]) -> Result<(), Memory>
    ensures ok { OnOk result (out.new.items ≡ out.old.items ++ spaced_all (word.now ∷ [])) }
    ensures front { take (length out.old.items) out.new.items ≡ out.old.items }
{
    put(out, b" ")?;
    put(out, word)
}

/// Appends a space and the net's name for each of the numbers.
fn put_nodes(out: &mut Vec<u8>, nets: &[&Name], nodes: &[u32]) -> Result<(), Memory>
    ensures ok { OnOk result (out.new.items
        ≡ out.old.items ++ numbers_text (map (λ n. n.now) nets.now) nodes.now) }
    ensures front { take (length out.old.items) out.new.items ≡ out.old.items }
{
    for node in nodes {
        put_word(out, net_name(nets, *node))?;
    }
    Ok(())
}

/// Appends a space and the model's name, if there is one.
fn put_model(out: &mut Vec<u8>, model: Option<&Name>) -> Result<(), Memory>
    ensures ok { OnOk result (out.new.items
        ≡ out.old.items ++ model_text (option_copied model.entry)) }
    ensures front { take (length out.old.items) out.new.items ≡ out.old.items }
{
    match model {
        Some(name) => put_word(out, name.as_bytes()),
        None => Ok(()),
    }
}

/// Appends a space and the tail, if it is not empty.
fn put_tail(out: &mut Vec<u8>, tail: &[u8]) -> Result<(), Memory>
    ensures ok { OnOk result (out.new.items ≡ out.old.items ++ spaced tail.now) }
    ensures front { take (length out.old.items) out.new.items ≡ out.old.items }
{
    if tail.is_empty() {
        return Ok(());
    }
    put(out, b" ")?;
    put(out, tail)
}

/// Appends a device.
fn put_device(out: &mut Vec<u8>, nets: &[&Name], back: &Back<'_>) -> Result<(), Memory>
    ensures ok { OnOk result (out.new.items
        ≡ out.old.items ++ device_line (map (λ n. n.now) nets.now) back.now) }
    ensures front { take (length out.old.items) out.new.items ≡ out.old.items }
{
    put(out, back.name().as_bytes())?;
    put_nodes(out, nets, back.nets())?;
    put_model(out, back.model())?;
    put_tail(out, back.tail().as_bytes())?;
    put(out, b"\n")?;
    Ok(())
}

/// Appends the devices.
fn put_devices(out: &mut Vec<u8>, nets: &[&Name], backs: &[Back<'_>]) -> Result<(), Memory>
    ensures ok { OnOk result (out.new.items
        ≡ out.old.items ++ device_lines (map (λ n. n.now) nets.now) backs.now) }
    ensures front { take (length out.old.items) out.new.items ≡ out.old.items }
{
    for back in backs {
        put_device(out, nets, back)?;
    }
    Ok(())
}

/// Appends the devices, between the cards of the top subcircuit if there is one.
fn put_around(
    out: &mut Vec<u8>,
    top: Option<&Head>,
    nets: &[&Name],
    backs: &[Back<'_>],
) -> Result<(), Memory>
    ensures ok { OnOk result (out.new.items ≡ out.old.items
        ++ around (option_copied top.entry) (device_lines (map (λ n. n.now) nets.now) backs.now)) }
    ensures front { take (length out.old.items) out.new.items ≡ out.old.items }
{
    match top {
        None => put_devices(out, nets, backs),
        Some(head) => {
            put_head(out, head)?;
            put_devices(out, nets, backs)?;
            put_ends(out, head.name())
        }
    }
}

/// Appends a flat deck with these devices, each net under the name of its number. What stood before stays, also where no
/// memory is found.
pub fn put_deck(
    out: &mut Vec<u8>,
    flat: &Flat,
    nets: &[&Name],
    backs: &[Back<'_>],
) -> Result<(), Memory>
    ensures ok { OnOk result (out.new.items ≡ out.old.items
        ++ flat_text (flat_with flat.now (map (λ n. n.now) nets.now) backs.now)) }
    ensures front { take (length out.old.items) out.new.items ≡ out.old.items }
{
    put_text(out, flat.title())?;
    put_globals(out, flat.rails())?;
    put_models(out, flat.models())?;
    put_around(out, flat.top(), nets, backs)?;
    put_all_passed(out, flat.passed())?;
    put_text(out, b".end")?;
    Ok(())
}
