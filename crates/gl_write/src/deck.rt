//! The text of the lifted deck, section by section.
ghost use Rattle.std.specs.Prelude.{◌≡◌, ◌++◌, Some, OnOk, IfErr};
ghost use Rattle.gl_text.specs.Flattening.{around};
ghost use Rattle.gl_base.specs.BaseCircuit.{Source};
ghost use Rattle.gl_limit.specs.Bounds.{Tells};
ghost use Rattle.gl_write.specs.Texts.{last_text, whole_text};

use crate::device::{Scene, put_slots};
use crate::variant::Variant;
use crate::variant_card::put_variants;
use gl_deck::{Head, put_all_passed, put_ends, put_globals, put_head, put_models, put_text};
use gl_history::Lifted;
use gl_limit::{WriteFault, fronts_are_shorter};

/// Appends the cards of the last circuit.
fn put_last(out: &mut Vec<u8>, scene: &Scene<'_>, lift: &Lifted) -> Result<(), WriteFault>
    ensures ok { OnOk result (out.new.items ≡ out.old.items ++ last_text scene.now lift.now) }
    ensures fault { IfErr result (λ fault. Tells fault
        (out.old.items ++ last_text scene.now lift.now)) }
{
    put_slots(
        out,
        scene,
        lift.last.device_list(),
        lift.last_origins.as_slice(),
    )
}

/// Appends the cards of the last circuit inside the top subcircuit.
fn put_inside(
    out: &mut Vec<u8>,
    scene: &Scene<'_>,
    head: &Head,
    lift: &Lifted,
) -> Result<(), WriteFault>
    ensures ok { OnOk result (out.new.items
        ≡ out.old.items ++ around (Some head.now) (last_text scene.now lift.now)) }
    ensures fault { IfErr result (λ fault. Tells fault
        (out.old.items ++ around (Some head.now) (last_text scene.now lift.now))) }
{
    fronts_are_shorter();
    put_head(out, head)?;
    put_last(out, scene, lift)?;
    put_ends(out, head.name())?;
    Ok(())
}

/// Appends the cards of the last circuit, inside the top subcircuit if there is one.
fn put_top(out: &mut Vec<u8>, scene: &Scene<'_>, lift: &Lifted) -> Result<(), WriteFault>
    ensures ok { OnOk result (out.new.items
        ≡ out.old.items ++ around scene.now.flat.now.top (last_text scene.now lift.now)) }
    ensures fault { IfErr result (λ fault. Tells fault
        (out.old.items ++ around scene.now.flat.now.top (last_text scene.now lift.now))) }
{
    match scene.flat.top() {
        None => put_last(out, scene, lift),
        Some(head) => put_inside(out, scene, head, lift),
    }
}

/// Appends the text of the lifted deck, variants by their names, until the text is longer than a file may be.
pub fn put_deck(
    out: &mut Vec<u8>,
    scene: &Scene<'_>,
    variants: &[Variant<'_>],
    lift: &Lifted,
) -> Result<(), WriteFault>
    ensures ok { (s : Source) → OnOk result (out.new.items
        ≡ out.old.items ++ whole_text s scene.now variants.now lift.now) }
    ensures fault { (s : Source) → IfErr result (λ fault. Tells fault
        (out.old.items ++ whole_text s scene.now variants.now lift.now)) }
{
    fronts_are_shorter();
    let flat = scene.flat;
    put_text(out, flat.title())?;
    put_globals(out, flat.rails())?;
    put_models(out, flat.models())?;
    put_variants(out, scene.names, variants)?;
    put_top(out, scene, lift)?;
    put_all_passed(out, flat.passed())?;
    put_text(out, b".end")?;
    Ok(())
}
