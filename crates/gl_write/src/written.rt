//! The lifted deck of a run, written.
ghost use Rattle.std.specs.Prelude.{◌≡◌, ◌≤◌, None, length, map, option_map, IfOk, OnOk, IfErr};
ghost use Rattle.std.specs.Option.{option_copied};
ghost use Rattle.gl_text.specs.LogicalLines.{NAME, FILE};
ghost use Rattle.gl_text.specs.Decks.{Sub, deck_text};
ghost use Rattle.gl_base.specs.BaseCircuit.{Source};
ghost use Rattle.gl_lifting.specs.Runs.{run_of};
ghost use Rattle.gl_lifting.specs.LiftedDecks.{lifted_deck, top_name};
ghost use Rattle.gl_lifting.specs.Counting.{has_longer};
ghost use Rattle.gl_limit.specs.Bounds.{Tells, text_if_short};
ghost use Rattle.gl_limit.specs.declared.fault.WriteFault.TheVariants.{TooLong};
ghost use Rattle.gl_found.specs.Founds.{IsRunOf};
ghost use Rattle.gl_write.specs.Texts.{whole_text};

use crate::deck::put_deck;
use crate::device::Scene;
use crate::long_names::has_long_name;
use crate::naming::name_variants;
use crate::variant::Variant;
use crate::variants::Variants;
use gl_cells::Library;
use gl_flat::{Flat, Name};
use gl_found::gather_found;
use gl_history::Lifted;
use gl_limit::{WriteFault, check_length};
use gl_match::Memory;
use std::alloc::Global;
use std::marker::Model;

/// The lifted deck, written.
#[derive(Drop)]
pub struct Written {
    /// Whether a name of one of its subcircuits has more than 1,024 bytes.
    pub has_long_name: bool,
    /// Its text; none where it is longer than a file may be.
    pub text: Option<Vec<u8>>,
}

impl Model for Written {
    ghost use Rattle.std.specs.Prelude.{option_map};
    ghost use Rattle.gl_write.specs.Texts.{Written as WrittenValue};

    ghost Value = { WrittenValue };

    ghost view = { λ w. record { has_long_name = w.has_long_name; text = option_map (λ t. t.items) w.text } };
}

/// The name of the top, if there is one.
fn name_of_top(flat: &Flat) -> Option<&Name>
    ensures name { option_copied result ≡ top_name flat.now }
{
    flat.top().map(|head| head.name())
}

/// The text of the lifted deck, unless it is longer than a file may be.
fn short_text(
    alloc: Global,
    scene: &Scene<'_>,
    variants: &[Variant<'_>],
    lift: &Lifted,
) -> Result<Vec<u8>, WriteFault>
    ensures text { (s : Source) → IfOk result (λ text. text.items
        ≡ whole_text s scene.now variants.now lift.now) }
    ensures short { IfOk result (λ text. length text.items ≤ FILE) }
    ensures fault { (s : Source) → IfErr result (λ fault. Tells fault
        (whole_text s scene.now variants.now lift.now)) }
{
    let mut text = Vec::new(alloc);
    put_deck(&mut text, scene, variants, lift)?;
    check_length(&text)?;
    Ok(text)
}

/// No text, where it is too long.
fn none_if_long(fault: WriteFault) -> Result<Option<Vec<u8>>, Memory>
    ensures none { IfOk result (λ text. text ≡ None) }
    ensures long { OnOk result (fault ≡ TooLong) }
{
    match fault {
        WriteFault::TooLong => Ok(None),
        WriteFault::Memory => Err(Memory),
    }
}

/// The text of the lifted deck; none where it is longer than a file may be.
fn text_of(
    alloc: Global,
    scene: &Scene<'_>,
    variants: &[Variant<'_>],
    lift: &Lifted,
) -> Result<Option<Vec<u8>>, Memory>
    ensures text { (s : Source) → IfOk result (λ text. option_map (λ t. t.items) text
        ≡ text_if_short (whole_text s scene.now variants.now lift.now)) }
{
    match short_text(alloc, scene, variants, lift) {
        Ok(text) => Ok(Some(text)),
        Err(fault) => none_if_long(fault),
    }
}

/// The lifted deck of a run, written: title, rails, models and passed cards of the flat deck, the variants of the chosen
/// instances as subcircuits, and the devices of the last circuit, where a composite is a call of its variant.
///
/// It takes time of the devices and of the cards of chosen instances: variants and names are looked up in tables. A text that is
/// longer than a file may be is written no further than a card or a subcircuit past that length, and is not kept.
pub fn lifted_text(
    alloc: Global,
    flat: &Flat,
    library: &Library,
    lift: &Lifted,
    stem: &[u8],
) -> Result<Written, Memory>
    requires run { IsRunOf flat.now library.now lift.now }
    ensures long { IfOk result (λ w. (r : IsRunOf flat.now library.now lift.now) → w.has_long_name
        ≡ has_longer NAME (map (λ (s : Sub). s.head.name) (lifted_deck stem.now flat.now
        (run_of flat.now library.now r.keep).source r.shown.history).subs)) }
    ensures text { IfOk result (λ w. (r : IsRunOf flat.now library.now lift.now) → w.text
        ≡ text_if_short (deck_text (lifted_deck stem.now flat.now
        (run_of flat.now library.now r.keep).source r.shown.history))) }
{
    let found = gather_found(alloc, lift)?;
    let variants = Variants::of(alloc, flat, library.deck().subs().as_slice(), &found)?;
    let top = name_of_top(flat);
    let names = name_variants(alloc, top, variants.different())?;
    let scene = Scene {
        flat,
        stem,
        names: &names,
        numbers: variants.numbers(),
    };
    Ok(Written {
        has_long_name: has_long_name(&names, top),
        text: text_of(alloc, &scene, variants.different(), lift)?,
    })
}
