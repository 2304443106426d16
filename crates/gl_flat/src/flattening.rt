ghost use Rattle.std.specs.Prelude.{◌≡◌, ◌<◌, ◌^◌, Some, None, Ok, length, map, flat_map, OnOk, IfOk, IfErr};
ghost use Rattle.std.specs.Option.{option_copied};
ghost use Rattle.indexmap.specs.IndexMap.{keys, values};
ghost use Rattle.gl_text.specs.Decks.{once};
ghost use Rattle.gl_text.specs.Flattening as flat;
ghost use Rattle.gl_text.specs.Flattening.{bearers, flat_card, flat_text, top_ports, long_in, excess_in, text_fault};
ghost use Rattle.gl_flat.specs.PlainFlats.{plain};
ghost use Rattle.gl_printed.specs.FlatDecks.{AreRails};
ghost use Rattle.gl_printed.specs.ReadDecks.{AllDiffer, IsReadDeck, body_name};
ghost use Rattle.gl_deck.specs.Bodies.{bodies_value};
ghost use Rattle.gl_size.specs.Excesses.{fault_of_excess};
ghost use Rattle.gl_flat.specs.LongNames.{AreCountable};
ghost use Rattle.gl_base.specs.BaseCircuit.{nets_of};
ghost use Rattle.gl_flat.specs.Kept.{kept_of};
ghost use Rattle.gl_flat.specs.Refusals.{Gives, GivesText, IsFaultIn, Refuses, RefusesFlat, fault_of};
ghost use Rattle.gl_flat.specs.SeenNames.{PlainDiffer};
ghost use Rattle.gl_flat.specs.Steps.{IsChoice, devices_in, flat_by, flat_or_fault_by, flat_or_fault_of_cards, length_fault};
ghost use Rattle.gl_flat.specs.TopNames.{clash_with_top};
ghost use Rattle.gl_flat.specs.Ways.{IsScene};

use crate::chosen::{Chosen, choose};
use crate::clash::refuse_clash;
use crate::copy::{model_copies, name_copies, text_copies, top_copy};
use crate::device::FlatDevice;
use crate::expand::expand;
use crate::frame::Frame;
use crate::length::text_length;
use crate::long::first_long;
use crate::names::Names;
use crate::number::number_devices;
use crate::scene::Scene;
use crate::seen::Seen;
use crate::tables::Tables;
use crate::text::put_flat;
use crate::{Body, Deck, Flat, FlatFault, Head, KeptDevice, Name, Sub, Subs, What};
use gl_size::{Excess, first_excess};
use std::alloc::{AllocError, Global};

/// The most X cards in a chain.
const DEPTH: usize = 32;

/// The most bytes of a flat deck's text.
const TEXT: usize = 67_108_864;

/// The refusal of a deck that expands to too much.
fn excess_fault(excess: Excess) -> FlatFault
    ensures fault { fault_of result ≡ Some (fault_of_excess excess) }
{
    match excess {
        Excess::TooDeep => FlatFault::TooDeep { number: 33 },
        Excess::TooManyCards => FlatFault::TooMany {
            what: What::Cards,
            number: 400_001,
        },
        Excess::TooManyDevices => FlatFault::TooMany {
            what: What::Devices,
            number: 200_001,
        },
    }
}

/// Refuses cards that expand too deep, or to too many cards or devices.
fn refuse_excess(alloc: Global, subs: &Subs, cards: &[Body]) -> Result<(), FlatFault>
    ensures ok { OnOk result (excess_in subs.now (bodies_value cards.now) ≡ None) }
    ensures refused { IfErr result (IsFaultIn (excess_in subs.now (bodies_value cards.now))) }
{
    match first_excess(alloc, subs, cards)? {
        Some(excess) => Err(excess_fault(excess)),
        None => Ok(()),
    }
}

/// The refusal of a text that is too long.
fn text_refusal(frame: &Frame<'_>, devices: &[FlatDevice<'_>]) -> Option<FlatFault>
    ensures too_long { Refuses result (text_fault (flat_by frame.now devices.now)) }
{
    if text_length(frame, devices) > TEXT {
        return Some(FlatFault::LongText { number: 67_108_865 });
    }
    None
}

/// The refusal of the first flat name that is too long.
fn name_refusal(devices: &[FlatDevice<'_>]) -> Option<FlatFault>
    requires short { AreCountable (flat_map bearers devices.now) }
    ensures too_long { Refuses result (long_in (flat_map bearers devices.now)) }
{
    match first_long(devices) {
        Some(len) => Some(FlatFault::LongFlatName { len }),
        None => None,
    }
}

/// The refusal of devices whose flat text or a flat name is too long.
fn length_refusal(frame: &Frame<'_>, devices: &[FlatDevice<'_>]) -> Option<FlatFault>
    ensures too_long { Refuses result (length_fault (flat_by frame.now devices.now)) }
{
    match text_refusal(frame, devices) {
        Some(fault) => Some(fault),
        None => name_refusal(devices),
    }
}

/// The ports of the top.
fn ports_of<'a>(head: Option<&'a Head>) -> &'a [Name]
    ensures ports { result.now ≡ top_ports (option_copied head.entry) }
{
    match head {
        Some(head) => head.ports(),
        None => &[],
    }
}

/// The nets of devices, and the devices with their nets by number; or the first clash of names.
fn kept_parts<'a>(
    alloc: Global,
    scene: &Scene<'a>,
    devices: &[FlatDevice<'a>],
) -> Result<(Names, Vec<KeptDevice>), FlatFault>
    requires few { length (nets_of (map flat_card devices.now)) < 2 ^ 32 }
    requires plain { PlainDiffer devices.now }
    ensures fits { OnOk result (clash_with_top scene.now devices.now ≡ None) }
    ensures nets { IfOk result (λ parts. parts.0 ≡ nets_of (map flat_card devices.now)) }
    ensures devices { IfOk result (λ parts. parts.1.items
        ≡ kept_of (map flat_card devices.now)) }
    ensures refused { IfErr result (IsFaultIn (clash_with_top scene.now devices.now)) }
{
    let mut seen = Seen::of_scene(alloc, scene);
    let numbered = number_devices(alloc, &mut seen, devices)?;
    Ok((seen.into_names(alloc)?, numbered))
}

/// The flat deck of devices, with their nets by number, or the first clash of names.
fn flat_of<'a>(
    alloc: Global,
    scene: &Scene<'a>,
    frame: &Frame<'_>,
    devices: &[FlatDevice<'a>],
) -> Result<Flat, FlatFault>
    requires few { length (nets_of (map flat_card devices.now)) < 2 ^ 32 }
    requires plain { PlainDiffer devices.now }
    ensures fits { OnOk result (clash_with_top scene.now devices.now ≡ None) }
    ensures flat { IfOk result (λ f. f ≡ plain (flat_by frame.now devices.now)) }
    ensures refused { IfErr result (IsFaultIn (clash_with_top scene.now devices.now)) }
{
    let (nets, devices) = kept_parts(alloc, scene, devices)?;
    let deck = frame.deck;
    Ok(Flat {
        title: Vec::from_slice(alloc, deck.title())?,
        rails: name_copies(alloc, frame.rails)?,
        models: model_copies(alloc, deck.models())?,
        top: top_copy(alloc, frame.head)?,
        nets,
        devices,
        passed: text_copies(alloc, deck.passed())?,
    })
}

/// The text of the flat deck of devices, or the first clash of names.
fn text_of<'a>(
    alloc: Global,
    scene: &Scene<'a>,
    frame: &Frame<'_>,
    devices: &[FlatDevice<'a>],
) -> Result<Vec<u8>, FlatFault>
    requires plain { PlainDiffer devices.now }
    ensures fits { OnOk result (clash_with_top scene.now devices.now ≡ None) }
    ensures text { IfOk result (λ text. text.items ≡ flat_text (flat_by frame.now devices.now)) }
    ensures refused { IfErr result (IsFaultIn (clash_with_top scene.now devices.now)) }
{
    refuse_clash(alloc, scene, devices)?;
    let mut text = Vec::new(alloc);
    put_flat(&mut text, frame, devices)?;
    Ok(text)
}

/// The flat deck of devices, or its first refusal.
fn flat_of_devices<'a>(
    alloc: Global,
    scene: &Scene<'a>,
    frame: &Frame<'_>,
    devices: &[FlatDevice<'a>],
) -> Result<Flat, FlatFault>
    requires rails { scene.now.rails.now.keys ≡ once frame.now.rails.now }
    requires own { scene.now.own.now.keys ≡ once (top_ports (option_copied frame.now.head)) }
    requires plain { PlainDiffer devices.now }
    ensures gives { Gives result (flat_or_fault_by frame.now devices.now) }
{
    if let Some(fault) = length_refusal(frame, devices) {
        return Err(fault);
    }
    flat_of(alloc, scene, frame, devices)
}

/// The flat text of devices, or the first refusal.
fn text_of_devices<'a>(
    alloc: Global,
    scene: &Scene<'a>,
    frame: &Frame<'_>,
    devices: &[FlatDevice<'a>],
) -> Result<Vec<u8>, FlatFault>
    requires rails { scene.now.rails.now.keys ≡ once frame.now.rails.now }
    requires own { scene.now.own.now.keys ≡ once (top_ports (option_copied frame.now.head)) }
    requires plain { PlainDiffer devices.now }
    ensures gives { GivesText result (flat_or_fault_by frame.now devices.now) }
{
    if let Some(fault) = length_refusal(frame, devices) {
        return Err(fault);
    }
    text_of(alloc, scene, frame, devices)
}

/// The devices of cards.
pub fn expanded<'a>(
    alloc: Global,
    scene: &Scene<'a>,
    cards: &'a [Body],
) -> Result<Vec<FlatDevice<'a>>, AllocError>
    requires scene { IsScene scene.now }
    ensures devices { IfOk result (λ ds. ds.items ≡ devices_in scene.now cards.now) }
{
    let mut devices = Vec::new(alloc);
    expand(alloc, scene, DEPTH, &[], cards, &mut devices)?;
    Ok(devices)
}

/// The flat deck of cards, or its first refusal.
fn flat_of_cards<'a>(
    alloc: Global,
    scene: &Scene<'a>,
    frame: &Frame<'_>,
    cards: &'a [Body],
) -> Result<Flat, FlatFault>
    requires scene { IsScene scene.now }
    requires rails { scene.now.rails.now.keys ≡ once frame.now.rails.now }
    requires own { scene.now.own.now.keys ≡ once (top_ports (option_copied frame.now.head)) }
    requires names { AllDiffer (map body_name (bodies_value cards.now)) }
    ensures gives { Gives result (flat_or_fault_by frame.now (devices_in scene.now cards.now)) }
{
    let devices = expanded(alloc, scene, cards)?;
    flat_of_devices(alloc, scene, frame, &devices)
}

/// The flat text of cards, or the first refusal.
fn text_of_cards<'a>(
    alloc: Global,
    scene: &Scene<'a>,
    frame: &Frame<'_>,
    cards: &'a [Body],
) -> Result<Vec<u8>, FlatFault>
    requires scene { IsScene scene.now }
    requires rails { scene.now.rails.now.keys ≡ once frame.now.rails.now }
    requires own { scene.now.own.now.keys ≡ once (top_ports (option_copied frame.now.head)) }
    requires names { AllDiffer (map body_name (bodies_value cards.now)) }
    ensures gives { GivesText result (flat_or_fault_by frame.now (devices_in scene.now cards.now)) }
{
    let devices = expanded(alloc, scene, cards)?;
    text_of_devices(alloc, scene, frame, &devices)
}

/// The flat deck of what is chosen, or its first refusal.
fn flat_of_chosen(alloc: Global, frame: &Frame<'_>, cards: &[Body]) -> Result<Flat, FlatFault>
    requires sound { IsReadDeck frame.now.deck.now }
    requires rails { AreRails frame.now.rails.now }
    requires names { AllDiffer (map body_name (bodies_value cards.now)) }
    ensures gives { Gives result (flat_or_fault_of_cards frame.now (bodies_value cards.now)) }
{
    let subs = frame.deck.subs();
    let tables = Tables::of(alloc, subs, frame.rails, ports_of(frame.head))?;
    let scene = tables.scene(subs);
    flat_of_cards(alloc, &scene, frame, cards)
}

/// The flat text of what is chosen, or the first refusal.
fn text_of_chosen(alloc: Global, frame: &Frame<'_>, cards: &[Body]) -> Result<Vec<u8>, FlatFault>
    requires sound { IsReadDeck frame.now.deck.now }
    requires rails { AreRails frame.now.rails.now }
    requires names { AllDiffer (map body_name (bodies_value cards.now)) }
    ensures gives { GivesText result (flat_or_fault_of_cards frame.now (bodies_value cards.now)) }
{
    let subs = frame.deck.subs();
    let tables = Tables::of(alloc, subs, frame.rails, ports_of(frame.head))?;
    let scene = tables.scene(subs);
    text_of_cards(alloc, &scene, frame, cards)
}

/// The cards that are flattened, where they expand to no more than may be; or the refusal.
fn chosen_cards<'a>(
    alloc: Global,
    deck: &'a Deck,
    top: Option<&Name>,
) -> Result<Chosen<'a>, FlatFault>
    ensures chosen { IfOk result (IsChoice deck.now (option_copied top.entry)) }
    ensures fits { IfOk result (λ c. excess_in deck.now.subs (bodies_value c.cards.now) ≡ None) }
    ensures refused { IfErr result (RefusesFlat deck.now (option_copied top.entry)) }
{
    let chosen = choose(alloc, deck, top)?;
    refuse_excess(alloc, deck.subs(), chosen.cards)?;
    Ok(chosen)
}

/// The flat deck: every device with its flat name and its nets, or the first refusal. The rails are the names that are global
/// but `0`; with `top` the cards are those of the subcircuit of this name, taken as it is given, and its ports are the top's.
pub fn flatten(
    alloc: Global,
    deck: &Deck,
    rails: &[Name],
    top: Option<&Name>,
) -> Result<Flat, FlatFault>
    requires sound { IsReadDeck deck.now }
    requires rails { AreRails rails.now }
    ensures gives { Gives result (flat.flatten deck.now rails.now (option_copied top.entry)) }
{
    let chosen = chosen_cards(alloc, deck, top)?;
    flat_of_chosen(
        alloc,
        &Frame {
            deck,
            rails,
            head: chosen.head,
        },
        chosen.cards,
    )
}

/// The text of the flat deck, as `Flat::print` of what `flatten` gives would append it, or the first refusal. No flat deck is
/// made on the way: no card is copied, and no net is numbered.
pub fn flattened_text(
    alloc: Global,
    deck: &Deck,
    rails: &[Name],
    top: Option<&Name>,
) -> Result<Vec<u8>, FlatFault>
    requires sound { IsReadDeck deck.now }
    requires rails { AreRails rails.now }
    ensures gives { GivesText result (flat.flatten deck.now rails.now (option_copied top.entry)) }
{
    let chosen = chosen_cards(alloc, deck, top)?;
    text_of_chosen(
        alloc,
        &Frame {
            deck,
            rails,
            head: chosen.head,
        },
        chosen.cards,
    )
}
