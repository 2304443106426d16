ghost use Rattle.std.specs.Prelude.{◌≡◌, ◌∷◌, [], length, map, flat_map, Some};
ghost use Rattle.std.specs.Option.{option_copied};
ghost use Rattle.gl_text.specs.Cards as cards;
ghost use Rattle.gl_text.specs.Cards.{spaced};
ghost use Rattle.gl_text.specs.Decks.{line_of, global_line, model_line, passed_line};
ghost use Rattle.gl_text.specs.Flattening as flat;
ghost use Rattle.gl_text.specs.Flattening.{path_text, flat_text, flat_line, top_net};
ghost use Rattle.gl_card.specs.Lines.{spaced_all};
ghost use Rattle.gl_flat.specs.Lengths.{after};
ghost use Rattle.gl_flat.specs.Lines.{devices_text, model_text, nets_text};
ghost use Rattle.gl_flat.specs.LongNames.{IsCountable};
ghost use Rattle.gl_flat.specs.Steps.{flat_by};

use crate::device::FlatDevice;
use crate::frame::Frame;
use crate::net::Net;
use crate::{Head, ModelCard, Name};

/// Adds a text's length. A count that would be too large stays at the largest.
fn add(total: usize, text: &[u8]) -> usize
    ensures total { result ≡ after total text.now }
{
    total.saturating_add(text.len())
}

/// Adds the length of a space and a word.
fn add_word(total: usize, word: &[u8]) -> usize
    ensures total { result ≡ after total (32 ∷ word.now) }
{
    add(add(total, b" "), word)
}

/// Adds the length of an X card's part of a path.
fn add_step(total: usize, name: &Name) -> usize
    ensures total { result ≡ after total (path_text (name.now ∷ [])) }
{
    add(add(total, name.as_bytes()), b".")
}

/// Adds the length of a path.
fn add_path(total: usize, path: &[&Name]) -> usize
    ensures total { result ≡ after total (path_text (map (λ n. n.now) path.now)) }
{
    let mut sum = total;
    for name in path {
        sum = add_step(sum, name);
    }
    sum
}

/// Adds the length of a net's flat name.
fn add_net(total: usize, net: &Net<'_>) -> usize
    ensures total { result ≡ after total (flat.net_name net.now) }
{
    add(add_path(total, &net.path), net.name.as_bytes())
}

/// The length of a net's flat name.
pub fn net_length(net: &Net<'_>) -> usize
    requires short { IsCountable (flat.net_name net.now) }
    ensures length { result ≡ length (flat.net_name net.now) }
{
    add_net(0, net)
}

/// The length of a device's flat name.
pub fn device_length(device: &FlatDevice<'_>) -> usize
    requires short { IsCountable (flat.device_name device.now) }
    ensures length { result ≡ length (flat.device_name device.now) }
{
    add_own(0, device)
}

/// Adds the length of a device's flat name.
fn add_own(total: usize, device: &FlatDevice<'_>) -> usize
    ensures total { result ≡ after total (flat.device_name device.now) }
{
    let name = device.card.name().as_bytes();
    if device.path.is_empty() {
        return add(total, name);
    }
    add(add_path(add(total, b"m."), &device.path), name)
}

/// Adds the length of a space and a net's flat name.
fn add_node(total: usize, net: &Net<'_>) -> usize
    ensures total { result ≡ after total (spaced_all (flat.net_name net.now ∷ [])) }
{
    add_net(add(total, b" "), net)
}

/// Adds the lengths of spaces and nets' flat names.
fn add_nodes(total: usize, nets: &[Net<'_>]) -> usize
    ensures total { result ≡ after total (nets_text nets.now) }
{
    let mut sum = total;
    for net in nets {
        sum = add_node(sum, net);
    }
    sum
}

/// Adds the lengths of spaces and names of nets of the top.
fn add_top_nodes(total: usize, names: &[Name]) -> usize
    ensures total { result ≡ after total (nets_text (map top_net names.now)) }
{
    let mut sum = total;
    for name in names {
        sum = add_word(sum, name.as_bytes());
    }
    sum
}

/// Adds the lengths of spaces and a device's nets.
fn add_places(total: usize, device: &FlatDevice<'_>) -> usize
    ensures total { result ≡ after total (nets_text device.now.nets) }
{
    match &device.nets {
        None => add_top_nodes(total, device.card.nodes()),
        Some(nets) => add_nodes(total, nets),
    }
}

/// Adds the length of a space and a word, if there is a word.
fn add_option(total: usize, word: Option<&Name>) -> usize
    ensures total { result ≡ after total (model_text (option_copied word.entry)) }
{
    match word {
        Some(word) => add_word(total, word.as_bytes()),
        None => total,
    }
}

/// Adds the length of a space and a tail, if it is not empty.
fn add_tail(total: usize, tail: &[u8]) -> usize
    ensures total { result ≡ after total (spaced tail.now) }
{
    if tail.is_empty() {
        return total;
    }
    add_word(total, tail)
}

/// Adds the length of a device's line.
fn add_device(total: usize, device: &FlatDevice<'_>) -> usize
    ensures total { result ≡ after total (flat_line device.now) }
{
    let named = add_own(total, device);
    let placed = add_places(named, device);
    let modelled = add_option(placed, device.card.model());
    let tailed = add_tail(modelled, device.card.tail().as_bytes());
    add(tailed, b"\n")
}

/// Adds the lengths of devices' lines.
fn add_devices(total: usize, devices: &[FlatDevice<'_>]) -> usize
    ensures total { result ≡ after total (flat_map flat_line devices.now) }
{
    let mut sum = total;
    for device in devices {
        sum = add_device(sum, device);
    }
    sum
}

/// Adds the length of a rail's card.
fn add_rail(total: usize, name: &Name) -> usize
    ensures total { result ≡ after total (global_line name.now) }
{
    add(add(add(total, b".global "), name.as_bytes()), b"\n")
}

/// Adds the lengths of the rails' cards.
fn add_rails(total: usize, names: &[Name]) -> usize
    ensures total { result ≡ after total (flat_map global_line names.now) }
{
    let mut sum = total;
    for name in names {
        sum = add_rail(sum, name);
    }
    sum
}

/// Adds the length of a model's card.
fn add_model(total: usize, model: &ModelCard) -> usize
    ensures total { result ≡ after total (model_line model.now) }
{
    let named = add_word(add(total, b".model"), model.name().as_bytes());
    let typed = add_word(named, model.word().as_bytes());
    add(add_tail(typed, model.tail().as_bytes()), b"\n")
}

/// Adds the lengths of models' cards.
fn add_models(total: usize, models: &[ModelCard]) -> usize
    ensures total { result ≡ after total (flat_map model_line models.now) }
{
    let mut sum = total;
    for model in models {
        sum = add_model(sum, model);
    }
    sum
}

/// Adds the lengths of spaces and words.
fn add_words(total: usize, words: &[Name]) -> usize
    ensures total { result ≡ after total (spaced_all words.now) }
{
    let mut sum = total;
    for word in words {
        sum = add_word(sum, word.as_bytes());
    }
    sum
}

/// Adds the length of the card that opens the top subcircuit.
fn add_head(total: usize, head: &Head) -> usize
    ensures total { result ≡ after total (line_of (cards.subckt head.now)) }
{
    let named = add_word(add(total, b".subckt"), head.name().as_bytes());
    add(add_words(named, head.ports()), b"\n")
}

/// Adds the length of the card that closes the top subcircuit.
fn add_ends(total: usize, name: &Name) -> usize
    ensures total { result ≡ after total (line_of (cards.ends (Some name.now))) }
{
    add(add(add(total, b".ends "), name.as_bytes()), b"\n")
}

/// Adds the lengths of devices' lines, between the cards of the top subcircuit if there is one.
fn add_around(total: usize, head: Option<&Head>, devices: &[FlatDevice<'_>]) -> usize
    ensures total { result ≡ after total (devices_text (option_copied head.entry) devices.now) }
{
    match head {
        None => add_devices(total, devices),
        Some(head) => {
            let opened = add_head(total, head);
            let filled = add_devices(opened, devices);
            add_ends(filled, head.name())
        }
    }
}

/// Adds the length of a text's line.
fn add_text(total: usize, text: &[u8]) -> usize
    ensures total { result ≡ after total (passed_line text.now) }
{
    add(add(total, text), b"\n")
}

/// Adds the lengths of the lines of cards that are carried along.
fn add_passed(total: usize, texts: &[Vec<u8>]) -> usize
    ensures total { result ≡ after total (flat_map passed_line (map (λ t. t.items) texts.now)) }
{
    let mut sum = total;
    for text in texts {
        sum = add_text(sum, text);
    }
    sum
}

/// The length of a flat deck's text, or the largest count.
pub fn text_length(frame: &Frame<'_>, devices: &[FlatDevice<'_>]) -> usize
    ensures length { result ≡ after 0 (flat_text (flat_by frame.now devices.now)) }
{
    let deck = frame.deck;
    let titled = add_text(0, deck.title());
    let railed = add_rails(titled, frame.rails);
    let modelled = add_models(railed, deck.models());
    let filled = add_around(modelled, frame.head, devices);
    let passed = add_passed(filled, deck.passed());
    add_text(passed, b".end")
}
