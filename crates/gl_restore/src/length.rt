//! Lengths of the lines of devices, counted and not built.
ghost use Rattle.std.specs.Prelude.{◌≡◌, ◌∷◌, map};
ghost use Rattle.std.specs.Option.{option_copied};
ghost use Rattle.gl_text.specs.Cards.{spaced};
ghost use Rattle.gl_flat.specs.Kept.{device_line, device_lines, numbers_text};
ghost use Rattle.gl_flat.specs.Lengths.{after};
ghost use Rattle.gl_flat.specs.Lines.{model_text};

use crate::Name;
use crate::back::Back;
use crate::print::net_name;

/// Adds a text's length. A count that would be too large stays at the largest.
fn add(total: usize, text: &[u8]) -> usize
    ensures total { result ≡ after total text.now }
{
    total.saturating_add(text.len())
}

/// Adds the length of a space and a word.
fn add_word(total: usize, word: &[u8]) -> usize
    ensures total { result ≡ after total (32 ∷ word.now) }
{
    add(add(total, b" "), word)
}

/// Adds the lengths of spaces and nets' names.
fn add_nodes(total: usize, nets: &[&Name], nodes: &[u32]) -> usize
    ensures total { result ≡ after total (numbers_text (map (λ n. n.now) nets.now) nodes.now) }
{
    let mut sum = total;
    for node in nodes {
        sum = add_word(sum, net_name(nets, *node));
    }
    sum
}

/// Adds the length of a space and the model's name, if there is one.
fn add_model(total: usize, model: Option<&Name>) -> usize
    ensures total { result ≡ after total (model_text (option_copied model.entry)) }
{
    match model {
        Some(name) => add_word(total, name.as_bytes()),
        None => total,
    }
}

/// Adds the length of a space and a tail, if it is not empty.
fn add_tail(total: usize, tail: &[u8]) -> usize
    ensures total { result ≡ after total (spaced tail.now) }
{
    if tail.is_empty() {
        return total;
    }
    add_word(total, tail)
}

/// Adds the length of a device's line.
fn add_device(total: usize, nets: &[&Name], back: &Back<'_>) -> usize
    ensures total { result ≡ after total (device_line (map (λ n. n.now) nets.now) back.now) }
{
    let named = add(total, back.name().as_bytes());
    let placed = add_nodes(named, nets, back.nets());
    let modelled = add_model(placed, back.model());
    let tailed = add_tail(modelled, back.tail().as_bytes());
    add(tailed, b"\n")
}

/// Adds the lengths of devices' lines.
pub fn add_devices(total: usize, nets: &[&Name], backs: &[Back<'_>]) -> usize
    ensures total { result ≡ after total (device_lines (map (λ n. n.now) nets.now) backs.now) }
{
    let mut sum = total;
    for back in backs {
        sum = add_device(sum, nets, back);
    }
    sum
}
