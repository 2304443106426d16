//! What is made of a lifted deck and of its map of names.
ghost use Rattle.std.specs.Prelude.{◌≡◌, ◌≤◌, ◌+◌, length, Ok, IfOk, IfErr};
ghost use Rattle.std.specs.Option.{option_copied};
ghost use Rattle.gl_text.specs.Flattening as flattening;
ghost use Rattle.gl_text.specs.LogicalLines.{FILE};
ghost use Rattle.gl_printed.specs.ReadDecks.{IsReadDeck};
ghost use Rattle.gl_flat.specs.Refusals as flats;
ghost use Rattle.gl_lifting.specs.MapReading.{read_map};
ghost use Rattle.gl_job.specs.Points.{Refuses};
ghost use Rattle.gl_deck.specs.Texts.{fault_text};
ghost use Rattle.gl_map.specs.Texts as maps;
ghost use Rattle.gl_run.specs.Endings.{end_of};
ghost use Rattle.gl_run.specs.Restoring.{IsPlainOf, IsRestoredText, IsNotRestored};

use crate::ending::Ending;
use crate::inputs::deck_of;
use gl_deck::Deck;
use gl_flat::{Flat, FlatFault, flatten};
use gl_job::Kind;
use gl_map::NameMap;
use gl_restore::Restored;
use gl_words::Name;
use std::alloc::Global;

/// The flat deck of a deck, with its own globals as rails, and with a top or none.
fn flatten_deck(alloc: Global, deck: &Deck, top: Option<&Name>) -> Result<Flat, FlatFault>
    requires known { IsReadDeck deck.now }
    ensures gives { flats.Gives result
        (flattening.flatten deck.now deck.now.globals (option_copied top.entry)) }
{
    flatten(alloc, deck, deck.globals(), top)
}

/// The flat deck of bytes, with a top or none, or how the run ends.
pub fn flat_deck_of(alloc: Global, bytes: &[u8], top: Option<&Name>) -> Result<Flat, Ending>
    requires few { length bytes.now ≤ FILE }
    ensures flat { IfOk result
        (IsPlainOf (flattening.flat_of (option_copied top.entry) bytes.now)) }
    ensures refused { IfErr result (λ ending. Refuses Kind.Deck fault_text
        (flattening.flat_of (option_copied top.entry) bytes.now) (end_of ending)) }
{
    let deck = match deck_of(alloc, bytes) {
        Ok(deck) => deck,
        Err(ending) => return Err(ending),
    };
    match flatten_deck(alloc, &deck, top) {
        Ok(flat) => Ok(flat),
        Err(fault) => Err(Ending::Flat(fault)),
    }
}

/// The map of bytes, or how the run ends.
pub fn map_of(alloc: Global, bytes: &[u8]) -> Result<NameMap, Ending>
    requires few { length bytes.now ≤ FILE }
    ensures map { IfOk result (λ names. read_map bytes.now ≡ Ok names) }
    ensures few { IfOk result (λ names. length names.devices + length names.nets ≤ FILE) }
    ensures refused { IfErr result (λ ending.
        Refuses Kind.Map maps.fault_text (read_map bytes.now) (end_of ending)) }
{
    match NameMap::read(alloc, bytes) {
        Ok(names) => Ok(names),
        Err(fault) => Err(Ending::Map(fault)),
    }
}

/// The text of a flat deck under the old names of a map, or how the run ends.
pub fn restored_text(alloc: Global, flat: &Flat, names: &NameMap) -> Result<Vec<u8>, Ending>
    requires few { length names.now.devices + length names.now.nets ≤ FILE }
    ensures text { IfOk result (λ text. IsRestoredText flat.now names.now text.items) }
    ensures refused { IfErr result (λ ending. IsNotRestored flat.now names.now (end_of ending)) }
{
    let restored = match Restored::of(alloc, flat, names) {
        Ok(restored) => restored,
        Err(fault) => return Err(Ending::Names(fault)),
    };
    match restored.text(alloc) {
        Ok(text) => Ok(text),
        Err(fault) => Err(Ending::Text(fault)),
    }
}
