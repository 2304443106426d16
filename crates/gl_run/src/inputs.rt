//! What is made of the bytes of inputs.
ghost use Rattle.std.specs.Prelude.{◌≡◌, ◌≤◌, length, true, Ok, IfOk, IfErr};
ghost use Rattle.std.specs.Option.{option_copied};
ghost use Rattle.gl_text.specs.Decks.{read_deck};
ghost use Rattle.gl_text.specs.Flattening.{flat_job};
ghost use Rattle.gl_text.specs.LogicalLines.{FILE};
ghost use Rattle.gl_base.specs.Libraries.{read_library};
ghost use Rattle.gl_printed.specs.ReadDecks.{IsReadDeck};
ghost use Rattle.gl_flat.specs.Refusals.{GivesOf, IsTextOf};
ghost use Rattle.gl_text.specs.Flattening as flattening;
ghost use Rattle.gl_job.specs.Points.{Refuses};
ghost use Rattle.gl_lift.specs.Liftable.{IsLiftable, IsSearchable};
ghost use Rattle.gl_deck.specs.Texts.{fault_text};
ghost use Rattle.gl_cells.specs.Texts.{cell_text};
ghost use Rattle.gl_run.specs.Endings.{end_of};

use crate::ending::Ending;
use gl_deck::Deck;
use gl_flat::{FlatFault, flattened_text};
use gl_job::Kind;
use gl_lift::{Library, read_files_are_lifted};
use gl_words::Name;
use std::alloc::Global;

/// The deck of bytes, or how the run ends.
pub fn deck_of(alloc: Global, bytes: &[u8]) -> Result<Deck, Ending>
    requires few { length bytes.now ≤ FILE }
    ensures deck { IfOk result (λ deck. read_deck true bytes.now ≡ Ok deck) }
    ensures known { IfOk result IsLiftable }
    ensures refused { IfErr result (λ ending.
        Refuses Kind.Deck fault_text (read_deck true bytes.now) (end_of ending)) }
{
    read_files_are_lifted();
    match Deck::read(alloc, bytes, true) {
        Ok(deck) => Ok(deck),
        Err(fault) => Err(Ending::Deck(fault)),
    }
}

/// The library of bytes, or how the run ends.
pub fn library_of(alloc: Global, bytes: &[u8]) -> Result<Library, Ending>
    requires few { length bytes.now ≤ FILE }
    ensures library { IfOk result (λ library. read_library bytes.now ≡ Ok library) }
    ensures known { IfOk result IsSearchable }
    ensures refused { IfErr result (λ ending.
        Refuses Kind.Library cell_text (read_library bytes.now) (end_of ending)) }
{
    read_files_are_lifted();
    match Library::read(alloc, bytes) {
        Ok(library) => Ok(library),
        Err(fault) => Err(Ending::Library(fault)),
    }
}

/// The flat text of a deck, with its own globals as rails, and with a top or none.
fn text_of_deck(alloc: Global, deck: &Deck, top: Option<&Name>) -> Result<Vec<u8>, FlatFault>
    requires known { IsReadDeck deck.now }
    ensures gives { GivesOf (λ text. IsTextOf text.items) result
        (flattening.flatten deck.now deck.now.globals (option_copied top.entry)) }
{
    flattened_text(alloc, deck, deck.globals(), top)
}

/// The flat text of bytes, with a top or none, or how the run ends.
pub fn flat_text_of(alloc: Global, bytes: &[u8], top: Option<&Name>) -> Result<Vec<u8>, Ending>
    requires few { length bytes.now ≤ FILE }
    ensures text { IfOk result (λ text.
        flat_job (option_copied top.entry) bytes.now ≡ Ok text.items) }
    ensures refused { IfErr result (λ ending.
        Refuses Kind.Deck fault_text (flat_job (option_copied top.entry) bytes.now) (end_of ending)) }
{
    let deck = match deck_of(alloc, bytes) {
        Ok(deck) => deck,
        Err(ending) => return Err(ending),
    };
    match text_of_deck(alloc, &deck, top) {
        Ok(text) => Ok(text),
        Err(fault) => Err(Ending::Flat(fault)),
    }
}
