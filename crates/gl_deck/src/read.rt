ghost use Rattle.std.specs.Prelude.{◌≡◌, ◌<◌, ◌≤◌, ◌^◌, length, true, false, Some, None, IfErr, IfOk, OnOk};
ghost use Rattle.gl_text.specs.LogicalLines.{FILE, after_title, logical_lines, title_of};
ghost use Rattle.gl_text.specs.Decks.{read_deck, title_fault as title_fault_of};
ghost use Rattle.gl_known.specs.Known.{IsKnownDeck};
ghost use Rattle.gl_deck.specs.Drafts.{deck_behind, deck_by_draft, long_title};
ghost use Rattle.gl_deck.specs.Refusals.{Gives, MustRefuse, Refuses};

use crate::lines::drafted;
use crate::{Deck, DeckFault};
use gl_known::read_decks_are_known;
use gl_line::split_title;
use std::alloc::Global;

/// The bytes that a title may have.
const LONGEST: usize = 131_072;

/// The title is too long.
fn title_fault(title: &[u8]) -> Option<DeckFault>
    requires few { length title.now < 2 ^ 32 }
    ensures too_long { Refuses result (long_title title.now) }
{
    let len = title.len();
    if len > LONGEST {
        let len = len as u32;
        return Some(DeckFault::LongLine { line: 1, len });
    }
    None
}

/// The deck of bytes behind a title, or the first refusal.
fn read_lines(alloc: Global, title: &[u8], bytes: &[u8], first_line: u32) -> Result<Deck, DeckFault>
    requires size { length bytes.now ≤ FILE }
    requires numbered { (1 ≤ first_line) × (first_line ≤ 2) }
    ensures reads { Gives result (deck_behind title.now (logical_lines first_line bytes.now)) }
{
    let title = Vec::from_slice(alloc, title)?;
    let draft = drafted(alloc, bytes, first_line)?;
    draft.finish(alloc, title)
}

/// The title of a file and what is behind it, or the refusal of a title that is too long. It takes no memory, and never tells
/// of want of it.
fn title_and_cards(bytes: &[u8]) -> Result<(&[u8], &[u8]), DeckFault>
    requires size { length bytes.now ≤ FILE }
    ensures title { IfOk result (λ parts. parts.0.now ≡ title_of bytes.now) }
    ensures after { IfOk result (λ parts. parts.1.now ≡ after_title bytes.now) }
    ensures short { OnOk result (Refuses None (long_title (title_of bytes.now))) }
    ensures refused { IfErr result (λ fault. Refuses (Some fault) (long_title (title_of bytes.now))) }
{
    let (title, rest) = split_title(bytes);
    match title_fault(title) {
        Some(fault) => Err(fault),
        None => Ok((title, rest)),
    }
}

/// The deck of a file with a title, or the first refusal.
fn read_titled(alloc: Global, bytes: &[u8]) -> Result<Deck, DeckFault>
    requires size { length bytes.now ≤ FILE }
    ensures reads { Gives result (deck_by_draft true bytes.now) }
    ensures long_title { MustRefuse result (long_title (title_of bytes.now)) }
{
    match title_and_cards(bytes) {
        Ok((title, rest)) => read_lines(alloc, title, rest, 2),
        Err(fault) => Err(fault),
    }
}

/// The deck of a file without a title, or the first refusal.
fn read_untitled(alloc: Global, bytes: &[u8]) -> Result<Deck, DeckFault>
    requires size { length bytes.now ≤ FILE }
    ensures reads { Gives result (deck_by_draft false bytes.now) }
{
    read_lines(alloc, b"", bytes, 1)
}

impl Deck {
    /// The deck of a file, or the first of its refusals. With a title the first line is no card; a title that is too long is
    /// refused without memory, so that no want of it is told in its place.
    pub fn read(alloc: Global, bytes: &[u8], has_title: bool) -> Result<Deck, DeckFault>
        requires size { length bytes.now ≤ FILE }
        ensures read { Gives result (read_deck has_title bytes.now) }
        ensures known { IfOk result (IsKnownDeck FILE) }
        ensures long_title { MustRefuse result (title_fault_of has_title bytes.now) }
    {
        read_decks_are_known();
        if has_title {
            read_titled(alloc, bytes)
        } else {
            read_untitled(alloc, bytes)
        }
    }
}
