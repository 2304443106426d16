ghost use Rattle.std.specs.Prelude.{◌≡◌, ◌≤◌, codes, length, IfOk, is_some, option_map};
ghost use Rattle.std.specs.Map.{lookup};
ghost use Rattle.gl_text.specs.LogicalLines.{LINE, same_text};
ghost use Rattle.gl_text.specs.Cards.{card_of, has_long_tail, has_parameters};
ghost use Rattle.gl_text.specs.Decks as decks;
ghost use Rattle.gl_text.specs.Decks.{Sub};
ghost use Rattle.gl_card.specs.Reading.{card_value};
ghost use Rattle.gl_deck.specs.Refusals.{Refuses};
ghost use Rattle.gl_deck.specs.Drafts.{bad_ends_in, card_fault, duplicate_in, known_line, local_in, names_at, nested_in, twice_in, zero_in};

use crate::draft::Draft;
use crate::globals::{has_twice, has_zero};
use crate::{Card, DeckFault, Name};
use gl_line::Logical;
use indexmap::IndexMap;
use std::alloc::{AllocError, Global};

/// A card that may stand only at the top.
fn is_of_top(card: &Card) -> bool
    ensures of_top { result ≡ decks.is_of_top (card_value card.now) }
{
    match card {
        Card::Model(_) | Card::Global(_) | Card::Passed(_) => true,
        _ => false,
    }
}

/// The ports of a `.subckt` card, else none.
fn ports(card: &Card) -> &[Name]
    ensures ports { result.now ≡ decks.ports_of (card_value card.now) }
{
    match card {
        Card::Subckt(head) => head.ports(),
        _ => &[],
    }
}

/// A `.subckt` has a port twice.
fn port_twice(alloc: Global, line: u32, card: &Card) -> Result<Option<DeckFault>, AllocError>
    ensures twice { IfOk result (λ fault. Refuses fault (twice_in line (card_value card.now))) }
{
    if has_twice(alloc, ports(card))? {
        return Ok(Some(DeckFault::DuplicatePort { line }));
    }
    Ok(None)
}

/// A `.subckt` has the port `0`.
fn port_zero(line: u32, card: &Card) -> Option<DeckFault>
    ensures zero { Refuses result (zero_in line (card_value card.now)) }
{
    if has_zero(ports(card)) {
        return Some(DeckFault::ZeroPort { line });
    }
    None
}

/// An X or `.subckt` card has an equal sign.
fn parameters(line: &Logical<'_>, card: &Card) -> Option<DeckFault>
    requires of_line { card_value card.now ≡ card_of line.now.text }
    ensures parameters { Refuses result (has_parameters line.now) }
{
    match card.parameter_fault(line) {
        Some(fault) => Some(DeckFault::from(fault)),
        None => None,
    }
}

/// A tail is too long.
fn long_tail(line: &Logical<'_>, card: &Card) -> Option<DeckFault>
    requires of_line { card_value card.now ≡ card_of line.now.text }
    requires size { length line.now.text ≤ LINE }
    ensures long_tail { Refuses result (has_long_tail line.now) }
{
    match card.tail_fault(line) {
        Some(fault) => Some(DeckFault::from(fault)),
        None => None,
    }
}

impl Draft {
    /// A subcircuit is open.
    fn is_inside(&self) -> bool
        ensures inside { result ≡ is_some self.now.current }
    {
        self.current.is_some()
    }

    /// A `.subckt` stands where one is open.
    fn nested(&self, line: u32, card: &Card) -> Option<DeckFault>
        ensures nested { Refuses result (nested_in self.now.current line (card_value card.now)) }
    {
        match card {
            Card::Subckt(_) if self.is_inside() => Some(DeckFault::NestedSubckt { line }),
            _ => None,
        }
    }

    /// An `.ends` stands where none is open, or has another name.
    fn bad_ends(&self, line: u32, card: &Card) -> Option<DeckFault>
        ensures bad_ends { Refuses result
            (bad_ends_in self.now.current line (card_value card.now)) }
    {
        let Card::Ends(given) = card else {
            return None;
        };
        let Some(sub) = &self.current else {
            return Some(DeckFault::LooseEnds { line });
        };
        match given {
            Some(name) if name != sub.head().name() => Some(DeckFault::WrongEnds { line }),
            _ => None,
        }
    }

    /// A card that belongs to the top stands inside a subcircuit.
    fn local(&self, line: u32, card: &Card) -> Option<DeckFault>
        ensures local { Refuses result (local_in self.now.current line (card_value card.now)) }
    {
        if self.is_inside() && is_of_top(card) {
            return Some(DeckFault::LocalCard { line });
        }
        None
    }

    /// The names of devices and X cards where the next card stands.
    fn names_here(&self) -> &IndexMap<Name, u32>
        ensures names { result.now.entries ≡ names_at self.now.current self.now }
    {
        match &self.current {
            None => &self.top_names,
            Some(_) => &self.inner_names,
        }
    }

    /// The line of the subcircuit of this name.
    fn sub_line(&self, name: &Name) -> Option<u32>
        ensures line { result
            ≡ option_map (λ (s : Sub). s.line) (lookup (same_text name.now) self.now.subs) }
    {
        match self.subs.get(name) {
            Some(sub) => Some(sub.line()),
            None => None,
        }
    }

    /// The line of the card that has this card's name already.
    fn known(&self, card: &Card) -> Option<u32>
        ensures known { result ≡ known_line self.now (card_value card.now) }
    {
        match card {
            Card::Dev(card) => self.names_here().get(card.name()).copied(),
            Card::Call(card) => self.names_here().get(card.name()).copied(),
            Card::Model(card) => self.model_names.get(card.name()).copied(),
            Card::Subckt(head) => self.sub_line(head.name()),
            _ => None,
        }
    }

    /// An earlier card has this card's name.
    fn duplicate(&self, line: u32, card: &Card) -> Option<DeckFault>
        ensures duplicate { Refuses result (duplicate_in self.now line (card_value card.now)) }
    {
        match self.known(card) {
            Some(first) => Some(DeckFault::DuplicateName { line, first }),
            None => None,
        }
    }

    /// Why the card of this line is refused, if it is: the first of a `.subckt` inside a subcircuit, a bad `.ends`, a card
    /// that belongs to the top, an equal sign, a name that is taken, a port twice, the port `0`, and a long tail.
    pub fn refused(
        &self,
        alloc: Global,
        line: &Logical<'_>,
        card: &Card,
    ) -> Result<Option<DeckFault>, AllocError>
        requires of_line { card_value card.now ≡ card_of line.now.text }
        requires size { length line.now.text ≤ LINE }
        ensures first { IfOk result
            (λ fault. Refuses fault (card_fault self.now line.now (card_value card.now))) }
    {
        let at = line.line();
        let twice = port_twice(alloc, at, card)?;
        Ok(
            self.nested(at, card)
                .or(self.bad_ends(at, card))
                .or(self.local(at, card))
                .or(parameters(line, card))
                .or(self.duplicate(at, card))
                .or(twice)
                .or(port_zero(at, card))
                .or(long_tail(line, card)),
        )
    }
}
