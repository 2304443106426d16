ghost use Rattle.std.specs.Prelude.{◌≡◌, ◌<◌, ◌≤◌, ◌^◌, length, Some, None, IfOk, IfErr};
ghost use Rattle.gl_text.specs.LogicalLines.{LINE};
ghost use Rattle.gl_fault.specs.Refusals.{or_else};
ghost use Rattle.gl_text.specs.Cards.{card_of, has_long_tail, has_parameters, no_card as no_card_of, read_card, tail_fault};
ghost use Rattle.gl_card.specs.Reading.{GivesCard, Refuses, card_value, late_of};
ghost use Rattle.gl_card.specs.Kinds.{AreFields};
ghost use Rattle.gl_card.specs.EqualSigns.{equal_sign};

use crate::kind::kind_of;
use crate::make::make;
use crate::refusals::no_card;
use crate::slices::fields_in;
use crate::{Card, CardFault};
use gl_line::{Field, Logical, Tail};
use std::alloc::Global;

/// The bytes that a tail may have.
const LONGEST_TAIL: usize = 65_536;

/// The text has an equal sign.
fn parameters(line: u32, text: &[u8]) -> Option<CardFault>
    ensures equal_sign { Refuses result (equal_sign line text.now) }
{
    if text.contains(&b'=') {
        return Some(CardFault::Parameters { line });
    }
    None
}

/// The tail is too long.
fn long_tail(line: u32, tail: &Tail) -> Option<CardFault>
    requires few { length tail.now < 2 ^ 32 }
    ensures too_long { Refuses result (tail_fault line tail.now) }
{
    let len = tail.as_bytes().len();
    if len > LONGEST_TAIL {
        let len = len as u32;
        return Some(CardFault::LongTail { line, len });
    }
    None
}

/// The card of a line with these fields, or why there is none.
fn card_in(alloc: Global, line: &Logical<'_>, fields: &[Field<'_>]) -> Result<Card, CardFault>
    requires some { 1 ≤ length line.now.text }
    requires size { length line.now.text ≤ LINE }
    requires fields { AreFields line.now.text fields.now }
    ensures card { GivesCard result (or_else (no_card_of line.now) (card_of line.now.text)) }
{
    let text = line.text();
    let kind = kind_of(text, fields);
    if let Some(fault) = no_card(line.line(), text, kind, fields) {
        return Err(fault);
    }
    Ok(make(alloc, kind, text, fields)?)
}

/// The card of a line, or why it is refused although there is one. It takes no memory, and never tells of want of it.
fn judged(card: Card, line: &Logical<'_>) -> Result<Card, CardFault>
    requires of_line { card_value card ≡ card_of line.now.text }
    requires size { length line.now.text ≤ LINE }
    ensures card { IfOk result (λ kept. (kept ≡ card) × Refuses None (late_of line.now)) }
    ensures refused { IfErr result (λ fault. Refuses (Some fault) (late_of line.now)) }
{
    match card.late_fault(line) {
        Some(fault) => Err(fault),
        None => Ok(card),
    }
}

impl Card {
    /// The card of a logical line, or why there is none: a name that is too long, a first byte that begins no card, too
    /// few fields, a control block, in this order. Whether the card is then to be refused is `late_fault`'s answer.
    pub fn parse(alloc: Global, line: &Logical<'_>) -> Result<Card, CardFault>
        requires some { 1 ≤ length line.now.text }
        requires size { length line.now.text ≤ LINE }
        ensures card { GivesCard result (or_else (no_card_of line.now) (card_of line.now.text)) }
    {
        let fields = fields_in(alloc, line.text())?;
        card_in(alloc, line, &fields)
    }

    /// Why the card of this line is refused for an equal sign on an X or `.subckt` card. It takes no memory.
    pub fn parameter_fault(&self, line: &Logical<'_>) -> Option<CardFault>
        requires of_line { card_value self.now ≡ card_of line.now.text }
        ensures equal_sign { Refuses result (has_parameters line.now) }
    {
        match self {
            Card::Call(_) => parameters(line.line(), line.text()),
            Card::Subckt(_) => parameters(line.line(), line.text()),
            _ => None,
        }
    }

    /// Why the card of this line is refused for its tail. It takes no memory.
    pub fn tail_fault(&self, line: &Logical<'_>) -> Option<CardFault>
        requires of_line { card_value self.now ≡ card_of line.now.text }
        requires size { length line.now.text ≤ LINE }
        ensures too_long { Refuses result (has_long_tail line.now) }
    {
        match self {
            Card::Dev(card) => long_tail(line.line(), card.tail()),
            Card::Model(card) => long_tail(line.line(), card.tail()),
            _ => None,
        }
    }

    /// Why the card of this line is refused although there is one: an equal sign on an X or `.subckt` card, or a tail
    /// that is too long. It takes no memory.
    pub fn late_fault(&self, line: &Logical<'_>) -> Option<CardFault>
        requires of_line { card_value self.now ≡ card_of line.now.text }
        requires size { length line.now.text ≤ LINE }
        ensures late { Refuses result (late_of line.now) }
    {
        self.parameter_fault(line).or(self.tail_fault(line))
    }

    /// The card of a logical line, or the first of its refusals in the order of `CardFault`.
    pub fn read(alloc: Global, line: &Logical<'_>) -> Result<Card, CardFault>
        requires some { 1 ≤ length line.now.text }
        requires size { length line.now.text ≤ LINE }
        ensures card { GivesCard result (read_card line.now) }
    {
        match Card::parse(alloc, line) {
            Ok(card) => judged(card, line),
            Err(fault) => Err(fault),
        }
    }
}
