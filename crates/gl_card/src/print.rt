ghost use Rattle.std.specs.Prelude.{◌≡◌, ◌++◌, is_ok, if◌then◌else◌};
ghost use Rattle.gl_text.specs.Cards as cards;
ghost use Rattle.gl_text.specs.Cards.{printed};
ghost use Rattle.gl_card.specs.Lines.{line_of};
ghost use Rattle.gl_card.specs.Reading.{card_value};

use crate::line::{Parts, print_line};
use crate::{CallCard, Card, DevCard, Head, ModelCard};
use gl_line::Memory;

/// The parts of a device's line.
fn device_parts(card: &DevCard) -> Parts<'_>
    ensures line { line_of result ≡ printed (cards.dev card.now) }
{
    Parts {
        many: card.nodes(),
        last: card.model(),
        tail: card.tail().as_bytes(),
        ..Parts::of(card.name().as_bytes())
    }
}

/// The parts of an X card's line.
fn call_parts(card: &CallCard) -> Parts<'_>
    ensures line { line_of result ≡ printed (cards.call card.now) }
{
    Parts {
        many: card.nodes(),
        last: Some(card.sub()),
        ..Parts::of(card.name().as_bytes())
    }
}

/// The parts of a model's line.
fn model_parts(card: &ModelCard) -> Parts<'_>
    ensures line { line_of result ≡ printed (cards.model card.now) }
{
    Parts {
        one: Some(card.name()),
        last: Some(card.word()),
        tail: card.tail().as_bytes(),
        ..Parts::of(b".model")
    }
}

/// The parts of a `.subckt` card's line.
fn head_parts(head: &Head) -> Parts<'_>
    ensures line { line_of result ≡ printed (cards.subckt head.now) }
{
    Parts {
        one: Some(head.name()),
        many: head.ports(),
        ..Parts::of(b".subckt")
    }
}

/// The parts of a card's line.
fn parts(card: &Card) -> Parts<'_>
    ensures line { line_of result ≡ printed (card_value card.now) }
{
    match card {
        Card::Dev(card) => device_parts(card),
        Card::Call(card) => call_parts(card),
        Card::Model(card) => model_parts(card),
        Card::Subckt(head) => head_parts(head),
        Card::Ends(name) => Parts {
            one: name.as_ref(),
            ..Parts::of(b".ends")
        },
        Card::Global(names) => Parts {
            many: names,
            ..Parts::of(b".global")
        },
        Card::End => Parts::of(b".end"),
        Card::Passed(text) => Parts::of(text),
    }
}

impl DevCard {
    /// Appends the card's line, without a newline, as `Card::print` does.
    pub fn print(&self, out: &mut Vec<u8>) -> Result<(), Memory>
        ensures printed { out.new.items
            ≡ (if is_ok result then out.old.items ++ printed (cards.dev self.now) else out.old.items) }
    {
        print_line(out, &device_parts(self))
    }
}

impl CallCard {
    /// Appends the card's line, without a newline, as `Card::print` does.
    pub fn print(&self, out: &mut Vec<u8>) -> Result<(), Memory>
        ensures printed { out.new.items
            ≡ (if is_ok result then out.old.items ++ printed (cards.call self.now) else out.old.items) }
    {
        print_line(out, &call_parts(self))
    }
}

impl ModelCard {
    /// Appends the card's line, without a newline, as `Card::print` does.
    pub fn print(&self, out: &mut Vec<u8>) -> Result<(), Memory>
        ensures printed { out.new.items
            ≡ (if is_ok result then out.old.items ++ printed (cards.model self.now) else out.old.items) }
    {
        print_line(out, &model_parts(self))
    }
}

impl Head {
    /// Appends the line of the `.subckt` card, without a newline, as `Card::print` does.
    pub fn print(&self, out: &mut Vec<u8>) -> Result<(), Memory>
        ensures printed { out.new.items
            ≡ (if is_ok result then out.old.items ++ printed (cards.subckt self.now) else out.old.items) }
    {
        print_line(out, &head_parts(self))
    }
}

impl Card {
    /// Appends the card's line, without a newline: its fields with one space between each two, and the tail behind a
    /// space if it is not empty. Without memory for it nothing is appended.
    pub fn print(&self, out: &mut Vec<u8>) -> Result<(), Memory>
        ensures printed { out.new.items
            ≡ (if is_ok result then out.old.items ++ printed (card_value self.now) else out.old.items) }
    {
        print_line(out, &parts(self))
    }
}
