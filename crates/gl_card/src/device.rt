ghost use Rattle.std.specs.Prelude.{◌≡◌, [], MatchOption};
ghost use Rattle.std.specs.Option.{option_copied};
ghost use Rattle.gl_text.specs.Cards as cards;
ghost use Rattle.gl_card.specs.Letters.{byte_of};
ghost use Rattle.gl_card.specs.Named.{IsLetter, nodes_by, device_by};

use crate::Letter;
use crate::slices::{behind, front};
use gl_line::{Name, Tail};
use std::marker::Model;

/// A device card. Contracts see it as its name, nodes, model and tail; the letter is the name's first byte.
#[derive(Debug, Drop)]
pub struct DevCard {
    /// Its names in one piece of memory: its own, its letter first, then those of the nodes, four for M and two for
    /// each other letter, then that of the model, where the letter is M or D.
    pub(crate) names: Vec<Name>,
    /// What follows.
    pub(crate) tail: Tail,
}

impl Model for DevCard {
    ghost use Rattle.std.specs.Prelude.{◌<◌, [], length};
    ghost use Rattle.gl_text.specs.Cards.{Device, first_byte, first_or};
    ghost use Rattle.gl_card.specs.Named.{IsLetter, device_by};

    ghost Value = { Device };

    ghost view = { λ d. device_by d.names.items d.tail };

    ghost invariant = { λ d. (0 < length d.names.items) × IsLetter (first_byte (first_or [] d.names.items)) };
}

/// The letter of a device that a byte is.
fn letter_in(byte: u8) -> Option<Letter>
    ensures letter { MatchOption result (¬ (IsLetter byte)) (λ l. byte_of l ≡ byte) }
{
    match byte {
        b'm' => Some(Letter::M),
        b'd' => Some(Letter::D),
        b'r' => Some(Letter::R),
        b'c' => Some(Letter::C),
        b'l' => Some(Letter::L),
        b'v' => Some(Letter::V),
        b'i' => Some(Letter::I),
        _ => None,
    }
}

/// How many nodes a device has whose name begins with a byte.
fn node_count(byte: u8) -> usize
    ensures nodes { result ≡ nodes_by byte }
{
    if byte == b'm' { 4 } else { 2 }
}

/// The first byte of a name; 0 where there is none.
fn first_byte(name: &[u8]) -> u8
    ensures byte { result ≡ cards.first_byte name.now }
{
    match name {
        [byte, ..] => *byte,
        [] => 0,
    }
}

/// The first byte of the first name; 0 where there is none.
fn first_of(names: &[Name]) -> u8
    ensures byte { result ≡ cards.first_byte (cards.first_or [] names.now) }
{
    match names {
        [name, ..] => first_byte(name.as_bytes()),
        [] => 0,
    }
}

impl DevCard {
    ghost use Rattle.gl_text.specs.Cards.{first_byte, first_or};

    /// The device with these names, its own first, then its nodes', then its model's if it has one. There is none where
    /// its name begins with no letter of a device.
    pub fn of(names: Vec<Name>, tail: Tail) -> Option<DevCard>
        ensures device { MatchOption result (¬ (IsLetter (first_byte (first_or [] names.items))))
            (λ d. d ≡ device_by names.items tail) }
    {
        letter_in(first_of(&names))?;
        Some(DevCard { names, tail })
    }

    /// Its letter.
    pub fn letter(&self) -> Letter
        ensures letter { byte_of result ≡ first_byte self.now.name }
    {
        match letter_in(first_of(&self.names)) {
            Some(letter) => letter,
            None => unreachable!(),
        }
    }

    /// Its name.
    pub fn name(&self) -> &Name
        ensures name { result.now ≡ self.now.name }
    {
        &self.names[0]
    }

    /// Its nodes, place by place.
    pub fn nodes(&self) -> &[Name]
        ensures nodes { result.now ≡ self.now.nodes }
    {
        front(behind(&self.names, 1), node_count(first_of(&self.names)))
    }

    /// Its model's name.
    pub fn model(&self) -> Option<&Name>
        ensures model { option_copied result ≡ self.now.model }
    {
        let behind_name = behind(&self.names, 1);
        behind(behind_name, node_count(first_of(&self.names))).first()
    }

    /// What follows the fields.
    pub fn tail(&self) -> &Tail
        ensures tail { result.now ≡ self.now.tail }
    {
        &self.tail
    }
}
