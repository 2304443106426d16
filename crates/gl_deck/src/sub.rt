ghost use Rattle.std.specs.Prelude.{◌≡◌};
ghost use Rattle.gl_deck.specs.Bodies.{bodies_value};

use crate::{Body, Head};
use std::marker::Model;

/// A subcircuit. Contracts see it as its line, its head and its cards.
#[derive(Debug, Drop)]
pub struct Sub {
    /// The number of the line of its `.subckt`, from 1.
    pub line: u32,
    /// Its name and its ports.
    pub head: Head,
    /// Its devices and X cards, in order.
    pub cards: Vec<Body>,
}

impl Model for Sub {
    ghost use Rattle.gl_text.specs.Decks.{Sub as SubValue};
    ghost use Rattle.gl_deck.specs.Bodies.{bodies_value};

    ghost Value = { SubValue };

    ghost view = { λ s. record { line = s.line; head = s.head; cards = bodies_value s.cards.items } };
}

impl Sub {
    /// The number of the line of its `.subckt`.
    pub fn line(&self) -> u32
        ensures line { result ≡ self.now.line }
    {
        self.line
    }

    /// Its name and its ports.
    pub fn head(&self) -> &Head
        ensures head { result.now ≡ self.now.head }
    {
        &self.head
    }

    /// Its devices and X cards, in order.
    pub fn cards(&self) -> &[Body]
        ensures cards { bodies_value result.now ≡ self.now.cards }
    {
        &self.cards
    }
}
