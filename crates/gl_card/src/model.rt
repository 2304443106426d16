ghost use Rattle.std.specs.Prelude.{◌≡◌};

use gl_line::{Name, Tail};
use std::marker::Model;

/// A `.model` card.
#[derive(Debug, Drop)]
pub struct ModelCard {
    /// The model's name.
    pub name: Name,
    /// The type word.
    pub word: Name,
    /// What follows.
    pub tail: Tail,
}

impl Model for ModelCard {
    ghost use Rattle.gl_text.specs.Cards.{Model as ModelValue};

    ghost Value = { ModelValue };

    ghost view = { λ m. record { name = m.name; word = m.word; tail = m.tail } };
}

impl ModelCard {
    /// Its name.
    pub fn name(&self) -> &Name
        ensures name { result.now ≡ self.now.name }
    {
        &self.name
    }

    /// Its type word.
    pub fn word(&self) -> &Name
        ensures word { result.now ≡ self.now.word }
    {
        &self.word
    }
    /// What follows the fields.
    pub fn tail(&self) -> &Tail
        ensures tail { result.now ≡ self.now.tail }
    {
        &self.tail
    }
}
