ghost use Rattle.std.specs.Prelude.{◌≡◌, map};
ghost use Rattle.gl_deck.specs.Bodies.{bodies_value};

use crate::{Body, ModelCard, Name, Subs};
use std::marker::Model;

/// A deck. Contracts see it as its title, globals, models, subcircuits, top cards and passed cards, each in order.
#[derive(Debug, Drop)]
pub struct Deck {
    /// The title without the carriage returns at its end; empty where the file has none.
    pub title: Vec<u8>,
    /// The names of `.global` cards, each once in order of first appearance, without `0`.
    pub globals: Vec<Name>,
    /// The models.
    pub models: Vec<ModelCard>,
    /// The subcircuits.
    pub subs: Subs,
    /// The devices and X cards outside subcircuits.
    pub top: Vec<Body>,
    /// The texts of dot cards that are carried along.
    pub passed: Vec<Vec<u8>>,
}

impl Model for Deck {
    ghost use Rattle.std.specs.Prelude.{map};
    ghost use Rattle.gl_text.specs.Decks.{Deck as DeckValue};
    ghost use Rattle.gl_deck.specs.Bodies.{bodies_value};

    ghost Value = { DeckValue };

    ghost view = { λ d. record { title = d.title.items; globals = d.globals.items; models = d.models.items; subs = d.subs; top = bodies_value d.top.items; passed = map (λ t. t.items) d.passed.items } };
}

impl Deck {
    /// The title.
    pub fn title(&self) -> &[u8]
        ensures title { result.now ≡ self.now.title }
    {
        &self.title
    }

    /// The global nets.
    pub fn globals(&self) -> &[Name]
        ensures globals { result.now ≡ self.now.globals }
    {
        &self.globals
    }

    /// The models.
    pub fn models(&self) -> &[ModelCard]
        ensures models { result.now ≡ self.now.models }
    {
        &self.models
    }

    /// The subcircuits.
    pub fn subs(&self) -> &Subs
        ensures subs { result.now ≡ self.now.subs }
    {
        &self.subs
    }

    /// The devices and X cards outside subcircuits.
    pub fn top(&self) -> &[Body]
        ensures top { bodies_value result.now ≡ self.now.top }
    {
        &self.top
    }

    /// The texts of passed cards.
    pub fn passed(&self) -> &[Vec<u8>]
        ensures passed { map (λ t. t.items) result.now ≡ self.now.passed }
    {
        &self.passed
    }
}
