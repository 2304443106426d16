ghost use Rattle.std.specs.Prelude.{◌≡◌};
ghost use Rattle.gl_text.specs.Decks as decks;

use crate::Name;
use std::marker::Model;

/// An X card as far as its call goes. Contracts see it as its line, the scope that it stands in, the called name and the
/// number of its nodes.
#[derive(Debug, Drop)]
pub struct Site {
    /// The number of its line, from 1.
    pub line: u32,
    /// The line of the `.subckt` that it stands under; 0 at the top.
    pub scope_line: u32,
    /// The name of that subcircuit; empty at the top.
    pub scope_name: Name,
    /// The name of the subcircuit that it calls.
    pub sub: Name,
    /// How many nodes it has.
    pub nodes: u32,
}

impl Model for Site {
    ghost use Rattle.gl_deck.specs.Calls.{Site as SiteValue};

    ghost Value = { SiteValue };

    ghost view = { λ s. record { line = s.line; scope = record { line = s.scope_line; name = s.scope_name }; sub = s.sub; nodes = s.nodes } };
}

impl Site {
    /// The number of its line.
    pub fn line(&self) -> u32
        ensures line { result ≡ self.now.line }
    {
        self.line
    }

    /// It stands in a subcircuit.
    pub fn is_inside(&self) -> bool
        ensures inside { result ≡ decks.is_inside self.now.scope }
    {
        self.scope_line > 0
    }

    /// The name of the subcircuit that it stands in; empty at the top.
    pub fn scope_name(&self) -> &Name
        ensures scope { result.now ≡ self.now.scope.name }
    {
        &self.scope_name
    }

    /// The name of the subcircuit that it calls.
    pub fn sub(&self) -> &Name
        ensures sub { result.now ≡ self.now.sub }
    {
        &self.sub
    }

    /// How many nodes it has.
    pub fn nodes(&self) -> u32
        ensures nodes { result ≡ self.now.nodes }
    {
        self.nodes
    }
}
