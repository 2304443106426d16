ghost use Rattle.std.specs.Prelude.{◌≡◌, option_map};
ghost use Rattle.std.specs.Option.{option_copied};
ghost use Rattle.gl_cells.specs.Skips.{skip_value};

use crate::Skip;
use gl_deck::Deck;
use std::marker::Model;

/// What a library says of a cell. Contracts see it as its level, and why it is skipped.
#[derive(Debug, Drop)]
pub struct LibCell {
    /// 0 without X cards, else one more than the greatest level that it calls; at most 15.
    pub level: u32,
    /// Why it is skipped, if it is.
    pub skip: Option<Skip>,
}

impl Model for LibCell {
    ghost use Rattle.std.specs.Prelude.{option_map};
    ghost use Rattle.gl_base.specs.Libraries.{Cell};
    ghost use Rattle.gl_cells.specs.Skips.{skip_value};

    ghost Value = { Cell };

    ghost view = { λ c. record { level = c.level; skip = option_map skip_value c.skip } };
}

impl LibCell {
    /// Its level, from 0.
    pub fn level(&self) -> u32
        ensures level { result ≡ self.now.level }
    {
        self.level
    }

    /// Why it is skipped, if it is.
    pub fn skip(&self) -> Option<&Skip>
        ensures skip { option_map skip_value (option_copied result) ≡ self.now.skip }
    {
        self.skip.as_ref()
    }
}

/// A library of cells. Contracts see it as its deck, and what is said of each subcircuit, in the deck's order.
#[derive(Debug, Drop)]
pub struct Library {
    /// The deck. Its subcircuits are the cells, and nothing but them is searched.
    pub deck: Deck,
    /// One for each subcircuit, in the deck's order.
    pub cells: Vec<LibCell>,
}

impl Model for Library {
    ghost use Rattle.gl_base.specs.Libraries.{Library as LibraryValue};

    ghost Value = { LibraryValue };

    ghost view = { λ l. record { deck = l.deck; cells = l.cells.items } };
}

impl Library {
    /// The deck, whose subcircuits are the cells.
    pub fn deck(&self) -> &Deck
        ensures deck { result.now ≡ self.now.deck }
    {
        &self.deck
    }

    /// One for each subcircuit of the deck, in its order.
    pub fn cells(&self) -> &[LibCell]
        ensures cells { result.now ≡ self.now.cells }
    {
        &self.cells
    }
}
