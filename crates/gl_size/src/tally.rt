ghost use Rattle.std.specs.Prelude.{◌≡◌, IfOk};
ghost use Rattle.std.specs.List.{IsDistinct};
ghost use Rattle.gl_text.specs.LogicalLines.{same_text};
ghost use Rattle.gl_deck.specs.Bodies.{bodies_value, names_of};
ghost use Rattle.gl_size.specs.Tallies.{own_in, tallies_of, tally_of};

use crate::counted::Counted;
use crate::{Body, Subs};
use gl_deck::called_places;
use std::alloc::{AllocError, Global};
use std::marker::Model;

/// What is kept of a subcircuit to count what it expands to.
#[derive(Drop)]
pub struct Tally {
    /// Its devices and X cards, at most one more than there may be.
    cards: u32,
    /// Its devices, at most one more than there may be.
    devices: u32,
    /// For each of its X cards the place of the subcircuit that it calls, in order, if there is one.
    calls: Vec<usize>,
}

impl Model for Tally {
    ghost use Rattle.gl_size.specs.Tallies.{Tally as TallyValue};

    ghost Value = { TallyValue };

    ghost view = { λ t. record { cards = t.cards; devices = t.devices; calls = t.calls.items } };
}

impl Tally {
    /// What is kept of a subcircuit of these cards.
    fn of(alloc: Global, subs: &Subs, cards: &[Body]) -> Result<Tally, AllocError>
        ensures tally { IfOk result (λ t. t ≡ tally_of subs.now (bodies_value cards.now)) }
    {
        Ok(Tally {
            cards: Counted::Cards.own_total(cards),
            devices: Counted::Devices.own_total(cards),
            calls: called_places(alloc, subs, cards)?,
        })
    }

    /// What its cards count for themselves, at most one more than there may be.
    pub fn own(&self, counted: Counted) -> u32
        ensures own { result ≡ own_in counted self.now }
    {
        match counted {
            Counted::Cards => self.cards,
            Counted::Devices => self.devices,
        }
    }

    /// The places of the subcircuits that it calls.
    pub fn calls(&self) -> &[usize]
        ensures calls { result.now ≡ self.now.calls }
    {
        &self.calls
    }
}

/// What is kept of each subcircuit.
pub fn tallies(alloc: Global, subs: &Subs) -> Result<Vec<Tally>, AllocError>
    ensures tallies { IfOk result (λ v. v.items ≡ tallies_of subs.now) }
    ensures names_differ { IfOk result (λ v. IsDistinct same_text (names_of subs.now)) }
{
    let mut tallies = Vec::with_capacity(alloc, subs.len())?;
    let mut rest = subs.as_slice();
    while let [sub, behind @ ..] = rest {
        tallies.push(Tally::of(alloc, subs, sub.cards())?)?;
        rest = behind;
    }
    Ok(tallies)
}
