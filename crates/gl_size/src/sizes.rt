ghost use Rattle.std.specs.Prelude.{◌≡◌, ◌+◌, [], ◌∷◌, min, not, IfOk};
ghost use Rattle.gl_text.specs.Flattening.{at_depth, count, is_none_left, one, one_device, CARDS, DEPTH, DEVICES};
ghost use Rattle.gl_deck.specs.Bodies.{bodies_value};
ghost use Rattle.gl_size.specs.Counts.{counts_of, most_of, own_of};
ghost use Rattle.gl_size.specs.Excesses.{AreSizes};
ghost use Rattle.gl_deck.specs.Places.{calls_of};
ghost use Rattle.gl_size.specs.Tallies.{has_mark, sum_at};

use crate::chains::{deep, is_marked};
use crate::counted::{Counted, add};
use crate::rounds::counts;
use crate::tally::tallies;
use crate::{Body, Memory, Subs};
use gl_deck::called_place;
use std::alloc::Global;
use std::marker::Model;

/// What the subcircuits of a deck expand to, and how deep, each at its place in the table.
#[derive(Drop)]
pub struct Sizes {
    /// How many devices and X cards each has with all that it calls, at most 400,001.
    cards: Vec<u32>,
    /// How many devices each has with all that it calls, at most 200,001.
    devices: Vec<u32>,
    /// Whether a chain of 32 X cards begins in it.
    deep: Vec<bool>,
}

impl Model for Sizes {
    ghost use Rattle.gl_size.specs.Excesses.{Sizes as SizesValue};

    ghost Value = { SizesValue };

    ghost view = { λ s. record { cards = s.cards.items; devices = s.devices.items; deep = s.deep.items } };
}

impl Sizes {
    /// The sizes of these subcircuits. It takes some 32 times as many steps as there are X cards, and names are looked up once.
    pub fn of(alloc: Global, subs: &Subs) -> Result<Sizes, Memory>
        ensures of { IfOk result (AreSizes subs.now) }
    {
        let tallies = tallies(alloc, subs)?;
        Ok(Sizes {
            cards: counts(alloc, Counted::Cards, &tallies)?,
            devices: counts(alloc, Counted::Devices, &tallies)?,
            deep: deep(alloc, &tallies)?,
        })
    }

    /// How many devices and X cards these expand to with all that they call, at most 400,001. It takes no memory.
    pub fn cards(&self, subs: &Subs, cards: &[Body]) -> u32
        requires of { AreSizes subs.now self.now }
        ensures count { result ≡ min (count one subs.now (bodies_value cards.now)) (CARDS + 1) }
    {
        total(Counted::Cards, &self.cards, subs, cards)
    }

    /// How many devices these expand to with all that they call, at most 200,001. It takes no memory.
    pub fn devices(&self, subs: &Subs, cards: &[Body]) -> u32
        requires of { AreSizes subs.now self.now }
        ensures count { result ≡ min (count one_device subs.now (bodies_value cards.now))
            (DEVICES + 1) }
    {
        total(Counted::Devices, &self.devices, subs, cards)
    }

    /// A chain of 33 X cards begins with one of these. It takes no memory.
    pub fn is_too_deep(&self, subs: &Subs, cards: &[Body]) -> bool
        requires of { AreSizes subs.now self.now }
        ensures deep { result
            ≡ not (is_none_left (at_depth subs.now (bodies_value cards.now) DEPTH)) }
    {
        call_marked(&self.deep, subs, cards)
    }
}

/// What a card's subcircuit counts, where these are the counts of all subcircuits.
fn called_count(counts: &[u32], subs: &Subs, card: &Body) -> u32
    ensures count { result ≡ sum_at counts.now (calls_of subs.now (bodies_value (card.now ∷ []))) }
{
    match called_place(subs, card) {
        Some(place) => counts.get(place).copied().unwrap_or(0),
        None => 0,
    }
}

/// What the subcircuits count together that cards call, at most `most`, where these are the counts of all subcircuits.
fn called_total(counts: &[u32], subs: &Subs, cards: &[Body], most: u32) -> u32
    ensures total { result
        ≡ min (sum_at counts.now (calls_of subs.now (bodies_value cards.now))) most }
{
    let mut total = 0;
    let mut rest = cards;
    while let [card, behind @ ..] = rest {
        total = add(total, called_count(counts, subs, card), most);
        rest = behind;
    }
    total
}

/// What cards count with all that they call, at most one more than there may be.
fn total(counted: Counted, counts: &[u32], subs: &Subs, cards: &[Body]) -> u32
    requires of { counts.now ≡ counts_of counted subs.now DEPTH }
    ensures total { result ≡ min (count (own_of counted) subs.now (bodies_value cards.now))
        (most_of counted) }
{
    let most = counted.most();
    let called = called_total(counts, subs, cards, most);
    add(counted.own_total(cards), called, most)
}

/// A card calls a subcircuit that is marked.
fn calls_marked(marks: &[bool], subs: &Subs, card: &Body) -> bool
    ensures marked { result ≡ has_mark marks.now
        (calls_of subs.now (bodies_value (card.now ∷ []))) }
{
    match called_place(subs, card) {
        Some(place) => is_marked(marks, place),
        None => false,
    }
}

/// One of the cards calls a subcircuit that is marked.
fn call_marked(marks: &[bool], subs: &Subs, cards: &[Body]) -> bool
    ensures marked { result ≡ has_mark marks.now (calls_of subs.now (bodies_value cards.now)) }
{
    let mut rest = cards;
    while let [card, behind @ ..] = rest {
        if calls_marked(marks, subs, card) {
            return true;
        }
        rest = behind;
    }
    false
}
