ghost use Rattle.std.specs.Prelude.{◌≡◌, ◌<◌, ℕ, false, List, [], ◌∷◌, ◌++◌, length, slice_get, slice_index_or, option_to_list, IfOk, OnOk};
ghost use Rattle.std.specs.List.{IsAmong};
ghost use Rattle.std.specs.Option.{IfNone};
ghost use Rattle.gl_text.specs.Decks as decks;
ghost use Rattle.gl_text.specs.Decks.{callees};
ghost use Rattle.gl_deck.specs.Bodies.{bodies_value};
ghost use Rattle.gl_deck.specs.Walks.{called_names, is_marked, marked as marked_by, marked_all};

use crate::{Body, Name, Sub, Subs};
use std::alloc::{AllocError, Global};
use std::marker::Model;

/// Subcircuits that are marked. Contracts see it as the marks and the places that are still to be looked at.
#[derive(Drop)]
struct Walk {
    /// For each subcircuit, whether it is marked.
    marks: Vec<bool>,
    /// The places of marked subcircuits whose calls are still to be looked at.
    pending: Vec<usize>,
}

impl Model for Walk {
    ghost use Rattle.gl_deck.specs.Walks.{Walk as WalkValue};

    ghost Value = { WalkValue };

    ghost view = { λ w. record { marks = w.marks.items; pending = w.pending.items } };
}

impl Walk {
    /// None of so many subcircuits is marked.
    fn new(alloc: Global, count: usize) -> Result<Walk, AllocError>
        ensures sized { IfOk result (λ w. length w.marks ≡ count) }
        ensures nothing { IfOk result
            (λ w. (place : ℕ) → slice_index_or w.marks place false ≡ false) }
        ensures empty { IfOk result (λ w. w.pending ≡ []) }
    {
        Ok(Walk {
            marks: vec![in alloc; false; count]?,
            pending: Vec::new(alloc),
        })
    }

    /// The place of a marked subcircuit whose calls are still to be looked at. It is pending no longer.
    fn next(&mut self) -> Option<usize>
        ensures marks { self.new.marks ≡ self.old.marks }
        ensures pending { self.old.pending ≡ self.new.pending ++ option_to_list result }
        ensures empty { IfNone result (self.new.pending ≡ []) }
    {
        self.pending.pop()
    }

    /// The subcircuit of this name is marked.
    fn has(&self, subs: &Subs, name: &Name) -> bool
        ensures marked { result ≡ is_marked subs.now self.now name.now }
    {
        match subs.place_of(name) {
            Some(place) => self.marks.get(place).copied().unwrap_or(false),
            None => false,
        }
    }

    /// Marks the subcircuit at a place.
    fn mark(&mut self, place: usize) -> Result<(), AllocError>
        requires within { place < length self.old.marks }
        ensures marked { OnOk result (self.new ≡ marked_by place self.old) }
    {
        if self.marks[place] {
            return Ok(());
        }
        self.pending.push(place)?;
        self.marks[place] = true;
        Ok(())
    }

    /// Marks the subcircuit of a name, if there is one.
    fn mark_name(&mut self, subs: &Subs, name: &Name) -> Result<(), AllocError>
        requires sized { length self.old.marks ≡ length subs.now }
        ensures marked { OnOk result (self.new ≡ marked_all subs.now (name.now ∷ []) self.old) }
    {
        match subs.place_of(name) {
            Some(place) => self.mark(place),
            None => Ok(()),
        }
    }

    /// Marks what a card calls.
    fn mark_callee(&mut self, subs: &Subs, card: &Body) -> Result<(), AllocError>
        requires sized { length self.old.marks ≡ length subs.now }
        ensures marked { OnOk result
            (self.new ≡ marked_all subs.now (callees (bodies_value (card.now ∷ []))) self.old) }
    {
        match card {
            Body::Dev(_, _) => Ok(()),
            Body::Call(_, call) => self.mark_name(subs, call.sub()),
        }
    }

    /// Marks what cards call.
    fn mark_callees(&mut self, subs: &Subs, cards: &[Body]) -> Result<(), AllocError>
        requires sized { length self.old.marks ≡ length subs.now }
        ensures marked { OnOk result
            (self.new ≡ marked_all subs.now (callees (bodies_value cards.now)) self.old) }
    {
        let mut rest = cards;
        while let [card, behind @ ..] = rest {
            self.mark_callee(subs, card)?;
            rest = behind;
        }
        Ok(())
    }

    /// Marks what the subcircuit at a place calls.
    fn look_at(&mut self, subs: &Subs, place: usize) -> Result<(), AllocError>
        requires sized { length self.old.marks ≡ length subs.now }
        ensures marked { OnOk result
            (self.new ≡ marked_all subs.now (called_names (slice_get subs.now place)) self.old) }
    {
        match subs.as_slice().get(place) {
            Some(sub) => self.mark_callees(subs, sub.cards()),
            None => Ok(()),
        }
    }
}

/// Marks a subcircuit and all that it leads to.
fn marked_from(alloc: Global, subs: &Subs, target: &Sub) -> Result<Walk, AllocError>
    requires among { IsAmong subs.now target.now }
    ensures reached { IfOk result
        (λ w. (name : List ℕ) → is_marked subs.now w name ≡ decks.reaches subs.now target.now name) }
{
    let mut walk = Walk::new(alloc, subs.len())?;
    walk.mark_name(subs, target.head().name())?;
    while let Some(place) = walk.next() {
        walk.look_at(subs, place)?;
    }
    Ok(walk)
}

/// The target is the subcircuit of this name, or leads to it.
pub fn reaches(alloc: Global, subs: &Subs, target: &Sub, name: &Name) -> Result<bool, AllocError>
    requires among { IsAmong subs.now target.now }
    ensures reaches { IfOk result (λ b. b ≡ decks.reaches subs.now target.now name.now) }
{
    let walk = marked_from(alloc, subs, target)?;
    Ok(walk.has(subs, name))
}
