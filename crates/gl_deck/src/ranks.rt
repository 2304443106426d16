ghost use Rattle.std.specs.Prelude.{◌≡◌, ◌+◌, ◌*◌, ◌<◌, ◌≤◌, ◌^◌, ◌==◌, ℕ, [], ◌∷◌, ◌++◌, IfOk, OnOk, if◌then◌else◌, length, slice_get, slice_index};
ghost use Rattle.gl_text.specs.Levels.{Down};
ghost use Rattle.gl_deck.specs.Bodies.{bodies_value, body_value};
ghost use Rattle.gl_deck.specs.CallCounts.{calls_from, calls_on, cards_at, times, uncalled_at};
ghost use Rattle.gl_deck.specs.Ranks.{AreRanks, NoneBack, rank_in};

use crate::places::called_place;
use crate::{Body, Name, Sub, Subs};
use std::alloc::{AllocError, Global};

/// The rank of the subcircuit of this name; 0 where there is none.
pub fn rank_of(subs: &Subs, ranks: &[usize], name: &Name) -> usize
    ensures rank { result ≡ rank_in subs.now ranks.now name.now }
{
    match subs.place_of(name) {
        Some(place) => ranks.get(place).copied().unwrap_or(0),
        None => 0,
    }
}

/// One more call of the subcircuit at a place.
fn count(calls: &mut [u128], place: usize)
    requires within { place < length calls.old }
    requires room { slice_index calls.old place + 1 < 2 ^ 128 }
    ensures counted { (p : ℕ) → slice_index calls.new p
        ≡ slice_index calls.old p + times p (place ∷ []) }
{
    calls[place] += 1;
}

/// Counts the call that a card is, if it calls a subcircuit of the table.
fn count_card(calls: &mut [u128], subs: &Subs, card: &Body)
    requires sized { length calls.old ≡ length subs.now }
    requires room { (p : ℕ) → slice_index calls.old p + 1 < 2 ^ 128 }
    ensures counted { (p : ℕ) → slice_index calls.new p
        ≡ slice_index calls.old p + calls_on subs.now (body_value card.now ∷ []) p }
{
    if let Some(place) = called_place(subs, card) {
        count(calls, place);
    }
}

/// Counts the calls that stand on these cards.
fn count_cards(calls: &mut [u128], subs: &Subs, cards: &[Body])
    requires sized { length calls.old ≡ length subs.now }
    requires room { (p : ℕ) → slice_index calls.old p + length cards.now < 2 ^ 128 }
    ensures counted { (p : ℕ) → slice_index calls.new p
        ≡ slice_index calls.old p + calls_on subs.now (bodies_value cards.now) p }
{
    let mut rest = cards;
    while let [card, behind @ ..] = rest {
        count_card(calls, subs, card);
        rest = behind;
    }
}

/// Counts the calls of these subcircuits.
fn count_callers(calls: &mut [u128], subs: &Subs, callers: &[Sub])
    requires sized { length calls.old ≡ length subs.now }
    requires room { (p : ℕ) → slice_index calls.old p + length callers.now * 2 ^ 64 < 2 ^ 128 }
    ensures counted { (p : ℕ) → slice_index calls.new p
        ≡ slice_index calls.old p + calls_from subs.now callers.now p }
{
    let mut rest = callers;
    while let [sub, behind @ ..] = rest {
        count_cards(calls, subs, sub.cards());
        rest = behind;
    }
}

/// For each subcircuit, how many cards of subcircuits call it.
fn call_counts(alloc: Global, subs: &Subs) -> Result<Vec<u128>, AllocError>
    ensures sized { IfOk result (λ calls. length calls.items ≡ length subs.now) }
    ensures counted { IfOk result (λ calls. (p : ℕ)
        → slice_index calls.items p ≡ calls_from subs.now subs.now p) }
{
    let mut calls = vec![in alloc; 0; subs.len()]?;
    count_callers(&mut calls, subs, subs.as_slice());
    Ok(calls)
}

/// A place is added to those that are ready, where nothing calls it.
fn add_uncalled(ready: &mut Vec<usize>, calls: &[u128], place: usize) -> Result<(), AllocError>
    requires within { place < length calls.now }
    ensures added { OnOk result (ready.new.items
        ≡ ready.old.items ++ (if slice_index calls.now place == 0 then place ∷ [] else [])) }
{
    if calls[place] == 0 {
        ready.push(place)?;
    }
    Ok(())
}

/// The places of the subcircuits that nothing calls, each once.
fn uncalled(alloc: Global, calls: &[u128]) -> Result<Vec<usize>, AllocError>
    ensures each_once { IfOk result
        (λ places. (p : ℕ) → times p places.items ≡ uncalled_at calls.now p) }
{
    let mut places = Vec::new(alloc);
    for place in 0..calls.len() {
        add_uncalled(&mut places, calls, place)?;
    }
    Ok(places)
}

/// One call less of the subcircuit at a place, which is ready once nothing calls it.
fn release(calls: &mut [u128], ready: &mut Vec<usize>, place: usize) -> Result<(), AllocError>
    requires within { place < length calls.old }
    requires called { 0 < slice_index calls.old place }
    ensures fewer { OnOk result
        ((p : ℕ) → slice_index calls.old p ≡ slice_index calls.new p + times p (place ∷ [])) }
    ensures freed { OnOk result ((p : ℕ) → times p ready.new.items + uncalled_at calls.old p
        ≡ times p ready.old.items + uncalled_at calls.new p) }
{
    calls[place] -= 1;
    add_uncalled(ready, calls, place)
}

/// Takes the call away that a card is.
fn release_card(
    calls: &mut [u128],
    ready: &mut Vec<usize>,
    subs: &Subs,
    card: &Body,
) -> Result<(), AllocError>
    requires sized { length calls.old ≡ length subs.now }
    requires called { (p : ℕ)
        → calls_on subs.now (body_value card.now ∷ []) p ≤ slice_index calls.old p }
    ensures fewer { OnOk result ((p : ℕ) → slice_index calls.old p
        ≡ slice_index calls.new p + calls_on subs.now (body_value card.now ∷ []) p) }
    ensures freed { OnOk result ((p : ℕ) → times p ready.new.items + uncalled_at calls.old p
        ≡ times p ready.old.items + uncalled_at calls.new p) }
{
    match called_place(subs, card) {
        Some(place) => release(calls, ready, place),
        None => Ok(()),
    }
}

/// Takes the calls on these cards away.
fn release_cards(
    calls: &mut [u128],
    ready: &mut Vec<usize>,
    subs: &Subs,
    cards: &[Body],
) -> Result<(), AllocError>
    requires sized { length calls.old ≡ length subs.now }
    requires called { (p : ℕ)
        → calls_on subs.now (bodies_value cards.now) p ≤ slice_index calls.old p }
    ensures fewer { OnOk result ((p : ℕ) → slice_index calls.old p
        ≡ slice_index calls.new p + calls_on subs.now (bodies_value cards.now) p) }
    ensures freed { OnOk result ((p : ℕ) → times p ready.new.items + uncalled_at calls.old p
        ≡ times p ready.old.items + uncalled_at calls.new p) }
{
    let mut rest = cards;
    while let [card, behind @ ..] = rest {
        release_card(calls, ready, subs, card)?;
        rest = behind;
    }
    Ok(())
}

/// Takes the calls of the subcircuit at a place away.
fn release_calls(
    calls: &mut [u128],
    ready: &mut Vec<usize>,
    subs: &Subs,
    place: usize,
) -> Result<(), AllocError>
    requires sized { length calls.old ≡ length subs.now }
    requires called { (p : ℕ)
        → calls_on subs.now (cards_at (slice_get subs.now place)) p ≤ slice_index calls.old p }
    ensures fewer { OnOk result ((p : ℕ) → slice_index calls.old p
        ≡ slice_index calls.new p + calls_on subs.now (cards_at (slice_get subs.now place)) p) }
    ensures freed { OnOk result ((p : ℕ) → times p ready.new.items + uncalled_at calls.old p
        ≡ times p ready.old.items + uncalled_at calls.new p) }
{
    match subs.as_slice().get(place) {
        Some(sub) => release_cards(calls, ready, subs, sub.cards()),
        None => Ok(()),
    }
}

/// Numbers of the subcircuits, by their places, by which no call of a subcircuit goes up. Where no subcircuit leads back to
/// itself, each call goes down.
pub fn ranks(alloc: Global, subs: &Subs) -> Result<Vec<usize>, AllocError>
    ensures not_up { IfOk result (λ ranks. AreRanks subs.now ranks.items) }
    ensures down { IfOk result (λ ranks. NoneBack subs.now
        → Down (rank_in subs.now ranks.items) subs.now) }
{
    let mut calls = call_counts(alloc, subs)?;
    let mut ready = uncalled(alloc, &calls)?;
    let mut ranks = vec![in alloc; 0; subs.len()]?;
    let mut next = subs.len();
    // What nothing calls any more is next; the numbers go down to 1.
    while let Some(place) = ready.pop() {
        ranks[place] = next;
        next -= 1;
        release_calls(&mut calls, &mut ready, subs, place)?;
    }
    Ok(ranks)
}
