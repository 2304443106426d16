//! The variants of the chosen instances of a run.
ghost use Rattle.std.specs.Prelude.{◌≡◌, ◌<◌, [], ℕ, length, map, All, IfOk, OnOk};
ghost use Rattle.gl_base.specs.Rounds.{cards_of};
ghost use Rattle.gl_lifting.specs.Variants.{variant_of, carried_from};
ghost use Rattle.gl_lifting.specs.Replacement.{base};
ghost use Rattle.gl_write.specs.Keys.{carried_by};
ghost use Rattle.gl_found.specs.Founds as founds;
ghost use Rattle.gl_found.specs.Founds.{Found as FoundValue};
ghost use Rattle.gl_write.specs.Variants.{carried_part, variant_in, with_variant, variants_in};

use crate::carried::{Carried, Matched};
use crate::variant::Variant;
use gl_deck::Sub;
use gl_flat::Flat;
use gl_found::Found;
use gl_history::Origin;
use gl_legal::{DevId, Spot};
use gl_match::Memory;
use indexmap::IndexSet;
use std::alloc::Global;
use std::marker::Model;

/// The different variants of chosen instances, and the number of the variant of each. Contracts see them as the definition of
/// variants has them. A variant is looked up whole.
#[derive(Drop)]
pub struct Variants<'a> {
    different: IndexSet<Variant<'a>>,
    numbers: Vec<u32>,
}

impl<'a> Model for Variants<'a> {
    ghost use Rattle.gl_lifting.specs.Variants.{Variants as VariantsValue};

    ghost Value = { VariantsValue };

    ghost view = { λ v. record { different = v.different.keys; numbers = v.numbers.items } };
}

/// The number of the variant of a composite.
pub fn number_in(numbers: &[u32], composite: u32) -> u32
    ensures number { result ≡ variant_of numbers.now composite }
{
    let Some(place) = composite.checked_sub(1) else {
        return 0;
    };
    match numbers.get(place as usize) {
        Some(number) => *number,
        None => 0,
    }
}

/// What a card was matched with that went to an original device.
#[tactic(auto, using(crate::proofs::KeptLaws::carried_there, crate::proofs::KeptLaws::carried_absent))]
fn matched_device<'a>(flat: &'a Flat, dev: DevId) -> Matched<'a>
    ensures matched { (turn : ℕ) → carried_by turn result
        ≡ carried_from (cards_of flat.now) [] turn (base dev) }
{
    match flat.devices().get(dev.0 as usize) {
        Some(device) => Matched::Device(device.model(), device.tail().as_bytes()),
        None => Matched::Device(None, &[]),
    }
}

/// What a card carries that went to a spot.
fn carried_at<'a>(flat: &'a Flat, numbers: &[u32], found: &Found<'_>, spot: &Spot) -> Carried<'a>
    ensures carried { result
        ≡ carried_part (cards_of flat.now) numbers.now (founds.part_at found.now.origins spot.now) }
{
    let matched = match found.origin(spot.dev) {
        Origin::Base(dev) => matched_device(flat, dev),
        Origin::Made(composite) => Matched::Variant(number_in(numbers, composite)),
    };
    Carried {
        turn: spot.turn,
        matched,
    }
}

/// What the cards of a chosen instance's cell carry.
fn carried_all<'a>(
    alloc: Global,
    flat: &'a Flat,
    numbers: &[u32],
    found: &Found<'_>,
) -> Result<Vec<Carried<'a>>, Memory>
    ensures carried { IfOk result (λ cards. cards.items
        ≡ map (carried_part (cards_of flat.now) numbers.now) (founds.parts_of found.now)) }
{
    let instance = found.instance;
    let spots = instance.least.as_slice();
    let mut cards = Vec::with_capacity(alloc, spots.len())?;
    for spot in spots {
        cards.push(carried_at(flat, numbers, found, spot))?;
    }
    Ok(cards)
}

/// The variant of a chosen instance.
fn variant_of_found<'a>(
    alloc: Global,
    flat: &'a Flat,
    subs: &'a [Sub],
    numbers: &[u32],
    found: &Found<'_>,
) -> Result<Variant<'a>, Memory>
    requires known { found.now.cell < length subs.now }
    ensures variant { IfOk result (λ v. v
        ≡ variant_in (cards_of flat.now) subs.now numbers.now found.now) }
{
    let cards = carried_all(alloc, flat, numbers, found)?;
    Ok(Variant {
        cell: &subs[found.cell as usize],
        cards,
    })
}

impl<'a> Variants<'a> {
    /// No variants.
    fn none(alloc: Global) -> Variants<'a>
        ensures none { result ≡ record { different = []; numbers = [] } }
    {
        Variants {
            different: IndexSet::new(alloc),
            numbers: Vec::new(alloc),
        }
    }

    /// Adds the variant of one more chosen instance. No memory holds more variants than there are numbers.
    fn add(&mut self, variant: Variant<'a>) -> Result<(), Memory>
        ensures added { OnOk result (self.new ≡ with_variant self.old variant.entry) }
    {
        let (place, _) = self.different.insert_full(variant)?;
        let Ok(number) = u32::try_from(place) else {
            return Err(Memory);
        };
        self.numbers.push(number)?;
        Ok(())
    }

    /// The variants of chosen instances, numbered from 0 in the order of the first instance that has each.
    pub fn of(
        alloc: Global,
        flat: &'a Flat,
        subs: &'a [Sub],
        found: &[Found<'_>],
    ) -> Result<Variants<'a>, Memory>
        requires known { All (λ (f : FoundValue). f.cell < length subs.now) found.now }
        ensures variants { IfOk result (λ vs. vs
            ≡ variants_in (cards_of flat.now) subs.now found.now) }
    {
        let mut variants = Variants::none(alloc);
        for f in found {
            let variant = variant_of_found(alloc, flat, subs, &variants.numbers, f)?;
            variants.add(variant)?;
        }
        Ok(variants)
    }

    /// The different variants, by their numbers.
    pub fn different(&self) -> &[Variant<'a>]
        ensures different { result.now ≡ self.now.different }
    {
        self.different.as_slice()
    }

    /// The number of the variant of each chosen instance, from that of number 1 on.
    pub fn numbers(&self) -> &[u32]
        ensures numbers { result.now ≡ self.now.numbers }
    {
        &self.numbers
    }
}
