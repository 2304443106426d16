ghost use Rattle.std.specs.Prelude.{◌≡◌};
ghost use Rattle.std.proofs.Common.{ap};
ghost use Rattle.std.specs.Hash as fed;
ghost use Rattle.std.specs.Cmp.{partial_equiv_from_equiv};
ghost use Rattle.gl_lifting.specs.Variants.{same_carried};
ghost use Rattle.gl_variant.specs.Hashes.{carried_hashed};
ghost use Rattle.gl_variant.proofs.KeyLaws.{same_carried_equiv, exact};

use gl_line::Name;
use std::hash::{Hash, Hasher};
use std::marker::Model;

/// What a card of a composite's cell was matched with.
#[derive(Debug, Drop)]
pub enum Matched<'a> {
    /// A device with this model and this tail.
    Device(Option<&'a Name>, &'a [u8]),
    /// A composite of the variant of this number.
    Variant(u32),
}

/// What a card of a variant carries. Contracts see it as the definition of variants has it.
#[derive(Debug, Drop)]
pub struct Carried<'a> {
    /// The number of its turn.
    pub turn: u32,
    /// What it was matched with.
    pub matched: Matched<'a>,
}

impl<'a> Model for Carried<'a> {
    ghost use Rattle.gl_lifting.specs.Variants.{Carried as CarriedValue};
    ghost use Rattle.gl_write.specs.Keys.{carried_by};

    ghost Value = { CarriedValue };

    ghost view = { λ c. carried_by c.turn c.matched };
}

impl<'a> PartialEq for Carried<'a> {
    ghost eq = { same_carried };

    ghost laws = { partial_equiv_from_equiv same_carried_equiv };

    fn eq(&self, other: &Self) -> bool {
        if self.turn != other.turn {
            return false;
        }
        match (&self.matched, &other.matched) {
            (Matched::Device(model, tail), Matched::Device(model_too, tail_too)) => {
                model == model_too && tail == tail_too
            }
            (Matched::Variant(number), Matched::Variant(number_too)) => number == number_too,
            _ => false,
        }
    }
}

impl<'a> Eq for Carried<'a> {
    ghost laws = { same_carried_equiv };
}

impl<'a> Hash for Carried<'a> {
    ghost hash_input = { λ c. carried_hashed c };

    ghost respects_eq = { λ x y h. ap (λ c. carried_hashed c) (exact x y h) };

    fn hash<H: Hasher>(&self, state: &mut H) {
        match &self.matched {
            Matched::Device(_, tail) => tail.hash(state),
            Matched::Variant(number) => number.hash(state),
        }
    }
}
