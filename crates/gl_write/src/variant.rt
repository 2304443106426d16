ghost use Rattle.std.specs.Cmp.{partial_equiv_from_equiv};
ghost use Rattle.gl_lifting.specs.Variants.{same_variant};
ghost use Rattle.gl_variant.specs.Hashes.{variant_hashed};
ghost use Rattle.gl_variant.proofs.KeyLaws.{same_variant_equiv, variant_alike};

use crate::carried::Carried;
use gl_deck::Sub;
use std::hash::{Hash, Hasher};
use std::marker::Model;

/// A variant of a cell, as a key of a table. Contracts see it as the definition of variants has it.
#[derive(Debug, Drop)]
pub struct Variant<'a> {
    /// The cell.
    pub cell: &'a Sub,
    /// What each of its cards carries.
    pub cards: Vec<Carried<'a>>,
}

impl<'a> Model for Variant<'a> {
    ghost use Rattle.gl_lifting.specs.Variants.{Variant as VariantValue};

    ghost Value = { VariantValue };

    ghost view = { λ v. record { cell = v.cell.now; cards = v.cards.items } };
}

impl<'a> PartialEq for Variant<'a> {
    ghost eq = { same_variant };

    ghost laws = { partial_equiv_from_equiv same_variant_equiv };

    fn eq(&self, other: &Self) -> bool {
        self.cell.head().name() == other.cell.head().name()
            && self.cards.as_slice() == other.cards.as_slice()
    }
}

impl<'a> Eq for Variant<'a> {
    ghost laws = { same_variant_equiv };
}

impl<'a> Hash for Variant<'a> {
    ghost hash_input = { variant_hashed };

    ghost respects_eq = { variant_alike };

    fn hash<H: Hasher>(&self, state: &mut H) {
        self.cell.head().name().as_bytes().hash(state);
        self.cards.as_slice().hash(state);
    }
}
