ghost use Rattle.std.specs.Prelude.{◌≡◌, Some, nat_eq, refl, IfOk};
ghost use Rattle.std.specs.Cmp.Lexicographic.{pointwise, slice_cmp, nat_list_eq_equiv, nat_list_cmp_total, texts_ties, texts_po};
ghost use Rattle.std.specs.Cmp.{partial_equiv_from_equiv};
ghost use Rattle.std.specs.Cmp.Rules.{hashing};
ghost use Rattle.std.proofs.Common.{rules};
ghost use Rattle.std.specs.Ordering.{nat_cmp};
ghost use Rattle.std.specs.Hash as fed;
ghost use Rattle.gl_text.specs.LogicalLines.{folded};

use crate::packed::Packed;
use gl_fault::Memory;
use std::alloc::Global;
use std::cmp::Ordering;
use std::hash::{Hash, Hasher};
use std::marker::Model;

/// A name: its bytes, folded to lower case where it was read; up to 22 stand in place. Contracts see it as the list of
/// its bytes.
#[derive(Debug, Drop)]
pub struct Name {
    bytes: Packed,
}

impl Model for Name {
    ghost use Rattle.std.specs.Prelude.{ℕ, List};

    ghost Value = { List ℕ };

    ghost view = { λ n. n.bytes };
}

impl Name {
    /// The name of the bytes as they stand.
    pub fn of(alloc: Global, bytes: &[u8]) -> Result<Name, Memory>
        ensures bytes { IfOk result (λ name. name ≡ bytes.now) }
    {
        Ok(Name {
            bytes: Packed::of(alloc, bytes)?,
        })
    }

    /// The name of the bytes of a piece of memory as they stand.
    pub fn from_vec(alloc: Global, bytes: Vec<u8>) -> Result<Name, Memory>
        ensures bytes { IfOk result (λ name. name ≡ bytes.items) }
    {
        Ok(Name {
            bytes: Packed::from_vec(alloc, bytes)?,
        })
    }

    /// The name that a field gives: its bytes, large letters as small ones.
    pub fn folded(alloc: Global, field: &[u8]) -> Result<Name, Memory>
        ensures folded { IfOk result (λ name. name ≡ folded field.now) }
    {
        Ok(Name {
            bytes: Packed::folded(alloc, field)?,
        })
    }

    /// Its bytes.
    pub fn as_bytes(&self) -> &[u8]
        ensures bytes { result.now ≡ self.now }
    {
        self.bytes.as_bytes()
    }
}

impl PartialEq for Name {
    ghost eq = { pointwise nat_eq };

    ghost laws = { partial_equiv_from_equiv nat_list_eq_equiv };

    fn eq(&self, other: &Self) -> bool {
        self.as_bytes() == other.as_bytes()
    }
}

impl Eq for Name {
    ghost laws = { nat_list_eq_equiv };
}

impl PartialOrd for Name {
    ghost partial_cmp = { λ x y. Some (slice_cmp nat_cmp x y) };

    ghost laws = { texts_po };

    fn partial_cmp(&self, other: &Self) -> Option<Ordering> {
        Some(self.cmp(other))
    }
}

impl Ord for Name {
    ghost cmp = { slice_cmp nat_cmp };

    ghost total = { nat_list_cmp_total };

    ghost matches_partial_cmp = { λ x y. refl };

    ghost matches_eq = { texts_ties };

    fn cmp(&self, other: &Self) -> Ordering {
        self.as_bytes().cmp(other.as_bytes())
    }
}

impl Hash for Name {
    ghost hash_input = { fed.slice fed.u8 };

    ghost respects_eq = { Prim.search (hashing, rules) };

    fn hash<H: Hasher>(&self, state: &mut H) {
        self.as_bytes().hash(state);
    }
}
