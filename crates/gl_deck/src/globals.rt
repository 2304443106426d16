ghost use Rattle.std.specs.Prelude.{◌≡◌, codes, not, filter, IfOk, OnOk};
ghost use Rattle.gl_text.specs.LogicalLines.{same_text};
ghost use Rattle.gl_text.specs.Decks as decks;
ghost use Rattle.indexmap.specs.IndexSet.{insert_all};

use crate::{Memory, Name};
use indexmap::IndexSet;
use std::alloc::{AllocError, Global};

/// The name is `0`.
fn is_zero(name: &Name) -> bool
    ensures zero { result ≡ same_text name.now (codes "0") }
{
    name.as_bytes() == b"0".as_slice()
}

/// One of the names is `0`.
pub fn has_zero(names: &[Name]) -> bool
    ensures zero { result ≡ decks.is_in (codes "0") names.now }
{
    names.iter().any(|name| is_zero(name))
}

/// A name stands twice.
pub fn has_twice(alloc: Global, names: &[Name]) -> Result<bool, AllocError>
    ensures twice { IfOk result (λ twice. twice ≡ decks.has_twice names.now) }
{
    let mut known = IndexSet::new(alloc);
    let mut left = names;
    while let [name, behind @ ..] = left {
        if !known.insert(Name::of(alloc, name.as_bytes())?)? {
            return Ok(true);
        }
        left = behind;
    }
    Ok(false)
}

/// Adds names that are not there yet.
pub fn add_names(known: &mut IndexSet<Name>, names: Vec<Name>) -> Result<(), Memory>
    ensures added { OnOk result (known.new.keys ≡ insert_all same_text known.old.keys names.items) }
{
    for name in names {
        known.insert(name)?;
    }
    Ok(())
}

/// The names but `0`, in order.
pub fn drop_zero(alloc: Global, names: IndexSet<Name>) -> Result<Vec<Name>, AllocError>
    ensures names { IfOk result
        (λ kept. kept.items ≡ filter (λ n. not (same_text n (codes "0"))) names.keys) }
{
    names
        .into_iter()
        .filter(|name| !is_zero(name))
        .collect(alloc)
}
