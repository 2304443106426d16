ghost use Rattle.std.specs.Prelude.{◌≡◌, ℕ, List, OnOk};
ghost use Rattle.std.specs.Option.{option_or};
ghost use Rattle.indexmap.specs.IndexMap.{get};
ghost use Rattle.gl_text.specs.LogicalLines.{same_text};
ghost use Rattle.gl_restore.specs.Places.{place_if};

use crate::{Memory, Name};
use indexmap::IndexMap;
use std::alloc::Global;

/// Places in a slice, by names.
pub type Places = IndexMap<Name, usize>;

/// Notes the place of a name, if none was noted before.
pub fn note(alloc: Global, places: &mut Places, name: &Name, place: usize) -> Result<(), Memory>
    ensures noted { OnOk result ((other : List ℕ) → get same_text places.new other
        ≡ option_or (get same_text places.old other) (place_if name.now place other)) }
{
    if !places.contains_key(name) {
        let copy = Name::of(alloc, name.as_bytes())?;
        places.insert(copy, place)?;
    }
    Ok(())
}
