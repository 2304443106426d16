//! Laws over the definitions: each is the contract of a function that does nothing.
ghost use Rattle.std.specs.Prelude.{◌≡◌, ◌≤◌, ◌+◌, ℕ, List, Ok, length};
ghost use Rattle.gl_lifting.specs.NameMaps.{NameMap};
ghost use Rattle.gl_lifting.specs.MapReading.{read_map};
ghost use Rattle.gl_lifting.specs.Chain.{HasNames};

/// A map that is read has names that are names, no new name twice, and no more lines than bytes.
pub fn read_maps_have_names()
    ensures names { (bytes : List ℕ) (map : NameMap) → read_map bytes ≡ Ok map → HasNames map }
    ensures few { (bytes : List ℕ) (map : NameMap) → read_map bytes ≡ Ok map → length map.devices + length map.nets ≤ length bytes }
{}
