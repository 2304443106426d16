ghost use Rattle.std.specs.Prelude.{◌≡◌, ◌≤◌, ℕ, [], List, length, Ok};
ghost use Rattle.gl_text.specs.LogicalLines.{FILE};
ghost use Rattle.gl_text.specs.Decks.{Sub, callees};
ghost use Rattle.gl_text.specs.CellCards.{devices_in, IsCellOf};
ghost use Rattle.gl_base.specs.Libraries.{Library, read_library};
ghost use Rattle.gl_cells.specs.KnownLibraries.{IsKnownLibrary, IsSearchedCell};

/// What is known of a library that is read from a file that is not too long, and of a cell of devices that is searched.
pub fn read_libraries_are_known()
    ensures known { (bytes : List ℕ) (l : Library)
        → length bytes ≤ FILE → read_library bytes ≡ Ok l → IsKnownLibrary l }
    ensures of_devices { (s : Sub) → IsSearchedCell s → callees s.cards ≡ []
        → IsCellOf s.head (devices_in s.cards) }
{}
