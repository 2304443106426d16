//! Laws over the definitions: each is the contract of a function that does nothing.
ghost use Rattle.std.specs.Prelude.{◌≡◌, ◌≤◌, List, ℕ, Ok, Option, length, true};
ghost use Rattle.gl_text.specs.LogicalLines.{FILE};
ghost use Rattle.gl_text.specs.Decks.{Deck, read_deck};
ghost use Rattle.gl_text.specs.Flattening.{Flat, flatten};
ghost use Rattle.gl_known.specs.Known.{IsKnownDeck};
ghost use Rattle.gl_base.specs.Rails.{run_rails};
ghost use Rattle.gl_base.specs.Libraries.{Library, read_library};
ghost use Rattle.gl_base.specs.Keeping.{unknown_keep};
ghost use Rattle.gl_base.specs.Rounds.{source_of};
ghost use Rattle.gl_lifting.specs.LiftJobs.{Texts as TextsValue};
ghost use Rattle.gl_lifting.specs.Lifted.{Options, IsLifted, IsRestored};
ghost use Rattle.gl_lifting.specs.Runs.{run_of};
ghost use Rattle.gl_lifting.specs.OutLimits.{OutLimit as LimitValue};
ghost use Rattle.gl_lift.specs.Lifting.{lifted_flat, HaveLimit};
ghost use Rattle.gl_lift.specs.Counted.{HaveCounted};
ghost use Rattle.gl_lift.specs.Written.{IsWritten};
ghost use Rattle.gl_flat.specs.PlainFlats.{plain};
ghost use Rattle.gl_cells.specs.KnownLibraries.{IsKnownLibrary};
ghost use Rattle.gl_lib.specs.Sources.{AreSound};
ghost use Rattle.gl_lift.specs.Liftable.{IsLiftable, IsSearchable};

use gl_lengths::limits_are_counted;
use gl_lifting::{histories_are_lawful, what_is_lifted_can_be_restored};

/// A deck that was read is lifted, and a library that was read is searched.
pub fn read_values_are_lifted()
    ensures deck { (deck : Deck) → IsKnownDeck FILE deck → IsLiftable deck }
    ensures library { (library : Library) → IsKnownLibrary library → IsSearchable library }
{}

/// A deck that was read from a file is lifted, and a library that was read from a file is searched.
pub fn read_files_are_lifted()
    ensures deck { (bytes : List ℕ) (deck : Deck)
        → length bytes ≤ FILE → read_deck true bytes ≡ Ok deck → IsLiftable deck }
    ensures library { (bytes : List ℕ) (library : Library)
        → length bytes ≤ FILE → read_library bytes ≡ Ok library → IsSearchable library }
{}

/// Of the flat deck of a deck that is lifted, whatever its top, and of a library that is searched, circuit and cells are made.
pub fn flat_decks_are_sound()
    ensures sound { (deck : Deck) (library : Library) (top : Option (List ℕ)) (flat : Flat)
        → IsLiftable deck → IsSearchable library
        → flatten deck (run_rails deck.globals library.deck.globals) top ≡ Ok flat
        → AreSound (plain flat) library }
{}

/// The texts of a flat deck with its devices at the top are those of the flat deck, whatever names are kept, with the limit
/// that is counted; and so is the first of these names that is unknown.
pub fn plain_texts_are_texts()
    ensures counted { (keep : List (List ℕ)) (flat : Flat) (library : Library)
        (limit : Option LimitValue) (texts : TextsValue)
        → HaveCounted (run_of (plain flat) library keep) (plain flat) limit texts
        → HaveCounted (run_of flat library keep) flat limit texts }
    ensures unknown { (keep : List (List ℕ)) (flat : Flat) (library : Library)
        → unknown_keep keep (source_of (plain flat) library) ≡ unknown_keep keep (source_of flat library) }
{}

/// The limit that is counted of the texts of a deck and a library that were read is the one that they pass first.
pub fn counted_limits_are_limits()
    ensures limit { (deck_bytes library_bytes : List ℕ) (o : Options) (deck : Deck)
        (library : Library) (flat : Flat) (limit : Option LimitValue) (texts : TextsValue)
        → read_deck true deck_bytes ≡ Ok deck → read_library library_bytes ≡ Ok library
        → lifted_flat o.top o.keep deck library ≡ Ok flat
        → HaveCounted (run_of flat library o.keep) flat limit texts
        → HaveLimit (run_of flat library o.keep) flat limit texts }
{
    histories_are_lawful();
    limits_are_counted();
}

/// The lift theorem of what is written: the texts of a deck and a library that were read are what was lifted, so the lifted deck
/// and the map lead back to the flat deck.
pub fn texts_lead_back()
    ensures lifted { (deck_bytes library_bytes : List ℕ) (o : Options) (texts : TextsValue)
        → (is : IsWritten deck_bytes library_bytes o texts) → IsLifted deck_bytes library_bytes o texts.lifted texts.map texts.report }
    ensures restored { (deck_bytes library_bytes : List ℕ) (o : Options) (texts : TextsValue)
        → (is : IsWritten deck_bytes library_bytes o texts) → IsRestored o.top texts.lifted texts.map is.flat }
{
    what_is_lifted_can_be_restored();
}
