//! Laws over the definitions: each is the contract of a function that does nothing.
ghost use Rattle.std.specs.Prelude.{◌≡◌, ◌↔◌, ℕ, List, [], ◌∷◌, Some, None, codes, false, true, Contains, slice_get, map};
ghost use Rattle.std.specs.Cmp.{IsEquivalence};
ghost use Rattle.gl_text.specs.Cards.{Device as Card};
ghost use Rattle.gl_text.specs.Decks.{has_twice, once};
ghost use Rattle.gl_text.specs.CellCards.{IsCellOf};
ghost use Rattle.gl_match.specs.declared.role.Role.TheVariants.{Port, Rail, Inner};
ghost use Rattle.gl_base.specs.Rails.{run_rails, AreRails};
ghost use Rattle.gl_base.specs.TypeNames.{TypeName, same_type, classes_of, of_letter, of_cell};
ghost use Rattle.gl_base.specs.BaseCircuit.{circuit_of, nets_of, net_number};
ghost use Rattle.gl_base.specs.Patterns.{pattern_of, IsSound};
ghost use Rattle.gl_base.specs.Stems.{IsStem, stands_in, stem_of};
ghost use Rattle.gl_base.specs.Tried.{is_listed};
ghost use Rattle.std.specs.List.{list_any, AllZip};
ghost use Rattle.gl_match.specs.Graph.{Circuit as Graph, Pattern as Cell};
ghost use Rattle.gl_match.specs.LegalTests.{all_zip};
ghost use Rattle.gl_match.specs.Listing.{Instance, Listed};

/// Each name stands once, and no other name stands there.
pub fn names_stand_once()
    ensures differ { (names : List (List ℕ)) → has_twice (once names) ≡ false }
    ensures kept { (names : List (List ℕ)) (name : List ℕ)
        → Contains names name → Contains (once names) name }
    ensures none_new { (names : List (List ℕ)) (name : List ℕ)
        → Contains (once names) name → Contains names name }
{}

/// The rails of a run differ, and `0` is none of them.
pub fn rails_differ()
    ensures rails { (deck library : List (List ℕ)) → AreRails (run_rails deck library) }
{}

/// The number of the net at a place of a device leads back to the name there.
pub fn numbers_lead_back()
    ensures name { (devices : List Card) (card : Card) (name : List ℕ)
        → Contains devices card → Contains card.nodes name
        → slice_get (nets_of devices) (net_number (nets_of devices) name) ≡ Some name }
{}

/// The test of types is true of equal types alone, and an equivalence.
pub fn same_types_are_equal()
    ensures equivalence { IsEquivalence same_type }
    ensures equal { (first second : TypeName) → (same_type first second ≡ true) ↔ (first ≡ second) }
{}

/// The stem and the lists that are computed by trying are those of the definitions, where the tests hold.
pub fn tried_stems_and_lists()
    ensures stem { (names : List (List ℕ))
        → list_any (stands_in (stem_of names)) names ≡ false → IsStem names (stem_of names) }
    ensures lists { (c : Graph) (patterns : List Cell) (lists : List (List Instance))
        → all_zip (is_listed c) patterns lists ≡ true → AllZip (Listed c) patterns lists }
{}
