ghost use Rattle.std.specs.Prelude.{◌≡◌, List, None, Ok, Option, Some, ℕ, codes};
ghost use Rattle.gl_text.specs.Decks.{Deck};
ghost use Rattle.gl_text.specs.Flattening.{Flat, flat_job, flat_text, flatten};
ghost use Rattle.gl_flat.specs.PlainFlats.{plain};
ghost use Rattle.gl_printed.specs.FlatDecks.{deck_of};

/// A flat deck with all its devices at the top is, as a deck, the same deck, and has the same text.
pub fn flat_decks_stay()
    ensures deck { (flat : Flat) → deck_of (plain flat) ≡ deck_of flat }
    ensures text { (flat : Flat) → flat_text (plain flat) ≡ flat_text flat }
{}

/// A flat deck flattens, as a deck, with the top that it was made with, to itself with all its devices at the top.
pub fn flat_decks_flatten_again()
    ensures again { (deck : Deck) (rails : List (List ℕ)) (top : Option (List ℕ)) (flat : Flat)
        → flatten deck rails top ≡ Ok flat → flatten (deck_of flat) flat.rails top ≡ Ok (plain flat) }
{}

/// The text of a flat deck flattens to itself, with the top that it was made with, and without one if it was made
/// without.
pub fn flat_texts_flatten_to_themselves()
    ensures again { (top : Option (List ℕ)) (bytes text : List ℕ)
        → flat_job top bytes ≡ Ok text → flat_job top text ≡ Ok text }
    ensures without_top { (bytes text : List ℕ) → flat_job None bytes ≡ Ok text
        → flat_job None text ≡ Ok text }
{}
