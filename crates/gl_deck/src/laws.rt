//! Laws over the definitions: each is the contract of a function that does nothing.
ghost use Rattle.std.specs.Prelude.{◌≡◌, ◌+◌, ℕ, List, Bool, length};
ghost use Rattle.gl_text.specs.Decks.{Sub, read_deck};
ghost use Rattle.gl_deck.specs.Drafts.{deck_by_draft};
ghost use Rattle.gl_deck.specs.Ranks.{AllThere, HasRank, NoneBack};

/// The deck that is read line by line is the deck of the definition, with the same refusals.
pub fn lines_make_the_deck()
    ensures same { (has_title : Bool) (bytes : List ℕ)
        → deck_by_draft has_title bytes ≡ read_deck has_title bytes }
{}

/// Where no subcircuit leads back to itself, there is a rank by which each call goes down. It is at most the number of
/// subcircuits, and below it where each call is of a subcircuit that is there.
pub fn tables_have_ranks()
    ensures at_most { (subs : List Sub) → NoneBack subs → HasRank subs (length subs + 1) }
    ensures below { (subs : List Sub) → NoneBack subs → AllThere subs → HasRank subs (length subs) }
{}
