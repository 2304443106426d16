ghost use Rattle.std.specs.Prelude.{Bool, Option, ◌++◌, ◌≡◌, ◌≤◌, List, Ok, [], false, flat_map, length, map, true, ◌∷◌, ℕ};
ghost use Rattle.std.specs.List.{AllByRecursion};
ghost use Rattle.gl_text.specs.LogicalLines.{LINE, Line, logical_lines};
ghost use Rattle.gl_text.specs.Cards.{Card, ended, printed, read_card};
ghost use Rattle.gl_text.specs.Decks.{Deck, deck_text, line_of, read_deck};
ghost use Rattle.gl_text.specs.Flattening.{Flat, flat_job, flat_of, flat_text, flatten};
ghost use Rattle.gl_text.specs.WayBack.{IsOneLine, IsReadAgain};
ghost use Rattle.gl_printed.specs.ReadCards.{IsFine};
ghost use Rattle.gl_printed.specs.ReadDecks.{IsReadDeck, ReadsBack, cards_of, reprinted, unnumbered};
ghost use Rattle.gl_printed.specs.FlatDecks.{AreRails, FlatReadsBack, deck_of};
ghost use Rattle.gl_printed.specs.PrintedLines.{is_end, numbered};

/// A card that was read from one line, which is not too long, is fine.
pub fn read_cards_are_fine()
    ensures are_fine { (l : Line) (c : Card)
        → IsOneLine l.text → length l.text ≤ LINE → read_card l ≡ Ok c → IsFine c }
{}

/// A fine card that is printed is read again, on any line.
pub fn fine_cards_are_read()
    ensures are_read { (line : ℕ) (c : Card)
        → IsFine c → IsReadAgain line c }
{}

/// Fine cards, printed with `.end` behind them, are logical lines in their order, each on its own line.
pub fn printed_cards_are_lines()
    ensures are_lines { (n : ℕ) (cards : List Card)
        → AllByRecursion IsFine cards → AllByRecursion (λ c. is_end c ≡ false) cards
        → logical_lines n (flat_map line_of (cards ++ ended ∷ []))
        ≡ map Ok (numbered n (cards ++ ended ∷ [])) }
{}

/// A printed deck is its title, and then its cards, printed with `.end` behind them.
pub fn decks_are_printed_cards()
    ensures are_cards { (deck : Deck)
        → deck_text deck ≡ deck.title ++ 10 ∷ flat_map line_of (cards_of deck ++ ended ∷ []) }
{}

/// A deck as it is read, printed, reads back.
pub fn fine_decks_read_back()
    ensures read_back { (deck : Deck) → IsReadDeck deck → ReadsBack deck }
{}

/// A deck that reads back is a deck as it is read.
pub fn decks_that_read_back_are_fine()
    ensures are_fine { (deck : Deck) → ReadsBack deck → IsReadDeck deck }
{}

/// What was read, with or without a title, is a deck as it is read.
pub fn read_decks_are_fine()
    ensures are_fine { (has_title : Bool) (bytes : List ℕ) (deck : Deck)
        → read_deck has_title bytes ≡ Ok deck → IsReadDeck deck }
{}

/// The globals of a deck as it is read can be the rails of its flat deck.
pub fn globals_are_rails()
    ensures are_rails { (deck : Deck) → IsReadDeck deck → AreRails deck.globals }
{}

/// What was read, with or without a title, reads back when it is printed: the same deck, line numbers aside.
pub fn read_decks_read_back()
    ensures read_back { (has_title : Bool) (bytes : List ℕ) (deck : Deck)
        → read_deck has_title bytes ≡ Ok deck → ReadsBack deck }
{}

/// A text that was printed from what was read stays the same when it is read, with a title, and printed again.
pub fn printed_texts_stay()
    ensures stay { (has_title : Bool) (bytes text : List ℕ)
        → reprinted has_title bytes ≡ Ok text → reprinted true text ≡ Ok text }
{}

/// Decks that are the same, line numbers aside, flatten alike.
pub fn flattening_sees_no_line_numbers()
    ensures alike { (deck other : Deck) (rails : List (List ℕ)) (top : Option (List ℕ))
        (flat : Flat)
        → unnumbered deck ≡ unnumbered other → flatten deck rails top ≡ Ok flat
        → flatten other rails top ≡ Ok flat }
{}

/// A printed deck flattens to the text to which the deck that it was printed from flattens.
pub fn printed_texts_flatten_alike()
    ensures alike { (top : Option (List ℕ)) (bytes text flat : List ℕ)
        → reprinted true bytes ≡ Ok text → flat_job top bytes ≡ Ok flat
        → flat_job top text ≡ Ok flat }
{}

/// The text of a flat deck is that of a printed deck.
pub fn flat_texts_are_printed_decks()
    ensures are_printed { (flat : Flat) → flat_text flat ≡ deck_text (deck_of flat) }
{}

/// The flat deck of a deck as it is read, with such rails, is again a deck as it is read.
pub fn flat_decks_are_fine()
    ensures are_fine { (deck : Deck) (rails : List (List ℕ)) (top : Option (List ℕ)) (flat : Flat)
        → IsReadDeck deck → AreRails rails → flatten deck rails top ≡ Ok flat
        → IsReadDeck (deck_of flat) }
{}

/// The text of a flat deck reads back.
pub fn flat_texts_read_back()
    ensures read_back { (top : Option (List ℕ)) (bytes : List ℕ) (flat : Flat)
        → flat_of top bytes ≡ Ok flat → FlatReadsBack flat }
{}
