ghost use Rattle.std.specs.Prelude.{◌≡◌, ◌++◌, ◌≤◌, List, ℕ, Bool, Option, length, sum_by, Ok, codes, IsOkAnd, true, false};
ghost use Rattle.gl_text.specs.LogicalLines.{FILE};
ghost use Rattle.gl_text.specs.Decks.{Deck, file_lines, read_deck};
ghost use Rattle.gl_text.specs.Flattening.{Flat, flatten};
ghost use Rattle.gl_printed.specs.FlatDecks.{AreRails};
ghost use Rattle.gl_printed.specs.ReadDecks.{IsReadDeck};
ghost use Rattle.gl_known.specs.Known.{line_size, deck_size, IsKnownDeck, IsKnownFlat};

/// The logical lines of a file are together no longer than its bytes.
pub fn lines_are_short()
    ensures together { (has_title : Bool) (bytes : List ℕ)
        → sum_by line_size (file_lines has_title bytes) ≤ length bytes }
{}

/// A deck that is read is a deck as it is read, and its size is at most the number of bytes.
pub fn read_decks_are_known()
    ensures known { (has_title : Bool) (bytes : List ℕ) (deck : Deck)
        → read_deck has_title bytes ≡ Ok deck → IsKnownDeck (length bytes) deck }
    ensures of_file { (has_title : Bool) (bytes : List ℕ) (deck : Deck)
        → length bytes ≤ FILE → read_deck has_title bytes ≡ Ok deck → IsKnownDeck FILE deck }
{}

/// The flat deck of a deck as it is read has cards such as are read, and no more places than a file has bytes.
pub fn flat_decks_are_known()
    ensures known { (deck : Deck) (rails : List (List ℕ)) (top : Option (List ℕ)) (flat : Flat)
        → IsReadDeck deck → AreRails rails → flatten deck rails top ≡ Ok flat → IsKnownFlat flat }
{}

/// The sizes of a deck and of logical lines.
pub fn sizes()
    ensures deck { IsOkAnd (read_deck true (codes "t\n.global vdd 0 VDD gnd\n.subckt s a b\n"
        ++ codes "r1 a b 1k\nm1 a b 0 0 nch w=1\n.ends\nx1 p vdd s\nc1 p 0 1p\n.model nch nmos\n"
        ++ codes ".options x\n")) (λ deck. deck_size deck ≡ 21) }
    ensures empty { IsOkAnd (read_deck false (codes "* nothing\n")) (λ deck. deck_size deck ≡ 0) }
    ensures lines { sum_by line_size
        (file_lines true (codes "title\nr1 a b\n* note\n+ 1k \n\nc1 a b 1p\n.end\nx")) ≡ 23 }
    ensures refused { sum_by line_size (file_lines false (codes "+ x\n")) ≡ 0 }
{}
