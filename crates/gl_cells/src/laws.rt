//! Laws over the definitions, and rows of them worked out by hand: each function does nothing.
ghost use Rattle.gl_fault.specs.Refusals.{first_some};
ghost use Rattle.std.specs.Prelude.{◌≡◌, Bool, ℕ, List, length, ◌∷◌, [], None, Some, Ok, Err, IsOkAnd, codes, map, replicate};
ghost use Rattle.std.specs.List.{AllByRecursion};
ghost use Rattle.gl_text.specs.LogicalLines.{loose_ends};
ghost use Rattle.gl_text.specs.Decks.{Deck, read_deck};
ghost use Rattle.gl_printed.specs.ReadDecks.{IsReadDeck};
ghost use Rattle.gl_deck.specs.Ranks.{HasRank};
ghost use Rattle.gl_base.specs.Libraries.{Library, read_library, refused, top_card, cell_limit, cell_clash, cells, devices, ports, level, flat, cells_cause, limit_cause, library_cause, empty, loose, uses};
ghost use Rattle.gl_cells.specs.Settled.{HasSettledLevel, HasSettledSkip};
ghost use Rattle.gl_cells.specs.Samples.{HasCells, callers, cell_named, cell_with, deck_with, resistor, searched, skipped};

/// In a deck that was read calls go down by a rank that is below the number of subcircuits.
pub fn read_decks_have_ranks()
    ensures of_bytes { (has_title : Bool) (bytes : List ℕ) (deck : Deck)
        → read_deck has_title bytes ≡ Ok deck → HasRank deck.subs (length deck.subs) }
    ensures as_read { (deck : Deck) → IsReadDeck deck → HasRank deck.subs (length deck.subs) }
{}

/// In a library that was read the level of a cell is one more than the greatest level that it calls, and a cell is skipped
/// by itself or since it calls a skipped cell.
pub fn levels_and_skips_are_settled()
    ensures level { (bytes : List ℕ) (l : Library) → read_library bytes ≡ Ok l
        → AllByRecursion (HasSettledLevel l.deck.subs) l.deck.subs }
    ensures skip { (bytes : List ℕ) (l : Library) → read_library bytes ≡ Ok l
        → AllByRecursion (HasSettledSkip l.deck.subs) l.deck.subs }
{}

/// Cells that are searched, and cells that are skipped.
pub fn skip_rows()
    ensures three_kinds { IsOkAnd (read_library (codes
        ".subckt fill a b\n.ends\n.subckt odd a b\nr1 a 0 1\n.ends\n.subckt inv a y\nmp y a vdd vdd pch\nmn y a 0 0 nch\n.ends\n.subckt dbl a y\nx1 a m inv\nx2 m y fill\n.ends\n"))
        (HasCells (skipped 0 empty ∷ skipped 0 (loose (codes "b")) ∷ searched 0 ∷ skipped 1 (uses (codes "fill")) ∷ [])) }
    ensures called_behind { IsOkAnd (read_library (codes
        ".subckt top a\nx1 a mid\n.ends\n.subckt mid a\nx1 a low\n.ends\n.subckt low b\nr1 a 0 1\n.ends\n"))
        (HasCells (skipped 2 (uses (codes "mid")) ∷ skipped 1 (uses (codes "low")) ∷ skipped 0 (loose (codes "b")) ∷ [])) }
    ensures port_on_x_card { IsOkAnd (read_library (codes
        ".subckt one a b\nr1 a b 1\n.ends\n.subckt two c d\nx1 c d one\n.ends\n"))
        (HasCells (searched 0 ∷ searched 1 ∷ [])) }
    ensures loose_before_uses { IsOkAnd (read_library (codes
        ".subckt fill a\n.ends\n.subckt two c d\nx1 c fill\n.ends\n"))
        (HasCells (skipped 0 empty ∷ skipped 1 (loose (codes "d")) ∷ [])) }
    ensures no_cells { IsOkAnd (read_library (codes ".global vdd\n.model nch nmos\n.options x\n"))
        (HasCells []) }
{}

/// Levels: of a cell that calls two levels, and of a chain.
pub fn level_rows()
    ensures greatest_called { IsOkAnd (read_library (codes
        ".subckt b a\nx1 a m\nx2 a l\n.ends\n.subckt l a\nr1 a 0 1\n.ends\n.subckt m a\nx1 a l\nr1 a 0 1\n.ends\n.subckt t a\nx1 a l\nx2 a b\nx3 a m\n.ends\n"))
        (HasCells (searched 2 ∷ searched 0 ∷ searched 1 ∷ searched 3 ∷ [])) }
    ensures chain { IsOkAnd (read_library (codes
        ".subckt c0 a\nr1 a 0 1\n.ends\n.subckt c1 a\nx1 a c0\n.ends\n.subckt c2 a\nx1 a c1\n.ends\n.subckt c3 a\nx1 a c2\n.ends\n"))
        (HasCells (searched 0 ∷ searched 1 ∷ searched 2 ∷ searched 3 ∷ [])) }
    ensures sixteen_levels_and_one { read_library (codes
        ".subckt c0 a\nr1 a 0 1\n.ends\n.subckt c1 a\nx1 a c0\n.ends\n.subckt c2 a\nx1 a c1\n.ends\n.subckt c3 a\nx1 a c2\n.ends\n.subckt c4 a\nx1 a c3\n.ends\n.subckt c5 a\nx1 a c4\n.ends\n.subckt c6 a\nx1 a c5\n.ends\n.subckt c7 a\nx1 a c6\n.ends\n.subckt c8 a\nx1 a c7\n.ends\n.subckt c9 a\nx1 a c8\n.ends\n.subckt c10 a\nx1 a c9\n.ends\n.subckt c11 a\nx1 a c10\n.ends\n.subckt c12 a\nx1 a c11\n.ends\n.subckt c13 a\nx1 a c12\n.ends\n.subckt c14 a\nx1 a c13\n.ends\n.subckt c15 a\nx1 a c14\n.ends\n.subckt c16 a\nx1 a c15\n.ends\n")
        ≡ Err (cell_limit (codes "c16") level 16) }
{}

/// Libraries that are refused.
pub fn refusal_rows()
    ensures reading_first { read_library (codes "r1 a b 1\n.subckt s a\n.ends\n.ends\n")
        ≡ Err (refused (loose_ends 4)) }
    ensures top { read_library (codes ".model n nmos\n.subckt s a\n.ends\nr1 a b 1\nx1 a s\n")
        ≡ Err (top_card 4) }
    ensures clash { read_library (codes
        ".subckt s a\nr1 a n 1\nr2 n 0 1\n.ends\n.subckt k p\nx1 p s\nr1 x1.n p 1\n.ends\n")
        ≡ Err (cell_clash (codes "k") (codes "x1.n")) }
    ensures clash_with_rail { read_library (codes
        ".global x1.n\n.subckt k p\nx1 p s\n.ends\n.subckt s a\nr1 a n 1\nr2 n 0 1\n.ends\n")
        ≡ Err (cell_clash (codes "k") (codes "x1.n")) }
    ensures clash_with_port { read_library (codes
        ".subckt s a\nr1 a n 1\nr2 n 0 1\n.ends\n.subckt k p x1.n\nx1 p s\nr1 x1.n p 1\n.ends\n")
        ≡ Err (cell_clash (codes "k") (codes "x1.n")) }
    ensures clash_of_devices { read_library (codes
        ".subckt s a\nr1 a 0 1\n.ends\n.subckt k p\nx1 p s\nr.x1.r1 p 0 1\n.ends\n")
        ≡ Err (cell_clash (codes "k") (codes "r.x1.r1")) }
{}

/// Limits, on both sides of each.
pub fn limit_rows()
    ensures cells_257 { cells_cause (replicate 257 (cell_with 0 0))
        ≡ Some (cell_limit (codes "c") cells 257) }
    ensures cells_256 { cells_cause (replicate 256 (cell_with 0 0)) ≡ None }
    ensures top_before_cells { library_cause (deck_with (replicate 257 (cell_with 0 0)) (resistor ∷ [])) ≡ Some (top_card 1) }
    ensures cells_before_cards { library_cause (deck_with (replicate 257 (cell_with 0 257)) [])
        ≡ Some (cell_limit (codes "c") cells 257) }
    ensures devices_257 { limit_cause [] (cell_with 65 257)
        ≡ Some (cell_limit (codes "c") devices 257) }
    ensures devices_256 { limit_cause [] (cell_with 0 256) ≡ None }
    ensures ports_65 { limit_cause [] (cell_with 65 0) ≡ Some (cell_limit (codes "c") ports 65) }
    ensures ports_64 { limit_cause [] (cell_with 64 0) ≡ None }
    ensures flat_65792 { limit_cause (cell_named (codes "d") 0 (replicate 256 resistor) ∷ [])
        (cell_named (codes "c") 0 (callers 256)) ≡ Some (cell_limit (codes "c") flat 65537) }
    ensures flat_65536 { limit_cause (cell_named (codes "d") 0 (replicate 256 resistor) ∷ [])
        (cell_named (codes "c") 0 (resistor ∷ callers 255)) ≡ None }
    ensures first_cell { first_some (map (limit_cause []) (cell_named (codes "b") 65 [] ∷ cell_with 0 257 ∷ []))
        ≡ Some (cell_limit (codes "b") ports 65) }
{}
