//! Decks that are printed and read again, and flat texts that flatten to themselves, by hand.
ghost use Rattle.std.specs.Prelude.{◌≡◌, List, None, Ok, Some, ℕ, codes, false, true};
ghost use Rattle.gl_text.specs.Decks.{deck_text, read_deck};
ghost use Rattle.gl_text.specs.Flattening.{flat_job};
ghost use Rattle.gl_printed.specs.ReadDecks.{reprinted};
ghost use Rattle.gl_rows.specs.WorkedDecks.{nested_flat, nested_source, nested_text, resistor_deck, top_flat, top_source};

/// A deck without a title, of one line without a newline at its end.
pub fn a_deck_without_a_title()
    ensures is_read { read_deck false (codes "R1 A,(B)=5 ") ≡ Ok (resistor_deck 1) }
    ensures printed { deck_text (resistor_deck 1) ≡ codes "\nr1 a b =5\n.end\n" }
    ensures is_read_again { read_deck true (codes "\nr1 a b =5\n.end\n") ≡ Ok (resistor_deck 2) }
{}

/// A deck with a title, continued lines, a passed card, and X cards that lead down twice, its cards in another order
/// than that of printing.
pub fn a_nested_deck()
    ensures printed { reprinted true nested_source ≡ Ok nested_text }
    ensures printed_again { reprinted true nested_text ≡ Ok nested_text }
{}

/// Flat decks, one of them with a top, and their texts read back.
pub fn flat_decks()
    ensures flat { flat_job None nested_source ≡ Ok nested_flat }
    ensures flat_again { flat_job None nested_text ≡ Ok nested_flat }
    ensures flat_read_back { reprinted true nested_flat ≡ Ok nested_flat }
    ensures with_top { flat_job (Some (codes "s")) top_source ≡ Ok top_flat }
    ensures top_read_back { reprinted true top_flat ≡ Ok top_flat }
{}

/// Flat texts, with globals, a model and a passed card, and with a top.
pub fn worked_texts()
    ensures stays { flat_job None nested_flat ≡ Ok nested_flat }
    ensures with_top { flat_job (Some (codes "s")) top_flat ≡ Ok top_flat }
{}
