//! Texts, cards, decks and flat decks, by hand.
ghost use Rattle.std.specs.Prelude.{◌++◌, replicate, is_ok, ◌<◌, false, Option, true, ◌≡◌, List, ℕ, codes, Ok, Err, map, Some, None, [], ◌∷◌};
ghost use Rattle.gl_text.specs.LogicalLines.{tail_of, long_name, short_card, fields_of, unknown_card, control_block, nested_subckt, recursive, loose_plus, name_clash, loose_ends, wrong_ends, open_subckt, local_card, parameters, duplicate_name, duplicate_port, zero_port, unknown_subckt, wrong_node_count, no_top, top_devices, long_tail, long_flat_name};
ghost use Rattle.gl_text.specs.Cards.{call, dev, read_card, all_fields, printed, card_of};
ghost use Rattle.gl_text.specs.Decks.{read_deck, Sub, reaches};
ghost use Rattle.gl_text.specs.WayBack.{IsCall, IsDevice};
ghost use Rattle.gl_text.specs.Levels.{Down};
ghost use Rattle.gl_text.specs.Flattening.{flat_job};

/// Some cards.
pub fn card_rows()
    ensures fields { all_fields (codes "M1 OUT,IN (VDD VDD) PCH  W=4U")
        ≡ codes "m1" ∷ codes "out" ∷ codes "in" ∷ codes "vdd" ∷ codes "vdd" ∷ codes "pch"
        ∷ codes "w" ∷ codes "4u" ∷ [] }
    ensures letters_alone_are_folded { all_fields (codes "R@AZ[ MZ`z{ q 1")
        ≡ codes "r@az[" ∷ codes "mz`z{" ∷ codes "q" ∷ codes "1" ∷ [] }
    ensures short { read_card (record { line = 2; text = codes "m1 a b c nch" })
        ≡ Err (short_card 2 5 6) }
    ensures unknown { read_card (record { line = 2; text = codes "q1 c b e mod" })
        ≡ Err (unknown_card 2 113) }
    ensures control { read_card (record { line = 2; text = codes ".control" })
        ≡ Err (control_block 2) }
    ensures parentheses_and_commas { printed (card_of (codes "M1 OUT,IN (VDD VDD) PCH  W=4U L=1U"))
        ≡ codes "m1 out in vdd vdd pch W=4U L=1U" }
{}

/// Tails: blanks at the ends go, runs of them are one space, and separators before the tail are none of it.
pub fn tail_rows()
    ensures squeezed { tail_of (codes " ,)a \t b\r ") ≡ codes "a b" }
    ensures inside { tail_of (codes "w=(1,  2)") ≡ codes "w=(1, 2)" }
    ensures nothing { tail_of (codes " \t\r") ≡ [] }
{}

/// Names at their limit, and the fields that a card does not look at.
pub fn name_rows()
    ensures long { read_card
        (record { line = 2; text = codes "r" ++ replicate 1024 97 ++ codes " b" })
        ≡ Err (long_name 2 1025) }
    ensures longest { all_fields
        (printed (card_of (codes "r" ++ replicate 1023 97 ++ codes " b c 1")))
        ≡ (codes "r" ++ replicate 1023 97) ∷ codes "b" ∷ codes "c" ∷ codes "1" ∷ [] }
    ensures byte_as_written { read_deck true (codes "t\nQ1 c b e mod\n") ≡ Err (unknown_card 2 81) }
    ensures ignored_field { is_ok
        (read_deck true (codes "t\n.subckt s a\n.ends s " ++ replicate 1025 110 ++ codes "\n"))
        ≡ true }
    ensures open_before_unknown { read_deck true (codes "t\nx1 a b s\n.subckt u a\n")
        ≡ Err (open_subckt 3) }
{}

/// Some decks.
pub fn deck_rows()
    ensures loose { read_deck true (codes "t\n+ w=1\n") ≡ Err (loose_plus 2) }
    ensures unknown { read_deck true (codes "t\nq1 c b e mod\n") ≡ Err (unknown_card 2 113) }
    ensures nested { read_deck true (codes "t\n.subckt s a\n.subckt u b\n")
        ≡ Err (nested_subckt 3) }
    ensures loose_end { read_deck true (codes "t\n.ends") ≡ Err (loose_ends 2) }
    ensures wrong { read_deck true (codes "t\n.subckt s a\n.ends u\n") ≡ Err (wrong_ends 3) }
    ensures still_open { read_deck true (codes "t\n.subckt s a\n") ≡ Err (open_subckt 2) }
    ensures local { read_deck true (codes "t\n.subckt s a\n.model n nmos\n") ≡ Err (local_card 3) }
    ensures equals { read_deck true (codes "t\n.subckt s a w=1\n") ≡ Err (parameters 2) }
    ensures twice { read_deck true (codes "t\nr1 a b 1\nR1 c d 2") ≡ Err (duplicate_name 3 2) }
    ensures port { read_deck true (codes "t\n.subckt s a A\n") ≡ Err (duplicate_port 2) }
    ensures zero_port { read_deck true (codes "t\n.subckt s 0\n") ≡ Err (zero_port 2) }
    ensures no_sub { read_deck true (codes "t\nx1 a b s\n") ≡ Err (unknown_subckt 2) }
    ensures nodes { read_deck true (codes "t\n.subckt s a\n.ends\nx1 p q s\n")
        ≡ Err (wrong_node_count 4 2 1) }
    ensures cycle { read_deck true (codes "t\n.subckt s a\nx1 a s\n.ends\n.end\n")
        ≡ Err (recursive 3) }
{}

/// Flat decks.
pub fn flat_rows()
    ensures continued_over_a_comment { flat_job None
        (codes "t\nM1 OUT,IN (VDD VDD) PCH  W=4U\n* note\n+ L=1U\n.END\njunk\n")
        ≡ Ok (codes "t\nm1 out in vdd vdd pch W=4U L=1U\n.end\n") }
    ensures clash { flat_job None
        (codes "clash\n.subckt s a\nr1 a n 1k\nr2 n 0 1k\n.ends\nx1 p s\nr3 x1.n 0 2k\n"
        ++ codes ".end\n") ≡ Err (name_clash (codes "x1.n")) }
    ensures nest { flat_job None
        (codes "nest\n.subckt cellb p\nm3 p n 0 0 nch w=1u\nc1 n 0 1p\n.ends\n"
        ++ codes ".subckt cella q\nx1 q cellb\n.ends\nx2 top1 cella\n.end\n")
        ≡ Ok (codes "nest\nm.x2.x1.m3 top1 x2.x1.n 0 0 nch w=1u\nc.x2.x1.c1 x2.x1.n 0 1p\n.end\n") }
{}

/// Rails: a port comes before the rail of its name, and rails and ports of the top stand before all other nets.
pub fn flat_rail_rows()
    ensures port_before_rail { flat_job None
        (codes "t\n.global vdd\n.subckt s vdd\nr1 vdd 0 1\n.ends\nx1 p s\n")
        ≡ Ok (codes "t\n.global vdd\nr.x1.r1 p 0 1\n.end\n") }
    ensures rail_clash { flat_job None
        (codes "t\n.global x1.n\n.subckt s a\nr1 a n 1\n.ends\nx1 p s\n")
        ≡ Err (name_clash (codes "x1.n")) }
    ensures port_clash { flat_job (Some (codes "s"))
        (codes "t\n.subckt s a x1.n\nx1 a u\n.ends\n.subckt u b\nr1 b n 1\n.ends\n")
        ≡ Err (name_clash (codes "x1.n")) }
{}

/// Decks of which one subcircuit is the top.
pub fn top_rows()
    ensures row { flat_job (Some (codes "s"))
        (codes "t\n.global vdd\n.subckt s a\nr1 a n 1k\nx1 n u\n.ends\n.subckt u b\n"
        ++ codes "r2 b m 2k\nr3 m vdd 3k\n.ends\n.end\n")
        ≡ Ok
        (codes "t\n.global vdd\n.subckt s a\nr1 a n 1k\nr.x1.r2 n x1.m 2k\n"
        ++ codes "r.x1.r3 x1.m vdd 3k\n.ends s\n.end\n") }
    ensures no_top { flat_job (Some (codes "q")) (codes "t\n.subckt s a\nr1 a n 1k\n.ends\n.end\n")
        ≡ Err (no_top (codes "q")) }
    ensures devices { flat_job (Some (codes "s"))
        (codes "t\n.subckt s a\nr1 a n 1k\n.ends\nr1 a 0 1\n.end\n") ≡ Err (top_devices 5) }
    ensures nested_first { read_deck true (codes "t\n.subckt s a\n.subckt u b w=1\n")
        ≡ Err (nested_subckt 3) }
    ensures short { read_deck true (codes "t\nm1 a b c nch\n") ≡ Err (short_card 2 5 6) }
    ensures control { read_deck true (codes "t\n.control\n") ≡ Err (control_block 2) }
{}

/// There are such devices.
pub fn device_rows()
    ensures { IsDevice 114 (codes "1") (codes "a" ∷ codes "b" ∷ []) None (codes "1k") }
{}

/// Refusals at the limits of tails and flat names, and among them the one that comes first.
pub fn limit_rows()
    ensures tail { flat_job None (codes "t\nr1 a b " ++ replicate 65537 97)
        ≡ Err (long_tail 2 65537) }
    ensures both { flat_job None (codes "t\nr1 a b 1\nr1 a b " ++ replicate 65537 97)
        ≡ Err (duplicate_name 3 2) }
    ensures x { flat_job None (codes "t\nx1 a b s w=1\n") ≡ Err (parameters 2) }
    ensures flat_name { flat_job None
        (codes "t\n.subckt s a\nr1 a " ++ replicate 1022 110 ++ codes " 1\n.ends\nx1 p s\n")
        ≡ Err (long_flat_name 1025) }
    ensures device_clash { flat_job None
        (codes "t\n.subckt s a\nr1 a 0 1\n.ends\nx1 p s\nr.x1.r1 p 0 1\n")
        ≡ Err (name_clash (codes "r.x1.r1")) }
{}
