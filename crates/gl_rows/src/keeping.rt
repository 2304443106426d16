//! Names that are kept, by hand: each is the contract of a function that does nothing.
ghost use Rattle.std.specs.Prelude.{◌≡◌, ◌↔◌, ◌≤◌, ◌++◌, ℕ, List, [], ◌∷◌, None, Some, Ok, Err, IsOkAnd, codes, length, All, Contains};
ghost use Rattle.gl_text.specs.Flattening.{flatten};
ghost use Rattle.gl_base.specs.Rails.{run_rails};
ghost use Rattle.gl_base.specs.BaseCircuit.{Source, circuit_of, nets_of};
ghost use Rattle.gl_base.specs.Libraries.{Library};
ghost use Rattle.gl_base.specs.Rounds.{source_of};
ghost use Rattle.gl_base.specs.Keeping.{keeping, unknown_keep, IsFirstUnknown, base_of, base_keeping};
ghost use Rattle.gl_rows.specs.Sources.{nand_once};
ghost use Rattle.gl_rows.specs.Files.{Accepted, Reads, lists_in, AcceptedTop};
ghost use Rattle.gl_rows.specs.Texts.{nand, open_deck, two_resistors, vdd_rail, nand_deck, resistor_deck};

/// A deck of one NAND with the inner net `x`, and the ports of a top: what kept names pin, and which instances are left.
pub fn kept_net_rows()
    ensures nothing_kept { Accepted nand_deck (vdd_rail ++ nand)
        (λ f l. ((circuit_of (keeping [] (source_of f l))).pinned ≡ [])
        × (lists_in (keeping [] (source_of f l)) l ≡ nand_once ∷ [])) }
    ensures inner_net_kept { Accepted nand_deck (vdd_rail ++ nand)
        (λ f l. ((circuit_of (keeping (codes "x" ∷ []) (source_of f l))).pinned ≡ 4 ∷ [])
        × (lists_in (keeping (codes "x" ∷ []) (source_of f l)) l ≡ [] ∷ [])) }
    ensures net_of_a_port_kept { Accepted nand_deck (vdd_rail ++ nand)
        (λ f l. ((circuit_of (keeping (codes "y" ∷ []) (source_of f l))).pinned ≡ 0 ∷ [])
        × (lists_in (keeping (codes "y" ∷ []) (source_of f l)) l ≡ nand_once ∷ [])) }
    ensures kept_twice { Accepted nand_deck (vdd_rail ++ nand)
        (λ f l. (circuit_of
        (keeping (codes "x" ∷ codes "a" ∷ codes "x" ∷ []) (source_of f l))).pinned ≡ 4 ∷ 1 ∷ []) }
    ensures port_of_the_top_kept { AcceptedTop (codes "n") open_deck two_resistors
        (λ f l. ((circuit_of
        (keeping (codes "o" ∷ codes "m" ∷ codes "i" ∷ []) (source_of f l))).pinned ≡ 0 ∷ 2 ∷ 1 ∷ [])
        × (lists_in (keeping (codes "o" ∷ codes "m" ∷ codes "i" ∷ []) (source_of f l)) l
        ≡ [] ∷ [])) }
{}

/// A deck whose rail `w` stands on no device, and a top whose port `u` stands on none: which kept names are unknown.
pub fn unknown_keep_rows()
    ensures none_kept { Accepted resistor_deck (codes "")
        (λ f l. unknown_keep [] (source_of f l) ≡ None) }
    ensures all_known { Accepted resistor_deck (codes "")
        (λ f l. unknown_keep (codes "b" ∷ codes "0" ∷ codes "b" ∷ []) (source_of f l) ≡ None) }
    ensures first_of_two { Accepted resistor_deck (codes "")
        (λ f l. unknown_keep (codes "a" ∷ codes "nosuch" ∷ codes "b" ∷ codes "w" ∷ [])
        (source_of f l) ≡ Some (codes "nosuch")) }
    ensures rail_on_no_device { Accepted resistor_deck (codes "")
        (λ f l. unknown_keep (codes "a" ∷ codes "w" ∷ codes "nosuch" ∷ []) (source_of f l)
        ≡ Some (codes "w")) }
    ensures zero_on_no_device { Accepted (codes "t\nr1 a b 1\n") (codes "")
        (λ f l. unknown_keep (codes "0" ∷ []) (source_of f l) ≡ Some (codes "0")) }
    ensures empty_name { Accepted (codes "t\nr1 a b 1\n") (codes "")
        (λ f l. unknown_keep ([] ∷ []) (source_of f l) ≡ Some []) }
    ensures port_of_the_top_on_no_device { AcceptedTop (codes "n")
        (codes "t\n.subckt n i o u\nr1 i o 1\n.ends\n") (codes "")
        (λ f l. unknown_keep (codes "i" ∷ codes "u" ∷ []) (source_of f l) ≡ Some (codes "u")) }
    ensures refused_by_its_name { Accepted (codes "t\nr1 a b 1\n") (codes "")
        (λ f l. base_keeping (codes "a" ∷ codes "nosuch" ∷ []) (source_of f l) l
        ≡ Err (codes "nosuch")) }
{}
