//! Names that are kept, as laws: each is the contract of a function that does nothing.
ghost use Rattle.std.specs.Prelude.{◌≡◌, ◌↔◌, ◌≤◌, ◌++◌, ℕ, List, [], ◌∷◌, None, Some, Ok, Err, IsOkAnd, codes, length, All, Contains};
ghost use Rattle.gl_text.specs.Flattening.{flatten};
ghost use Rattle.gl_base.specs.Rails.{run_rails};
ghost use Rattle.gl_base.specs.BaseCircuit.{Source, circuit_of, nets_of};
ghost use Rattle.gl_base.specs.Libraries.{Library};
ghost use Rattle.gl_base.specs.Rounds.{source_of};
ghost use Rattle.gl_base.specs.Keeping.{keeping, unknown_keep, IsFirstUnknown, base_of, base_keeping};

/// No kept name is unknown exactly where each is a net of the devices; the one that is told is the first that is none.
pub fn unknown_names_are_no_nets()
    ensures known { (keep : List (List ℕ)) (s : Source)
        → (unknown_keep keep s ≡ None) ↔ All (λ name. Contains (nets_of s.devices) name) keep }
    ensures first { (keep : List (List ℕ)) (s : Source) (name : List ℕ)
        → unknown_keep keep s ≡ Some name → IsFirstUnknown keep s name }
{}

/// However many names are kept, no more nets are pinned than there are; where none is kept, circuit and patterns are those of the source.
pub fn kept_names_pin_once()
    ensures no_more { (s : Source) → length (circuit_of s).pinned ≤ length (nets_of s.devices) }
    ensures nothing_kept { (s : Source) (library : Library)
        → base_keeping [] s library ≡ Ok (base_of s library) }
{}
