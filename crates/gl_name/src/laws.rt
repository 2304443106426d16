//! Laws over the definitions: each is the contract of a function that does nothing.
ghost use Rattle.std.specs.Prelude.{◌≡◌, ℕ, List};
ghost use Rattle.gl_base.specs.Stems.{IsStem};

/// Names have at most one stem.
pub fn at_most_one_stem()
    ensures one { (names : List (List ℕ)) (s t : List ℕ) → IsStem names s → IsStem names t → s ≡ t }
{}
