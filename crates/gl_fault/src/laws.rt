ghost use Rattle.std.specs.Prelude.{◌≡◌, ℕ, List, [], ◌∷◌, ◌++◌, Option, Some, None, Result, Ok, Err, true, false};
ghost use Rattle.std.specs.Option.{option_or};
ghost use Rattle.gl_fault.specs.Refusals.{first_some, when, or_else, ◌>>=◌ as ◌⇒◌, IsRefusal, IsFound, Refuses, Gives};

/// The first refusal of a list is the first of its front, or else of what is behind.
pub fn first_refusals()
    ensures first { (f g : ℕ) → first_some (None ∷ Some f ∷ Some g ∷ []) ≡ Some f }
    ensures tested { (f g : ℕ) → first_some (when false f ∷ when true g ∷ []) ≡ Some g }
    ensures behind { (xs : List (Option ℕ)) (y : Option ℕ)
        → option_or (first_some xs) y ≡ first_some (xs ++ y ∷ []) }
{}

/// A value goes on where nothing is refused, and the first refusal stays.
pub fn chains_of_refusals()
    ensures value { (x : ℕ) (k : ℕ → Result ℕ ℕ) → (or_else None x ⇒ k) ≡ k x }
    ensures first { (f x : ℕ) (k : ℕ → Result ℕ ℕ) → (or_else (Some f) x ⇒ k) ≡ Err f }
    ensures stays { (o : Option ℕ) (x : Result ℕ ℕ) (k : ℕ → Result ℕ ℕ)
        → IsRefusal o x → IsRefusal o (x ⇒ k) }
{}

/// An answer of the code is the wanted value, or a refusal whose meaning is the wanted one.
pub fn answers()
    ensures value { (m : ℕ → Option ℕ) (v : ℕ) (w : Result ℕ ℕ) → Gives m (Ok v) w → w ≡ Ok v }
    ensures refusal { (m : ℕ → Option ℕ) (e f : ℕ) (w : Result ℕ ℕ)
        → m e ≡ Some f → Gives m (Err e) w → w ≡ Err f }
    ensures found { (o w : Option ℕ) (x : ℕ) → IsFound o w → IsRefusal o (or_else w x) }
    ensures none { (m : ℕ → Option ℕ) (w : Option ℕ) → Refuses m None w → w ≡ None }
{}
