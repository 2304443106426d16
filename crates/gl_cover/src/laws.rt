//! Laws of the choice: each is the contract of a function that does nothing.
ghost use Rattle.std.specs.Prelude.{◌≡◌, ◌<◌, ◌≤◌, ℕ, List, length, Some, slice_get};
ghost use Rattle.std.specs.List.{range_with_len};
ghost use Rattle.gl_match.specs.declared.role.Pick.{Pick as PickValue};
ghost use Rattle.gl_match.specs.declared.role.Pick.TheVariants.{Over};
ghost use Rattle.gl_match.specs.Choice.{IsChoice, IsChosen, Meet, joined, numbers_of};
ghost use Rattle.gl_match.specs.Picks.{picks_of};

/// The picks that are computed are the choice without overlap, and there is no other.
pub fn picks_are_the_choice()
    ensures choice { (first : ℕ) (lists : List (List (List ℕ)))
        → IsChoice first lists (picks_of first lists) }
    ensures once { (first : ℕ) (lists : List (List (List ℕ))) (xs ys : List (List PickValue))
        → IsChoice first lists xs → IsChoice first lists ys → xs ≡ ys }
{}

/// The chosen instances of all lists have no device in common, and their numbers run on from the first.
pub fn chosen_instances_are_apart()
    ensures apart { (first : ℕ) (lists : List (List (List ℕ))) (picks : List (List PickValue))
        → IsChoice first lists picks → (i j k l : ℕ) → IsChosen (joined picks) i k
        → IsChosen (joined picks) j l → Meet (joined lists) i j → i ≡ j }
    ensures numbers { (first : ℕ) (lists : List (List (List ℕ))) (picks : List (List PickValue))
        → IsChoice first lists picks
        → numbers_of (joined picks) ≡ range_with_len first (length (numbers_of (joined picks))) }
{}

/// Any other instance meets a chosen one before it, whose number is the lowest of all chosen ones that it meets.
pub fn others_meet_a_chosen_one()
    ensures meets { (first : ℕ) (lists : List (List (List ℕ))) (picks : List (List PickValue))
        → IsChoice first lists picks → (i k : ℕ) → slice_get (joined picks) i ≡ Some (Over k)
        → (j : ℕ) × (j < i) × IsChosen (joined picks) j k × Meet (joined lists) i j }
    ensures lowest { (first : ℕ) (lists : List (List (List ℕ))) (picks : List (List PickValue))
        → IsChoice first lists picks → (i k : ℕ) → slice_get (joined picks) i ≡ Some (Over k)
        → (j l : ℕ) → IsChosen (joined picks) j l → Meet (joined lists) i j → k ≤ l }
{}
