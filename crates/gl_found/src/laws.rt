//! What chosen instances are: a law is the contract of a function that does nothing.
ghost use Rattle.std.specs.Prelude.{◌≡◌, ◌<◌, length, map, All};
ghost use Rattle.gl_text.specs.Flattening.{Flat as FlatValue};
ghost use Rattle.gl_base.specs.Libraries.{Library as LibraryValue};
ghost use Rattle.gl_lifting.specs.Runs.{run_of};
ghost use Rattle.gl_history.specs.Plain.{Lifted as LiftedValue};
ghost use Rattle.gl_found.specs.Founds.{Found as FoundValue, IsRunOf, all_found, composite_by};

/// The composites of a history are the chosen instances of the rounds that show it, in their order; and each chosen instance is
/// one of a cell of the library.
pub fn composites_are_found()
    ensures composites { (flat : FlatValue) (library : LibraryValue) (lifted : LiftedValue)
        (r : IsRunOf flat library lifted) → r.shown.history.last.composites
        ≡ map (composite_by (run_of flat library r.keep)) (all_found lifted.rounds) }
    ensures cells { (flat : FlatValue) (library : LibraryValue) (lifted : LiftedValue)
        → IsRunOf flat library lifted
        → All (λ (f : FoundValue). f.cell < length library.deck.subs) (all_found lifted.rounds) }
{}
