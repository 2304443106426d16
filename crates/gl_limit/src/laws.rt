//! Laws over the definitions: each is the contract of a function that does nothing.
ghost use Rattle.std.specs.Prelude.{◌++◌, ℕ, List};
ghost use Rattle.gl_limit.specs.declared.fault.WriteFault.{WriteFault as Fault};
ghost use Rattle.gl_limit.specs.Bounds.{Tells};

/// A text whose front is too long is too long.
pub fn fronts_are_shorter()
    ensures longer { (fault : Fault) (front rest : List ℕ) → Tells fault front → Tells fault (front ++ rest) }
{}
