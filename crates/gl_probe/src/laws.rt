//! Laws over the definitions: each is the contract of a function that does nothing.
ghost use Rattle.std.specs.Prelude.{◌≡◌, ◌↔◌, ℕ, List, Some, All};
ghost use Rattle.gl_text.specs.Decks.{Sub};
ghost use Rattle.gl_match.specs.Cells.{Cell as CellValue};
ghost use Rattle.gl_match.specs.Graph.{Circuit as Graph, Pattern as Shape};
ghost use Rattle.gl_graph.specs.Built.{IsBuilt, IsBuiltPattern};
ghost use Rattle.gl_graph.specs.FitCells.{IsForCircuit};
ghost use Rattle.gl_course.specs.KeyNotes.{KeyNote, IsKey};
ghost use Rattle.gl_lifting.specs.Histories.{Round, circuit_at};
ghost use Rattle.gl_lifting.specs.Runs.{Run, first_circuit, pattern_in, searched_at};
ghost use Rattle.gl_lifting.specs.SearchedCells.{AreCells};
ghost use Rattle.gl_history.specs.Plain.{Lifted as LiftedValue};
ghost use Rattle.gl_history.specs.Shown.{IsLifted};
ghost use Rattle.gl_probe.specs.Keys.{key_in};
ghost use Rattle.gl_probe.specs.Probes.{history_probe, round_probe, TellKeys};
ghost use Rattle.gl_probe.specs.Shown.{AllFit, shown_probe};

/// The probe of the rounds of a run is that of its history, and each cell that can be searched in the run's first circuit can
/// be in the circuit of each round.
pub fn lifted_rounds_are_probed()
    ensures probe { (run : Run) (cells : List CellValue) (lifted : LiftedValue)
        → AreCells run cells → (is : IsLifted run cells lifted)
        → shown_probe run.library.deck.subs cells lifted.rounds ≡ history_probe run is.history }
    ensures fits { (run : Run) (cells : List CellValue) (lifted : LiftedValue)
        → All (IsForCircuit (first_circuit run)) cells → IsLifted run cells lifted
        → AllFit cells lifted.rounds }
{}

/// What is told of a pattern in a circuit is its key: the least note of all. There is always one.
pub fn probed_keys_are_the_keys()
    ensures keys { (c : Graph) (p : Shape) (k : KeyNote) → IsBuilt c → IsBuiltPattern p
        → (key_in c p ≡ Some k) ↔ IsKey c p k }
    ensures exists { (c : Graph) (p : Shape) → IsBuiltPattern p → (k : KeyNote) × (key_in c p ≡ Some k) }
{}

/// The lines of a round tell the key of each searched cell of its level in its circuit, each in one line, in library order.
pub fn probed_rounds_tell_the_keys()
    ensures lines { (run : Run) (level : ℕ) (told : Round) → IsBuilt (circuit_at run told.before)
        → All (λ (cell : Sub). IsBuiltPattern (pattern_in run cell)) (searched_at run level)
        → TellKeys run level (circuit_at run told.before) (searched_at run level)
        (round_probe run (level, told)) }
{}
