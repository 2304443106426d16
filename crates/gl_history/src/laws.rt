//! Laws of rounds: each is the contract of a function that does nothing.
ghost use Rattle.std.specs.Prelude.{◌≡◌, List};
ghost use Rattle.gl_match.specs.Graph.{Circuit as Graph};
ghost use Rattle.gl_lifting.specs.Runs.{Run, first_circuit};
ghost use Rattle.gl_match.specs.Cells.{Cell as CellValue};
ghost use Rattle.gl_history.specs.Plain.{Lifted as LiftedValue};
ghost use Rattle.gl_history.specs.Searching.{rounds_of};
ghost use Rattle.gl_history.specs.Reached.{Reached};
ghost use Rattle.gl_lifting.specs.SearchedCells.{AreCells};
ghost use Rattle.gl_history.specs.Shown.{IsLifted};

/// What all rounds reach from the first circuit of a run, with the cells of its library, shows the history of the run.
pub fn reached_shows_the_history()
    ensures history { (run : Run) (cells : List CellValue) (c : Graph) (lifted : LiftedValue)
        → c ≡ first_circuit run → AreCells run cells → Reached c cells (rounds_of cells) lifted
        → IsLifted run cells lifted }
{}
