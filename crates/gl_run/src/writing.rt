//! The outputs of a job, when all are made.
ghost use Rattle.std.specs.Prelude.{◌≡◌, [], map};
ghost use Rattle.std.specs.List.{AllByRecursion};
ghost use Rattle.gl_desk.specs.declared.slot.Slot.{Slot as Place};
ghost use Rattle.gl_desk.specs.Desk.{NamesSame};
ghost use Rattle.gl_job.specs.Runs.{run_of, IsApart};
ghost use Rattle.gl_job.specs.Courses.{Writes};
ghost use Rattle.gl_job.specs.Outputs.{opening_of, text_of, slots_of, IsWritable, AreApart};
ghost use Rattle.gl_run.specs.Endings.{end_of};

use crate::ending::Ending;
use gl_desk::Desk;
use gl_job::{Output, write_outputs};

/// Writes outputs one after another, each opened when those before it are whole.
pub fn finish<D: Desk>(desk: &mut D, outputs: &[Output<'_>]) -> Ending
    requires writable { AllByRecursion (IsWritable (D.shows desk.old)) outputs.now }
    requires apart { AreApart outputs.now }
    ensures writes { Writes (map opening_of outputs.now) (map text_of outputs.now) []
        (end_of result) (run_of D.shows D.held D.wants desk.old desk.new) }
    ensures others { (slot : Place) → IsApart slot (slots_of outputs.now)
        → D.shows desk.new slot ≡ D.shows desk.old slot }
    ensures names { NamesSame D.held D.wants desk.old desk.new }
{
    match write_outputs(desk, outputs) {
        Ok(()) => Ending::Done,
        Err(stop) => Ending::Stopped(stop),
    }
}
