ghost use Rattle.std.specs.Prelude.{◌≡◌, ◌≢◌, [], map, false, OnOk, IfErr};
ghost use Rattle.std.specs.List.{AllByRecursion};
ghost use Rattle.gl_desk.specs.declared.slot.Slot.{Slot as Place};
ghost use Rattle.gl_desk.specs.Desk.{IsOutput, OthersSame, NamesSame};
ghost use Rattle.gl_job.specs.declared.stop.Stop.{Stop as Why};
ghost use Rattle.gl_job.specs.Runs.{run_of, IsWritten, IsCutShort, IsApart};
ghost use Rattle.gl_job.specs.Courses.{Writes};
ghost use Rattle.gl_job.specs.Outputs.{opening_of, text_of, slots_of, IsWritable, AreApart, end_of_result};

use crate::stop::Stop;
use gl_desk::{Desk, Slot, write_all};

/// An output of a job.
#[derive(Clone, Copy)]
pub struct Output<'a> {
    /// Where it is written.
    pub slot: Slot,
    /// The job's word for it.
    pub word: &'a str,
    /// What is written.
    pub text: &'a [u8],
}

/// Opens an output by its word and writes it whole.
fn write_output<D: Desk>(desk: &mut D, output: &Output<'_>) -> Result<(), Stop>
    requires writable { IsWritable (D.shows desk.old) output.now }
    ensures written { OnOk result
        (IsWritten (run_of D.shows D.held D.wants desk.old desk.new) (opening_of output.now) (text_of output.now)) }
    ensures cut { IfErr result (λ stop. (stop ≡ Why.Write output.now.slot)
        × IsCutShort (run_of D.shows D.held D.wants desk.old desk.new) (opening_of output.now) (text_of output.now)) }
    ensures others { OthersSame D.shows desk.old desk.new output.now.slot }
    ensures names { NamesSame D.held D.wants desk.old desk.new }
{
    let slot = output.slot;
    if desk.open(slot, output.word).is_err() {
        return Err(Stop::Write { slot });
    }
    match write_all(desk, slot, output.text) {
        Ok(()) => Ok(()),
        Err(_) => Err(Stop::Write { slot }),
    }
}

/// Writes outputs one after another, each opened when those before it are whole.
pub fn write_outputs<D: Desk>(desk: &mut D, outputs: &[Output<'_>]) -> Result<(), Stop>
    requires writable { AllByRecursion (IsWritable (D.shows desk.old)) outputs.now }
    requires apart { AreApart outputs.now }
    ensures writes { Writes (map opening_of outputs.now) (map text_of outputs.now) [] (end_of_result result)
        (run_of D.shows D.held D.wants desk.old desk.new) }
    ensures others { (slot : Place) → IsApart slot (slots_of outputs.now) → D.shows desk.new slot ≡ D.shows desk.old slot }
    ensures names { NamesSame D.held D.wants desk.old desk.new }
{
    match outputs {
        [] => Ok(()),
        [first, behind @ ..] => match write_output(desk, first) {
            Ok(()) => write_outputs(desk, behind),
            Err(stop) => Err(stop),
        },
    }
}
