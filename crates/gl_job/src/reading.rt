ghost use Rattle.std.specs.Prelude.{◌≡◌, false, true, IfOk, IfErr};
ghost use Rattle.gl_desk.specs.Desk.{IsInput, OthersSame, NamesSame};
ghost use Rattle.gl_job.specs.Runs.{run_of, opening, IsWhole, Unread};

use crate::stop::Stop;
use gl_desk::{Desk, ReadFault, Slot, read_all};
use std::alloc::Global;

/// Opens an input by its word and reads it whole.
pub fn read<D: Desk>(alloc: Global, desk: &mut D, slot: Slot, word: &str) -> Result<Vec<u8>, Stop>
    requires input { IsInput slot }
    requires free { (D.shows desk.old slot).used ≡ false }
    ensures whole { IfOk result (λ all.
        IsWhole (run_of D.shows D.held D.wants desk.old desk.new) (opening slot word.now) all.items) }
    // A failed open is never want of memory.
    ensures unread { IfErr result (λ stop.
        Unread stop (run_of D.shows D.held D.wants desk.old desk.new) (opening slot word.now)) }
    ensures others { OthersSame D.shows desk.old desk.new slot }
    ensures names { NamesSame D.held D.wants desk.old desk.new }
{
    if desk.open(slot, word).is_err() {
        return Err(Stop::Read { slot });
    }
    match read_all(alloc, desk, slot) {
        Ok(all) => Ok(all),
        Err(ReadFault::Failed) => Err(Stop::Read { slot }),
        Err(ReadFault::Long { .. }) => Err(Stop::LongFile { slot }),
        Err(ReadFault::Memory) => Err(Stop::Memory),
    }
}
