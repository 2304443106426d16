ghost use Rattle.std.specs.Prelude.{◌≡◌, ◌+◌, ◌≤◌, [], true, length, IfOk, IfSome, IfErr, IsErrOf, OnOk, OnErr};
ghost use Rattle.gl_desk.specs.Desk.{LONGEST, IsInput, Takes, TakesSome, Caused, OthersSame, NamesSame};

use crate::{Desk, ReadFault, Slot};
use std::alloc::Global;

/// How many bytes a file may have.
pub const FILE_BYTES: usize = 67_108_864;

/// One byte more.
const TOO_LONG: usize = FILE_BYTES + 1;

/// How many bytes are asked for at once.
const PIECE: usize = 4096;

/// All that an input has left, up to its end. It ends one byte behind `FILE_BYTES`, at most. After a fault
/// what was taken is gone.
pub fn read_all<D: Desk>(alloc: Global, desk: &mut D, slot: Slot) -> Result<Vec<u8>, ReadFault>
    requires input { IsInput slot }
    requires used { (D.shows desk.old slot).used ≡ true }
    // It is whole, and the end was met.
    ensures whole { IfOk result (λ all. IfSome (D.shows desk.old slot).left (λ left. all.items ≡ left)) }
    ensures end { OnOk result (IfSome (D.shows desk.new slot).left (λ rest. rest ≡ [])) }
    ensures few { IfOk result (λ all. length all.items ≤ LONGEST) }
    // Nothing else changed, and after a fault some of the bytes are taken and lost.
    ensures taken { IfOk result (λ all. Takes (D.shows desk.old slot) (D.shows desk.new slot) all.items) }
    ensures lost { OnErr result (TakesSome (D.shows desk.old slot) (D.shows desk.new slot)) }
    ensures cause { IfErr result (λ fault. Caused fault (D.shows desk.old slot) (D.shows desk.new slot)) }
    // It is too long wherever one byte too many was taken: no memory is asked for that byte.
    ensures long { (D.shows desk.new slot).taken ≡ (D.shows desk.old slot).taken + (LONGEST + 1) →
        IsErrOf result (ReadFault.Long (LONGEST + 1)) }
    ensures others { OthersSame D.shows desk.old desk.new slot }
    ensures names { NamesSame D.held D.wants desk.old desk.new }
{
    let mut all = Vec::new(alloc);
    let mut piece = [0u8; PIECE];
    loop {
        let room = (TOO_LONG - all.len()).min(PIECE);
        let count = desk.take(slot, &mut piece[..room])?;
        if count == 0 {
            return Ok(all);
        }
        if all.len() + count == TOO_LONG {
            return Err(ReadFault::Long {
                number: TOO_LONG as u32,
            });
        }
        all.extend_from_slice(&piece[..count])?;
    }
}
