ghost use Rattle.std.specs.Prelude.{◌≡◌, true, OnOk, OnErr};
ghost use Rattle.gl_desk.specs.Desk.{IsOutput, Gives, GivesFront, OthersSame, NamesSame};

use crate::{Desk, Failed, Slot};

/// Gives all of the bytes to an output. It takes no memory of its own.
pub fn write_all<D: Desk>(desk: &mut D, slot: Slot, bytes: &[u8]) -> Result<(), Failed>
    requires output { IsOutput slot }
    requires used { (D.shows desk.old slot).used ≡ true }
    ensures given { OnOk result (Gives (D.shows desk.old slot) (D.shows desk.new slot) bytes.now) }
    ensures failed { OnErr result
        (GivesFront (D.shows desk.old slot) (D.shows desk.new slot) bytes.now) }
    ensures others { OthersSame D.shows desk.old desk.new slot }
    ensures names { NamesSame D.held D.wants desk.old desk.new }
{
    let mut from = 0;
    while from < bytes.len() {
        from += desk.give(slot, &bytes[from..])?;
    }
    Ok(())
}
