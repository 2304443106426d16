ghost use Rattle.std.specs.Prelude.{◌≡◌, ◌≢◌, ◌<◌, ◌≤◌, List, ℕ, [], true, false, Option, length, take, IfOk, IfSome, OnOk, OnErr};
ghost use Rattle.gl_desk.specs.declared.slot.Slot.{Slot};
ghost use Rattle.gl_desk.specs.Desk.{View, IsInput, IsOutput, Takes, Fails, Opens, NotOpened, Gives, OthersSame, NamesSame};

use crate::{Failed, Slot};

/// What a program reads and writes: named inputs and outputs, each at its slot. What a slot shows is
/// told or not, and no call changes whether it is told. A call fails only where the count of its
/// slot's faults rose; a count at the end of `u64` counts as risen.
pub trait Desk {
    /// What each slot shows.
    ghost shows: { Self → Slot → View };

    /// The bytes that an input opened by a name would hold, where the desk tells them.
    ghost held: { Self → Slot → List ℕ → Option (List ℕ) };

    /// The name by which a slot wants to be opened, where the desk tells one.
    ghost wants: { Self → Slot → Option (List ℕ) };

    /// Opens a slot by a name. A name other than the wanted one may be refused with no fault counted.
    fn open(&mut self, slot: Slot, name: &str) -> Result<(), Failed>
        requires free { (shows self.old slot).used ≡ false }
        requires not_says { slot ≢ Slot.Says }
        ensures opened { OnOk result
            (Opens slot (held self.old slot name.now) (shows self.old slot) (shows self.new slot)) }
        ensures failed { OnErr result
            (NotOpened slot name.now (wants self.old slot) (shows self.old slot) (shows self.new slot)) }
        ensures others { OthersSame shows self.old self.new slot }
        ensures names { NamesSame held wants self.old self.new };

    /// Takes the next bytes of an input into the front of `buf`, and answers how many. `Ok(0)` is the
    /// end of the input.
    fn take(&mut self, slot: Slot, buf: &mut [u8]) -> Result<usize, Failed>
        requires input { IsInput slot }
        requires used { (shows self.old slot).used ≡ true }
        requires room { 0 < length buf.old }
        ensures count { IfOk result (λ n. n ≤ length buf.new) }
        ensures bytes { IfOk result (λ n.
            Takes (shows self.old slot) (shows self.new slot) (take n buf.new)) }
        ensures end { IfOk result (λ n. n ≡ 0 →
            IfSome (shows self.new slot).left (λ rest. rest ≡ [])) }
        ensures failed { OnErr result (Fails (shows self.old slot) (shows self.new slot)) }
        ensures others { OthersSame shows self.old self.new slot }
        ensures names { NamesSame held wants self.old self.new };

    /// Gives the front of the bytes to an output, and answers how many, at least one.
    fn give(&mut self, slot: Slot, bytes: &[u8]) -> Result<usize, Failed>
        requires output { IsOutput slot }
        requires used { (shows self.old slot).used ≡ true }
        requires some { 0 < length bytes.now }
        ensures count { IfOk result (λ n. (0 < n) × (n ≤ length bytes.now)) }
        ensures given { IfOk result (λ n.
            Gives (shows self.old slot) (shows self.new slot) (take n bytes.now)) }
        ensures failed { OnErr result (Fails (shows self.old slot) (shows self.new slot)) }
        ensures others { OthersSame shows self.old self.new slot }
        ensures names { NamesSame held wants self.old self.new };
}
