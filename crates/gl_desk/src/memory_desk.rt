ghost use Rattle.std.specs.Prelude.{◌≡◌, ◌<◌};
ghost use Rattle.std.specs.Option.{option_copied, option_map};
ghost use Rattle.std.specs.BTreeMap.{get_by_text};
ghost use Rattle.gl_desk.specs.Places.{begins_with};

use crate::calls::{CallKind, Calls};
use crate::seat::Seat;
use crate::{Desk, Failed, Memory, Slot};
use std::alloc::Global;
use std::collections::BTreeMap;

/// A desk over byte lists in memory.
#[derive(Drop)]
pub struct MemoryDesk {
    alloc: Global,
    /// The greatest number of bytes that a call takes or gives.
    piece: u32,
    files: BTreeMap<String, Vec<u8>>,
    seats: [Seat; 8],
    opens: Calls,
    takes: Calls,
    gives: Calls,
    ghost some: { 0 < piece },
}

impl MemoryDesk {
    ghost use Rattle.std.specs.Prelude.{◌≡◌, ◌<◌, List, ℕ, [], None, OnOk, OnErr};
    ghost use Rattle.std.specs.Option.{option_copied};
    ghost use Rattle.gl_desk.specs.declared.slot.Slot.{Slot};
    ghost use Rattle.gl_desk.specs.declared.calls.CallKind.{CallKind};
    ghost use Rattle.gl_desk.specs.Desk.{IsFresh, NamesSame};
    ghost use Rattle.gl_desk.specs.MemoryDesk.{view_of, held_by, wanted_of, listed_of, made_of, piece_of, new_view, text_of, ViewsSame, HeldSame, WantsSame, CallsSame, Puts, Wants, Lists};

    /// A desk with no names, no wanted names and no calls to fail. Only `Says` is in use. It takes no
    /// memory.
    pub fn new(alloc: Global, piece: u32) -> MemoryDesk
        requires { 0 < piece }
        ensures views { (slot : Slot) → view_of result slot ≡ new_view slot }
        ensures fresh { IsFresh view_of result }
        ensures held { (slot : Slot) (name : List ℕ) → held_by result slot name ≡ None }
        ensures wants { (slot : Slot) → wanted_of result slot ≡ None }
        ensures none_listed { (kind : CallKind) → listed_of result kind ≡ [] }
        ensures none_made { (kind : CallKind) → made_of result kind ≡ 0 }
        ensures piece { piece_of result ≡ piece }
    {
        MemoryDesk {
            alloc,
            piece,
            files: BTreeMap::new(alloc),
            seats: [
                Seat::new(alloc, false),
                Seat::new(alloc, false),
                Seat::new(alloc, false),
                Seat::new(alloc, false),
                Seat::new(alloc, false),
                Seat::new(alloc, false),
                Seat::new(alloc, false),
                Seat::new(alloc, true),
            ],
            opens: Calls::new(alloc),
            takes: Calls::new(alloc),
            gives: Calls::new(alloc),
        }
    }

    /// Sets the bytes of a name. A second `put` of a name takes the place of the first; what is open
    /// keeps the bytes that it was opened with.
    pub fn put(&mut self, name: &str, bytes: &[u8]) -> Result<(), Memory>
        ensures ok { OnOk result (Puts self.old self.new name.now bytes.now) }
        ensures err { OnErr result (HeldSame self.old self.new) }
        ensures views { ViewsSame self.old self.new }
        ensures fresh { IsFresh view_of self.old → IsFresh view_of self.new }
        ensures wants { WantsSame self.old self.new }
        ensures calls { CallsSame self.old self.new }
    {
        let name = String::from_str(self.alloc, name)?;
        let bytes = Vec::from_slice(self.alloc, bytes)?;
        self.files.insert(name, bytes)?;
        Ok(())
    }

    /// Sets the name by which a slot wants to be opened.
    pub fn want(&mut self, slot: Slot, name: &str) -> Result<(), Memory>
        ensures ok { OnOk result (Wants self.old self.new slot name.now) }
        ensures err { OnErr result (WantsSame self.old self.new) }
        ensures views { ViewsSame self.old self.new }
        ensures fresh { IsFresh view_of self.old → IsFresh view_of self.new }
        ensures held { HeldSame self.old self.new }
        ensures calls { CallsSame self.old self.new }
    {
        self.seats[slot.place()].want(self.alloc, name)?;
        Ok(())
    }

    /// Adds a call that is to fail: the call of that kind with that number among the calls of the kind,
    /// from 1.
    pub fn fail(&mut self, kind: CallKind, number: u32) -> Result<(), Memory>
        ensures ok { OnOk result (Lists self.old self.new kind number) }
        ensures err { OnErr result (CallsSame self.old self.new) }
        ensures views { ViewsSame self.old self.new }
        ensures fresh { IsFresh view_of self.old → IsFresh view_of self.new }
        ensures names { NamesSame held_by wanted_of self.old self.new }
    {
        match kind {
            CallKind::Open => self.opens.list(number)?,
            CallKind::Take => self.takes.list(number)?,
            CallKind::Give => self.gives.list(number)?,
        }
        Ok(())
    }

    /// What an output in use was given. `None` is exactly a slot that is no output in use.
    pub fn text(&self, slot: Slot) -> Option<&[u8]>
        ensures { option_copied result ≡ text_of (view_of self.now slot) }
    {
        if slot.reads() {
            return None;
        }
        self.seats[slot.place()].bytes()
    }
}

impl Desk for MemoryDesk {
    ghost use Rattle.std.specs.Prelude.{◌≡◌, ◌≢◌, ◌<◌, ◌≤◌, ◌↔◌, [], true, false, length, take, min, IfOk, IfSome, OnOk, OnErr, IsErr};
    ghost use Rattle.gl_desk.specs.Calls.{IsDue};
    ghost use Rattle.gl_desk.specs.Desk.{IsInput, IsOutput, Opens, NotOpened, Takes, Gives, Fails, OthersSame, NamesSame};
    ghost use Rattle.gl_desk.specs.Seats.{WantsOther};
    ghost use Rattle.gl_desk.specs.MemoryDesk.{view_of, held_by, wanted_of, calls_of, piece_of, taken_size, MustFail, Counts};

    ghost shows = { view_of };

    ghost held = { held_by };

    ghost wants = { wanted_of };

    fn open(&mut self, slot: Slot, name: &str) -> Result<(), Failed>
        requires free { (view_of self.old slot).used ≡ false }
        ensures opened { OnOk result
            (Opens slot (held_by self.old slot name.now) (view_of self.old slot) (view_of self.new slot)) }
        ensures failed { OnErr result
            (NotOpened slot name.now (wanted_of self.old slot) (view_of self.old slot) (view_of self.new slot)) }
        ensures others { OthersSame view_of self.old self.new slot }
        ensures names { NamesSame held_by wanted_of self.old self.new }
        // Its count rises only where it fails.
        ensures steady { OnOk result
            ((view_of self.new slot).faults ≡ (view_of self.old slot).faults) }
        // Another name than the wanted one is no fault.
        ensures refused { MustFail self.old slot name.now → IsErr result }
        ensures other_name { WantsOther (wanted_of self.old slot) name.now →
            view_of self.new slot ≡ view_of self.old slot }
        ensures counted { Counts self.old self.new CallKind.Open }
    {
        let is_due = self.opens.count();
        let seat = &mut self.seats[slot.place()];
        let content = content_of(&self.files, slot, name);
        seat.open(self.alloc, is_due, name, content)
    }

    fn take(&mut self, slot: Slot, buf: &mut [u8]) -> Result<usize, Failed>
        requires input { IsInput slot }
        requires used { (view_of self.old slot).used ≡ true }
        requires room { 0 < length buf.old }
        ensures count { IfOk result (λ n. n ≤ length buf.new) }
        ensures bytes { IfOk result (λ n.
            Takes (view_of self.old slot) (view_of self.new slot) (take n buf.new)) }
        ensures end { IfOk result (λ n. n ≡ 0 →
            IfSome (view_of self.new slot).left (λ rest. rest ≡ [])) }
        ensures failed { OnErr result (Fails (view_of self.old slot) (view_of self.new slot)) }
        ensures others { OthersSame view_of self.old self.new slot }
        ensures names { NamesSame held_by wanted_of self.old self.new }
        // Its count rises only where it fails.
        ensures steady { OnOk result
            ((view_of self.new slot).faults ≡ (view_of self.old slot).faults) }
        // It fails exactly where the call is to fail, and takes as much as there is, at most a piece.
        ensures due { IsErr result ↔ IsDue (calls_of self.old CallKind.Take) }
        ensures size { IfOk result (λ n. n ≡ taken_size self.old slot (length buf.new)) }
        ensures counted { Counts self.old self.new CallKind.Take }
    {
        let is_due = self.takes.count();
        let seat = &mut self.seats[slot.place()];
        seat.take(is_due, self.piece as usize, buf)
    }

    fn give(&mut self, slot: Slot, bytes: &[u8]) -> Result<usize, Failed>
        requires output { IsOutput slot }
        requires used { (view_of self.old slot).used ≡ true }
        requires some { 0 < length bytes.now }
        ensures count { IfOk result (λ n. (0 < n) × (n ≤ length bytes.now)) }
        ensures given { IfOk result (λ n.
            Gives (view_of self.old slot) (view_of self.new slot) (take n bytes.now)) }
        ensures failed { OnErr result (Fails (view_of self.old slot) (view_of self.new slot)) }
        ensures others { OthersSame view_of self.old self.new slot }
        ensures names { NamesSame held_by wanted_of self.old self.new }
        // Its count rises only where it fails.
        ensures steady { OnOk result
            ((view_of self.new slot).faults ≡ (view_of self.old slot).faults) }
        // It fails where the call is to fail, and gives all, at most a piece.
        ensures due { IsDue (calls_of self.old CallKind.Give) → IsErr result }
        ensures size { IfOk result (λ n. n ≡ min (length bytes.now) (piece_of self.old)) }
        ensures counted { Counts self.old self.new CallKind.Give }
    {
        let is_due = self.gives.count();
        let seat = &mut self.seats[slot.place()];
        seat.give(is_due, self.piece as usize, bytes)
    }
}

/// What a slot begins with: an input with the bytes of its name, where there are some.
fn content_of<'a>(files: &'a BTreeMap<String, Vec<u8>>, slot: Slot, name: &str) -> Option<&'a [u8]>
    ensures { option_copied result ≡ begins_with slot
        (option_map (λ bytes. bytes.items) (get_by_text files.now name.now)) }
{
    if slot.reads() {
        files.get(name).map(|bytes| bytes.as_slice())
    } else {
        Some(&[])
    }
}
