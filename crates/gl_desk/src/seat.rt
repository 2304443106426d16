ghost use Rattle.std.specs.Prelude.{◌≡◌, ◌≤◌, [], false, length};

use crate::Failed;
use std::alloc::{AllocError, Global};

/// What a desk in memory keeps for a slot. One that is not in use holds no bytes.
#[derive(Drop)]
pub(crate) struct Seat {
    used: bool,
    /// The name by which the slot wants to be opened.
    wanted: Option<Vec<u8>>,
    /// The bytes that an input holds, or that an output was given.
    bytes: Vec<u8>,
    /// How many bytes of an input were taken.
    mark: usize,
    /// How often a call of the slot failed.
    faults: u64,
    ghost in_range: { mark ≤ length bytes.items },
    ghost idle: { used ≡ false → bytes.items ≡ [] },
}

impl Seat {
    ghost use Rattle.std.specs.Prelude.{◌≡◌, ◌<◌, ◌≤◌, ◌-◌, ◌↔◌, min, [], Bool, true, false, Some, length, take, IfOk, IfSome, OnOk, OnErr, IsErr, IsTrue, IsSomeAnd, None, if◌then◌else◌};
    ghost use Rattle.std.specs.Option.{option_copied};
    ghost use Rattle.gl_desk.specs.Desk.{Takes, Gives, Fails};
    ghost use Rattle.gl_desk.specs.Seats.{seat_view, seat_wants, WantsOther, IsNew, Starts, NotStarted, Unchanged, Faults};

    /// A seat that holds nothing and wants no name.
    pub(crate) fn new(alloc: Global, used: bool) -> Seat
        ensures { IsNew result used }
    {
        Seat {
            used,
            wanted: None,
            bytes: Vec::new(alloc),
            mark: 0,
            faults: 0,
        }
    }

    /// What an output was given, or an input holds.
    pub(crate) fn bytes(&self) -> Option<&[u8]>
        ensures { option_copied result ≡
            (if self.now.used then Some self.now.bytes.items else None) }
    {
        if self.used { Some(&self.bytes) } else { None }
    }

    /// Sets the name by which the slot wants to be opened.
    pub(crate) fn want(&mut self, alloc: Global, name: &str) -> Result<(), AllocError>
        ensures shows { (input : Bool) → seat_view input self.new ≡ seat_view input self.old }
        ensures ok { OnOk result (seat_wants self.new ≡ Some name.now) }
        ensures err { OnErr result (seat_wants self.new ≡ seat_wants self.old) }
    {
        self.wanted = Some(Vec::from_slice(alloc, name.as_bytes())?);
        Ok(())
    }

    /// Whether the slot wants another name than this.
    pub(crate) fn wants_other(&self, name: &str) -> bool
        ensures { IsTrue result ↔ WantsOther (seat_wants self.now) name.now }
    {
        match &self.wanted {
            Some(wanted) => wanted.as_slice() != name.as_bytes(),
            None => false,
        }
    }

    /// Counts a fault.
    pub(crate) fn fault(&mut self) -> Failed
        ensures { Faults self.old self.new }
    {
        self.faults = self.faults.saturating_add(1);
        Failed
    }

    /// Opens the slot with a copy of the bytes. Want of memory is a fault.
    fn start(&mut self, alloc: Global, bytes: &[u8]) -> Result<(), Failed>
        ensures started { OnOk result (Starts self.old self.new bytes.now) }
        ensures failed { OnErr result (Faults self.old self.new) }
    {
        match Vec::from_slice(alloc, bytes) {
            Ok(copy) => {
                self.used = true;
                self.bytes = copy;
                self.mark = 0;
                Ok(())
            }
            Err(_) => Err(self.fault()),
        }
    }

    /// Opens the slot with a copy of its content. Another name than the wanted one is refused; a call
    /// that is to fail, no content and want of memory are faults.
    pub(crate) fn open(
        &mut self,
        alloc: Global,
        is_due: bool,
        name: &str,
        content: Option<&[u8]>,
    ) -> Result<(), Failed>
        ensures started { OnOk result
            (IsSomeAnd content.entry (λ bytes. Starts self.old self.new bytes.now)) }
        ensures failed { OnErr result (NotStarted name.now self.old self.new) }
        ensures other_name { WantsOther (seat_wants self.old) name.now →
            IsErr result × Unchanged self.old self.new }
        ensures due { IsTrue is_due → IsErr result }
        ensures wants { seat_wants self.new ≡ seat_wants self.old }
    {
        if self.wants_other(name) {
            return Err(Failed);
        }
        match content {
            Some(bytes) if !is_due => self.start(alloc, bytes),
            _ => Err(self.fault()),
        }
    }

    /// Takes the next bytes, at most `piece` of them. It takes no memory.
    fn take_front(&mut self, piece: usize, buf: &mut [u8]) -> usize
        requires some { 0 < piece }
        requires room { 0 < length buf.old }
        ensures count { result ≤ length buf.new }
        ensures bytes { Takes (seat_view true self.old) (seat_view true self.new) (take result buf.new) }
        ensures size { result ≡
            min (min (length self.old.bytes.items - self.old.mark) (length buf.new)) piece }
        ensures end { result ≡ 0 → IfSome (seat_view true self.new).left (λ rest. rest ≡ []) }
        ensures steady { self.new.faults ≡ self.old.faults }
        ensures wants { seat_wants self.new ≡ seat_wants self.old }
    {
        let rest = &self.bytes[self.mark..];
        let count = rest.len().min(buf.len()).min(piece);
        buf[..count].copy_from_slice(&rest[..count]);
        self.mark += count;
        count
    }

    /// Takes the next bytes, unless the call is to fail.
    pub(crate) fn take(
        &mut self,
        is_due: bool,
        piece: usize,
        buf: &mut [u8],
    ) -> Result<usize, Failed>
        requires some { 0 < piece }
        requires room { 0 < length buf.old }
        ensures count { IfOk result (λ n. n ≤ length buf.new) }
        ensures bytes { IfOk result (λ n.
            Takes (seat_view true self.old) (seat_view true self.new) (take n buf.new)) }
        ensures end { IfOk result (λ n. n ≡ 0 →
            IfSome (seat_view true self.new).left (λ rest. rest ≡ [])) }
        ensures failed { OnErr result (Fails (seat_view true self.old) (seat_view true self.new)) }
        ensures steady { OnOk result (self.new.faults ≡ self.old.faults) }
        ensures due { IsErr result ↔ IsTrue is_due }
        ensures size { IfOk result (λ n. n ≡
            min (min (length self.old.bytes.items - self.old.mark) (length buf.new)) piece) }
        ensures wants { seat_wants self.new ≡ seat_wants self.old }
    {
        if is_due {
            return Err(self.fault());
        }
        Ok(self.take_front(piece, buf))
    }

    /// Adds the front of the bytes, at most `piece` of them, unless the call is to fail. Want of memory
    /// is a fault.
    pub(crate) fn give(&mut self, is_due: bool, piece: usize, bytes: &[u8]) -> Result<usize, Failed>
        requires some { 0 < piece }
        requires used { self.old.used ≡ true }
        requires bytes { 0 < length bytes.now }
        ensures count { IfOk result (λ n. (0 < n) × (n ≤ length bytes.now)) }
        ensures given { IfOk result (λ n.
            Gives (seat_view false self.old) (seat_view false self.new) (take n bytes.now)) }
        ensures failed { OnErr result
            (Fails (seat_view false self.old) (seat_view false self.new)) }
        ensures steady { OnOk result (self.new.faults ≡ self.old.faults) }
        ensures due { IsTrue is_due → IsErr result }
        ensures size { IfOk result (λ n. n ≡ min (length bytes.now) piece) }
        ensures wants { seat_wants self.new ≡ seat_wants self.old }
    {
        if is_due {
            return Err(self.fault());
        }
        let count = bytes.len().min(piece);
        match self.bytes.extend_from_slice(&bytes[..count]) {
            Ok(()) => Ok(count),
            Err(_) => Err(self.fault()),
        }
    }
}
