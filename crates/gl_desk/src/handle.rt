ghost use Rattle.std.specs.Prelude.{◌≡◌, ◌<◌, ◌≤◌, length, take, IfOk, OnErr};
ghost use Rattle.gl_desk.specs.Desk.{HasRisen};

use crate::Failed;
use std::fs::File;
use std::io;
use std::io::{ErrorKind, Read, Write};

/// How often a read or a write is tried that was interrupted.
const TRIES: u32 = 8;

/// Where a slot's bytes come from or go to.
#[derive(Drop)]
pub(crate) enum Target {
    /// The slot is not in use.
    Closed,
    /// A file that was opened.
    Opened(File),
    /// Standard output.
    Standard,
}

/// What a desk of files keeps for a slot.
#[derive(Drop)]
pub(crate) struct Handle {
    target: Target,
    /// How many bytes were taken.
    taken: u64,
    /// How often a call of the slot failed.
    faults: u64,
}

impl Handle {
    ghost use Rattle.std.specs.Prelude.{◌≡◌, ◌<◌, ◌≤◌, [], true, false, length, take, IfOk, OnOk, OnErr};
    ghost use Rattle.gl_desk.specs.Desk.{Takes, Gives, Fails};
    ghost use Rattle.gl_desk.specs.Handles.{handle_view, is_used};

    /// A handle that took nothing and has not failed.
    pub(crate) fn new(target: Target) -> Handle
        ensures target { result.target ≡ target }
        ensures taken { result.taken ≡ 0 }
        ensures faults { result.faults ≡ 0 }
    {
        Handle {
            target,
            taken: 0,
            faults: 0,
        }
    }

    /// Counts a fault.
    fn fault(&mut self) -> Failed
        ensures { Fails (handle_view self.old) (handle_view self.new) }
    {
        self.faults = self.faults.saturating_add(1);
        Failed
    }

    /// Uses the file that was opened, where one was.
    pub(crate) fn open(&mut self, opened: io::Result<File>) -> Result<(), Failed>
        ensures used { OnOk result ((handle_view self.new).used ≡ true) }
        ensures taken { OnOk result ((handle_view self.new).taken ≡ 0) }
        ensures faults { OnOk result
            ((handle_view self.new).faults ≡ (handle_view self.old).faults) }
        ensures failed { OnErr result (Fails (handle_view self.old) (handle_view self.new)) }
    {
        match opened {
            Ok(file) => {
                self.target = Target::Opened(file);
                self.taken = 0;
                Ok(())
            }
            Err(_) => Err(self.fault()),
        }
    }

    /// Reads the next bytes of a file.
    pub(crate) fn take(&mut self, buf: &mut [u8]) -> Result<usize, Failed>
        ensures count { IfOk result (λ n. n ≤ length buf.new) }
        ensures bytes { IfOk result (λ n.
            Takes (handle_view self.old) (handle_view self.new) (take n buf.new)) }
        ensures failed { OnErr result (Fails (handle_view self.old) (handle_view self.new)) }
    {
        let count = match &mut self.target {
            Target::Opened(file) => read_some(file, buf, &mut self.faults)?,
            _ => return Err(self.fault()),
        };
        match self.taken.checked_add(count as u64) {
            Some(taken) => {
                self.taken = taken;
                Ok(count)
            }
            None => Err(self.fault()),
        }
    }

    /// Writes the front of the bytes to a file, or to standard output.
    pub(crate) fn give<W: Write>(&mut self, standard: &mut W, bytes: &[u8]) -> Result<usize, Failed>
        requires { 0 < length bytes.now }
        ensures count { IfOk result (λ n. (0 < n) × (n ≤ length bytes.now)) }
        ensures given { IfOk result (λ n.
            Gives (handle_view self.old) (handle_view self.new) (take n bytes.now)) }
        ensures failed { OnErr result (Fails (handle_view self.old) (handle_view self.new)) }
    {
        match &mut self.target {
            Target::Opened(file) => write_some(file, bytes, &mut self.faults),
            Target::Standard => write_some(standard, bytes, &mut self.faults),
            Target::Closed => Err(self.fault()),
        }
    }
}

/// Reads once, and again where the read was interrupted. Each error is counted.
fn read_some<R: Read>(from: &mut R, buf: &mut [u8], faults: &mut u64) -> Result<usize, Failed>
    ensures count { IfOk result (λ n. n ≤ length buf.new) }
    ensures never_falls { faults.old ≤ faults.new }
    ensures failed { OnErr result (HasRisen faults.old faults.new) }
{
    for tries in 0..TRIES {
        match from.read(buf) {
            Ok(count) => return Ok(count),
            Err(error) => {
                *faults = faults.saturating_add(1);
                if error.kind() != ErrorKind::Interrupted {
                    return Err(Failed);
                }
            }
        }
    }
    Err(Failed)
}

/// Writes once, and again where the write was interrupted. Each error is counted, and so is a write
/// that takes nothing.
fn write_some<W: Write>(to: &mut W, bytes: &[u8], faults: &mut u64) -> Result<usize, Failed>
    ensures count { IfOk result (λ n. (0 < n) × (n ≤ length bytes.now)) }
    ensures never_falls { faults.old ≤ faults.new }
    ensures failed { OnErr result (HasRisen faults.old faults.new) }
{
    for tries in 0..TRIES {
        match to.write(bytes) {
            Ok(count) if count > 0 => return Ok(count),
            Ok(_) => {
                *faults = faults.saturating_add(1);
                return Err(Failed);
            }
            Err(error) => {
                *faults = faults.saturating_add(1);
                if error.kind() != ErrorKind::Interrupted {
                    return Err(Failed);
                }
            }
        }
    }
    Err(Failed)
}
