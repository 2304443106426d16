use crate::handle::{Handle, Target};
use crate::{Desk, Failed, Slot};
use std::fs::File;
use std::rt::Files;
use std::{fs, io};

/// A desk over files, with standard output for `Says`. It tells no bytes and no wanted name.
#[derive(Drop)]
pub struct RealDesk<'a, R> {
    rt: &'a R,
    handles: [Handle; 8],
}

impl<'a, R: Files<File = File> + Print> RealDesk<'a, R> {
    ghost use Rattle.std.specs.Prelude.{◌≡◌};
    ghost use Rattle.gl_desk.specs.declared.slot.Slot.{Slot};
    ghost use Rattle.gl_desk.specs.Desk.{IsFresh};
    ghost use Rattle.gl_desk.specs.RealDesk.{real_view, untold_view};

    /// A desk with no open file. Only `Says` is in use. It takes no memory.
    pub fn new(rt: &'a R) -> RealDesk<'a, R>
        ensures views { (slot : Slot) → real_view result slot ≡ untold_view slot }
        ensures fresh { IsFresh real_view result }
    {
        RealDesk {
            rt,
            handles: [
                Handle::new(Target::Closed),
                Handle::new(Target::Closed),
                Handle::new(Target::Closed),
                Handle::new(Target::Closed),
                Handle::new(Target::Closed),
                Handle::new(Target::Closed),
                Handle::new(Target::Closed),
                Handle::new(Target::Standard),
            ],
        }
    }
}

impl<R: Files<File = File> + Print> Desk for RealDesk<'_, R> {
    ghost use Rattle.std.specs.Prelude.{None};
    ghost use Rattle.gl_desk.specs.RealDesk.{real_view};

    ghost shows = { real_view };

    ghost held = { λ desk slot name. None };

    ghost wants = { λ desk slot. None };

    fn open(&mut self, slot: Slot, name: &str) -> Result<(), Failed> {
        let opened = if slot.reads() {
            fs::open(self.rt, name)
        } else {
            fs::create(self.rt, name)
        };
        self.handles[slot.place()].open(opened)
    }

    fn take(&mut self, slot: Slot, buf: &mut [u8]) -> Result<usize, Failed> {
        self.handles[slot.place()].take(buf)
    }

    fn give(&mut self, slot: Slot, bytes: &[u8]) -> Result<usize, Failed> {
        let mut standard = io::writer(self.rt);
        self.handles[slot.place()].give(&mut standard, bytes)
    }
}
