ghost use Rattle.std.specs.Prelude.{◌≡◌, None, IfErr, IfOk, OnOk};
ghost use Rattle.gl_deck.specs.Drafts.{calls_in, deck_of, finished, open_in, end_fault};
ghost use Rattle.gl_deck.specs.Refusals.{Gives, IsFaultIn, MustRefuse, Refuses};

use crate::calls::first_call_fault;
use crate::draft::Draft;
use crate::globals::drop_zero;
use crate::{Deck, DeckFault};
use std::alloc::{AllocError, Global};

impl Draft {
    /// A subcircuit is still open. It takes no memory, and never tells of want of it.
    fn left_open(&self) -> Option<DeckFault>
        ensures left_open { Refuses result (open_in self.now) }
    {
        match &self.current {
            Some(sub) => Some(DeckFault::OpenSubckt { line: sub.line() }),
            None => None,
        }
    }

    /// The first X card whose call is refused.
    fn bad_call(&self, alloc: Global) -> Result<Option<DeckFault>, AllocError>
        ensures bad_call { IfOk result (λ fault. Refuses fault (calls_in self.now)) }
    {
        first_call_fault(alloc, &self.subs, &self.sites)
    }

    /// Refuses the first X card whose call is refused.
    fn refuse_calls(&self, alloc: Global) -> Result<(), DeckFault>
        ensures fine { OnOk result (calls_in self.now ≡ None) }
        ensures first { IfErr result (IsFaultIn (calls_in self.now)) }
    {
        match self.bad_call(alloc)? {
            Some(fault) => Err(fault),
            None => Ok(()),
        }
    }

    /// Refuses a subcircuit that is open, or a call that is refused. The first takes no memory, and is told where it is.
    fn refuse_unfinished(&self, alloc: Global) -> Result<(), DeckFault>
        ensures fine { OnOk result (end_fault self.now ≡ None) }
        ensures first { IfErr result (IsFaultIn (end_fault self.now)) }
        ensures left_open { MustRefuse result (open_in self.now) }
    {
        match self.left_open() {
            Some(fault) => Err(fault),
            None => self.refuse_calls(alloc),
        }
    }

    /// The deck of all cards.
    fn into_deck(self, alloc: Global, title: Vec<u8>) -> Result<Deck, AllocError>
        ensures deck { IfOk result (λ deck. deck ≡ deck_of title.items self) }
    {
        let globals = drop_zero(alloc, self.globals)?;
        Ok(Deck {
            title,
            globals,
            models: self.models,
            subs: self.subs,
            top: self.top,
            passed: self.passed,
        })
    }

    /// The deck of all cards, or why they are none. A subcircuit that is still open is refused without memory, so that no want
    /// of it is told in its place.
    pub fn finish(self, alloc: Global, title: Vec<u8>) -> Result<Deck, DeckFault>
        ensures finished { Gives result (finished title.items self) }
        ensures left_open { MustRefuse result (open_in self) }
    {
        match self.refuse_unfinished(alloc) {
            Ok(()) => Ok(self.into_deck(alloc, title)?),
            Err(fault) => Err(fault),
        }
    }
}
