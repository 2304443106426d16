ghost use Rattle.std.specs.Prelude.{◌≡◌, ◌≤◌, Ok, length, IfErr, OnOk};
ghost use Rattle.gl_text.specs.LogicalLines.{LINE};
ghost use Rattle.gl_deck.specs.Drafts.{draft_step};
ghost use Rattle.gl_fault.specs.Refusals.{IsRefusal};
ghost use Rattle.gl_deck.specs.Refusals.{fault_of};

use crate::draft::Draft;
use crate::{Card, DeckFault};
use gl_line::Logical;
use std::alloc::Global;

impl Draft {
    /// Adds a line's card, or says why the line is refused.
    pub fn take(&mut self, alloc: Global, line: &Logical<'_>) -> Result<(), DeckFault>
        requires some { 1 ≤ length line.now.text }
        requires size { length line.now.text ≤ LINE }
        ensures taken { OnOk result (draft_step self.old line.now ≡ Ok self.new) }
        ensures refused { IfErr result
            (λ fault. IsRefusal (fault_of fault) (draft_step self.old line.now)) }
    {
        let card = Card::parse(alloc, line)?;
        if let Some(fault) = self.refused(alloc, line, &card)? {
            return Err(fault);
        }
        self.add(alloc, line.line(), card)?;
        Ok(())
    }
}
