ghost use Rattle.std.specs.Prelude.{◌≤◌, length};
ghost use Rattle.gl_text.specs.LogicalLines.{FILE, logical_lines};
ghost use Rattle.gl_deck.specs.Drafts.{drafted_from, empty_draft};
ghost use Rattle.gl_deck.specs.Refusals.{Gives};

use crate::DeckFault;
use crate::draft::Draft;
use gl_line::LogicalLines;
use std::alloc::Global;

/// What stands of a deck behind all its lines, or the first refusal of a line.
pub fn drafted(alloc: Global, bytes: &[u8], first_line: u32) -> Result<Draft, DeckFault>
    requires size { length bytes.now ≤ FILE }
    requires numbered { (1 ≤ first_line) × (first_line ≤ 2) }
    ensures drafted { Gives result (drafted_from empty_draft (logical_lines first_line bytes.now)) }
{
    let mut draft = Draft::new(alloc);
    for line in LogicalLines::new(alloc, bytes, first_line) {
        draft.take(alloc, &line?)?;
    }
    Ok(draft)
}
