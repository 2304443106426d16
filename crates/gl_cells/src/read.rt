ghost use Rattle.std.specs.Prelude.{◌≡◌, ◌≤◌, None, length, map, IfErr, IfOk, OnOk};
ghost use Rattle.gl_text.specs.LogicalLines.{FILE};
ghost use Rattle.gl_printed.specs.ReadDecks.{IsReadDeck};
ghost use Rattle.gl_base.specs.Libraries.{cell_of, library_cause, read_library};
ghost use Rattle.gl_cells.specs.Causes.{Gives, IsCauseIn};
ghost use Rattle.gl_cells.specs.KnownLibraries.{IsKnownLibrary};
ghost use Rattle.gl_cells.specs.Limited.{AreCountable};

use crate::cells::{cells_within_limits, refuse_cells, top_refusal};
use crate::clashes::refuse_clashes;
use crate::known::read_libraries_are_known;
use crate::{Deck, LibCell, LibFault, Library};
use std::alloc::Global;

/// What is said of each cell of a deck that is a library.
fn cells_of_deck(alloc: Global, deck: &Deck) -> Result<Vec<LibCell>, LibFault>
    requires read { IsReadDeck deck.now }
    requires few { AreCountable deck.now.subs }
    ensures accepted { OnOk result (library_cause deck.now ≡ None) }
    ensures cells { IfOk result (λ v. v.items ≡ map (cell_of deck.now.subs) deck.now.subs) }
    ensures refused { IfErr result (IsCauseIn (library_cause deck.now)) }
{
    let subs = deck.subs();
    if let Some(fault) = top_refusal(deck.top()) {
        return Err(fault);
    }
    refuse_cells(alloc, subs.as_slice())?;
    let cells = cells_within_limits(alloc, subs)?;
    refuse_clashes(alloc, subs, deck.globals())?;
    Ok(cells)
}

impl Library {
    /// The library of a file without a title, or the first of its refusals.
    pub fn read(alloc: Global, bytes: &[u8]) -> Result<Library, LibFault>
        requires size { length bytes.now ≤ FILE }
        ensures reads { Gives result (read_library bytes.now) }
        ensures known { IfOk result IsKnownLibrary }
    {
        read_libraries_are_known();
        let deck = Deck::read(alloc, bytes, false)?;
        let cells = cells_of_deck(alloc, &deck)?;
        Ok(Library { deck, cells })
    }
}
