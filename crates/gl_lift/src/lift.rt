//! From a deck and a library to the texts.
ghost use Rattle.std.specs.Prelude.{◌≡◌, None, Ok, Option, IfOk, IfErr};
ghost use Rattle.std.specs.Option.{option_copied};
ghost use Rattle.gl_fault.specs.Refusals.{IsFound};
ghost use Rattle.gl_base.specs.Rounds.{source_of};
ghost use Rattle.gl_base.specs.Keeping.{unknown_keep};
ghost use Rattle.gl_lifting.specs.Runs.{run_of};
ghost use Rattle.gl_flat.specs.Refusals.{Gives};
ghost use Rattle.gl_lib.specs.Kept.{unknown_of};
ghost use Rattle.gl_lib.specs.Sources.{AreSound};
ghost use Rattle.gl_lift.specs.Lifting.{flat_deck, lifted_flat, unless_unknown};
ghost use Rattle.gl_lift.specs.LiftedRuns.{IsLiftedRun};
ghost use Rattle.gl_lift.specs.Liftable.{IsLiftable, IsSearchable};
ghost use Rattle.gl_lift.specs.Refusals.{AreLifted, IsNotLifted};

use crate::fault::LiftFault;
use crate::laws::{flat_decks_are_sound, plain_texts_are_texts};
use crate::texts::{Texts, texts_of_rounds};
use gl_cells::{Deck, Library};
use gl_flat::{Flat, FlatFault, flatten};
use gl_history::{Lift, Lifted};
use gl_lib::{KeepFault, Levels, Name, levels_of, run_rails, run_rails_are_fine};
use std::alloc::Global;

/// The flat deck of a deck, with the rails of the run, and with a top or none.
fn flat_of(
    alloc: Global,
    deck: &Deck,
    library: &Library,
    top: Option<&Name>,
) -> Result<Flat, FlatFault>
    requires deck { IsLiftable deck.now }
    requires library { IsSearchable library.now }
    ensures gives { Gives result (flat_deck (option_copied top.entry) deck.now library.now) }
{
    run_rails_are_fine();
    let rails = run_rails(alloc, deck.globals(), library.deck().globals())?;
    flatten(alloc, deck, &rails, top)
}

/// All rounds of a library's cells in a flat deck, with the nets of some names kept.
fn lifted_of(
    alloc: Global,
    flat: &Flat,
    library: &Library,
    keep: &[Name],
) -> Result<Lifted, KeepFault>
    requires sound { AreSound flat.now library.now }
    ensures known { IfOk result (λ lifted. unknown_keep keep.now (source_of flat.now library.now) ≡ None) }
    ensures lifted { IfOk result (IsLiftedRun (run_of flat.now library.now keep.now)) }
    ensures refused { IfErr result (λ fault. IsFound (unknown_of fault)
        (unknown_keep keep.now (source_of flat.now library.now))) }
{
    let Levels {
        circuit,
        pinned,
        cells,
    } = levels_of(alloc, flat, library, keep)?;
    let lifted = Lift::run(alloc, circuit, &pinned, &cells)?;
    Ok(lifted)
}

/// The texts of a flat deck, with the nets of some names kept.
fn texts_of_flat(
    alloc: Global,
    flat: &Flat,
    library: &Library,
    keep: &[Name],
) -> Result<Texts, LiftFault>
    requires sound { AreSound flat.now library.now }
    ensures texts { IfOk result
        (AreLifted keep.now library.now (unless_unknown keep.now library.now (Ok flat.now))) }
    ensures refused { IfErr result
        (IsNotLifted keep.now library.now (unless_unknown keep.now library.now (Ok flat.now))) }
{
    let lifted = lifted_of(alloc, flat, library, keep)?;
    let texts = texts_of_rounds(alloc, flat, library, &lifted)?;
    Ok(texts)
}

/// The lifted deck, the map of names and the report of all rounds of a library's cells in a deck, with a top or none, and with
/// the nets of some names kept; or the refusal of the deck as it is flattened, then the first kept name that is no net of a
/// device, and then the first limit that the texts pass, as it is counted. The deck is given up when it is flattened, to make
/// room for the search.
pub fn texts_of(
    alloc: Global,
    deck: Deck,
    library: &Library,
    top: Option<&Name>,
    keep: &[Name],
) -> Result<Texts, LiftFault>
    requires deck { IsLiftable deck }
    requires library { IsSearchable library.now }
    ensures texts { IfOk result (AreLifted keep.now library.now
        (lifted_flat (option_copied top.entry) keep.now deck library.now)) }
    ensures refused { IfErr result (IsNotLifted keep.now library.now
        (lifted_flat (option_copied top.entry) keep.now deck library.now)) }
{
    flat_decks_are_sound();
    let flat = flat_of(alloc, &deck, library, top)?;
    drop(deck);
    plain_texts_are_texts();
    texts_of_flat(alloc, &flat, library, keep)
}
