//! The way from a deck and a library to the lifted deck, written.
ghost use Rattle.std.specs.Prelude.{IfOk};
ghost use Rattle.std.specs.Option.{option_copied};
ghost use Rattle.gl_flat.specs.Refusals.{Gives};
ghost use Rattle.gl_found.specs.Founds.{IsRunOf};
ghost use Rattle.gl_lib.specs.Sources.{AreSound};
ghost use Rattle.gl_lift.specs.Lifting.{flat_deck};
ghost use Rattle.gl_lift.specs.Liftable.{IsLiftable, IsSearchable};

use gl_cells::{Deck, Library};
use gl_flat::{Flat, FlatFault, flatten};
use gl_history::{Lift, Lifted};
use gl_lib::{KeepFault, Levels, Name, levels_of, run_rails, run_rails_are_fine};
use gl_lift::{LiftFault, flat_decks_are_sound};
use gl_name::stem;
use gl_write::{Written, lifted_text};
use std::alloc::Global;

/// The flat deck of a deck, with the rails of the run, and with a top or none.
fn flat_of(
    alloc: Global,
    deck: &Deck,
    library: &Library,
    top: Option<&Name>,
) -> Result<Flat, FlatFault>
    requires deck { IsLiftable deck.now }
    requires library { IsSearchable library.now }
    ensures gives { Gives result (flat_deck (option_copied top.entry) deck.now library.now) }
{
    run_rails_are_fine();
    let rails = run_rails(alloc, deck.globals(), library.deck().globals())?;
    flatten(alloc, deck, &rails, top)
}

/// All rounds of a library's cells in a flat deck.
fn rounds_in(alloc: Global, flat: &Flat, library: &Library) -> Result<Lifted, KeepFault>
    requires sound { AreSound flat.now library.now }
    ensures run { IfOk result (IsRunOf flat.now library.now) }
{
    let Levels {
        circuit,
        pinned,
        cells,
    } = levels_of(alloc, flat, library, &[])?;
    let lifted = Lift::run(alloc, circuit, &pinned, &cells)?;
    Ok(lifted)
}

/// The lifted deck of a flat deck, written.
fn written_of_flat(alloc: Global, flat: &Flat, library: &Library) -> Result<Written, KeepFault>
    requires sound { AreSound flat.now library.now }
{
    let lift = rounds_in(alloc, flat, library)?;
    let stem = stem(alloc, flat)?;
    let written = lifted_text(alloc, flat, library, &lift, &stem)?;
    Ok(written)
}

/// The lifted deck of a deck, with a top or none, written.
pub fn written_of(
    alloc: Global,
    deck: &Deck,
    library: &Library,
    top: Option<&Name>,
) -> Result<Written, LiftFault>
    requires deck { IsLiftable deck.now }
    requires library { IsSearchable library.now }
{
    flat_decks_are_sound();
    let flat = flat_of(alloc, deck, library, top)?;
    let written = written_of_flat(alloc, &flat, library)?;
    Ok(written)
}
