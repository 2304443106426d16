//! The texts that are told from the rounds of a run.
ghost use Rattle.std.specs.Prelude.{IfOk, IfErr};
ghost use Rattle.gl_base.specs.Stems.{IsStem, names_in};
ghost use Rattle.gl_found.specs.Founds.{IsRunOf};
ghost use Rattle.gl_lift.specs.Counted.{AreCountedTexts, IsCountedLimit, TellsLimit};

use crate::fault::LimitFault;
use crate::limits::{
    deck_within, has_long_name, has_many_cards, map_within, refuse_if, report_within,
};
use gl_cells::Library;
use gl_flat::Flat;
use gl_history::Lifted;
use gl_limit::OutLimit;
use gl_name::stem;
use gl_named::Names;
use gl_write::lifted_text;
use std::alloc::Global;
use std::marker::Model;

/// What is written of a deck and a library: the lifted deck, the map of names and the report, each a whole text.
#[derive(Debug, Drop)]
pub struct Texts {
    /// The lifted deck.
    pub lifted: Vec<u8>,
    /// The map of names.
    pub map: Vec<u8>,
    /// The report.
    pub report: Vec<u8>,
}

impl Model for Texts {
    ghost use Rattle.gl_lifting.specs.LiftJobs.{Texts as TextsValue};

    ghost Value = { TextsValue };

    ghost view = { λ t. record { lifted = t.lifted.items; map = t.map.items; report = t.report.items } };
}

/// The texts that are told from the rounds of a run under a stem, or the first limit that they pass.
fn texts_under(
    alloc: Global,
    flat: &Flat,
    library: &Library,
    lifted: &Lifted,
    stem: &[u8],
) -> Result<Texts, LimitFault>
    requires run { IsRunOf flat.now library.now lifted.now }
    requires stem { IsStem (names_in flat.now) stem.now }
    ensures texts { IfOk result (λ texts. (r : IsRunOf flat.now library.now lifted.now)
        → AreCountedTexts r.keep library.now flat.now texts) }
    ensures limit { IfErr result (λ fault. (r : IsRunOf flat.now library.now lifted.now)
        → TellsLimit (IsCountedLimit r.keep library.now flat.now) fault) }
{
    let written = lifted_text(alloc, flat, library, lifted, stem)?;
    let names = Names::of(alloc, flat, library, lifted, stem)?;
    refuse_if(has_long_name(&written, &names), OutLimit::Name)?;
    refuse_if(has_many_cards(flat, lifted), OutLimit::Cards)?;
    let deck = deck_within(written)?;
    refuse_if(names.has_long_flat(alloc)?, OutLimit::LiftedFlat)?;
    let map = map_within(alloc, &names)?;
    let report = report_within(alloc, flat, library, lifted, stem)?;
    Ok(Texts {
        lifted: deck,
        map,
        report,
    })
}

/// The texts that are told from the rounds of a run, or the first limit that they pass.
pub fn texts_of_rounds(
    alloc: Global,
    flat: &Flat,
    library: &Library,
    lifted: &Lifted,
) -> Result<Texts, LimitFault>
    requires run { IsRunOf flat.now library.now lifted.now }
    ensures texts { IfOk result (λ texts. (r : IsRunOf flat.now library.now lifted.now)
        → AreCountedTexts r.keep library.now flat.now texts) }
    ensures limit { IfErr result (λ fault. (r : IsRunOf flat.now library.now lifted.now)
        → TellsLimit (IsCountedLimit r.keep library.now flat.now) fault) }
{
    let stem = stem(alloc, flat)?;
    texts_under(alloc, flat, library, lifted, &stem)
}
