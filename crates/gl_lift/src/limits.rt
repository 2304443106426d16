//! The limits of what is written, told before a text is built that would pass one.
ghost use Rattle.std.specs.Prelude.{◌≡◌, ◌+◌, ◌++◌, ◌||◌, ℕ, List, length, nat_lt, IfOk};
ghost use Rattle.gl_text.specs.Flattening.{CARDS};
ghost use Rattle.gl_text.specs.LogicalLines.{FILE, NAME};
ghost use Rattle.gl_base.specs.Rounds.{cards_of};
ghost use Rattle.gl_lifting.specs.Counting.{has_longer};
ghost use Rattle.gl_lifting.specs.NameMaps.{map_text};
ghost use Rattle.gl_lifting.specs.Renaming.{new_names};
ghost use Rattle.gl_lifting.specs.HistoryReports.{history_report};
ghost use Rattle.gl_lifting.specs.OutLimits.{of_lifted_text, of_map_text, of_report_text, passed_if};
ghost use Rattle.gl_limit.specs.Bounds.{text_if_short};
ghost use Rattle.gl_limit.specs.Limits.{limit_value};
ghost use Rattle.gl_found.specs.Founds.{IsRunOf};
ghost use Rattle.gl_lift.specs.Counted.{Judges, passed_by};

use crate::fault::LimitFault;
use gl_cells::Library;
use gl_flat::Flat;
use gl_history::Lifted;
use gl_limit::{OutLimit, WriteFault};
use gl_named::Names;
use gl_report::report_text;
use gl_write::Written;
use std::alloc::Global;

/// The most cards to which a lifted deck may expand.
const CARD_LIMIT: usize = 400_000;

/// Tells a limit that is passed.
pub fn refuse_if(is_passed: bool, limit: OutLimit) -> Result<(), LimitFault>
    ensures judges { Judges (passed_if is_passed (limit_value limit)) result }
{
    if is_passed {
        return Err(LimitFault::Passed(limit));
    }
    Ok(())
}

/// Whether a name of a subcircuit of the lifted deck, or a new name of the map, is too long.
pub fn has_long_name(written: &Written, names: &Names<'_>) -> bool
    ensures long { result ≡ (written.now.has_long_name
        || has_longer NAME (new_names names.now.map.devices ++ new_names names.now.map.nets)) }
{
    written.has_long_name || names.has_long_name()
}

/// Whether the lifted deck expands to too many cards: one for each original device, and one for each chosen instance.
pub fn has_many_cards(flat: &Flat, lifted: &Lifted) -> bool
    ensures many { result ≡ nat_lt CARDS (length (cards_of flat.now) + lifted.now.chosen) }
{
    flat.devices().len() + lifted.chosen as usize > CARD_LIMIT
}

/// The lifted deck's text, where it is short enough.
pub fn deck_within(written: Written) -> Result<Vec<u8>, LimitFault>
    ensures text { IfOk result (λ given. (whole : List ℕ)
        → written.text ≡ text_if_short whole → given.items ≡ whole) }
    ensures judges { (whole : List ℕ) → written.text ≡ text_if_short whole
        → Judges (passed_if (nat_lt FILE (length whole)) of_lifted_text) result }
{
    match written.text {
        Some(text) => Ok(text),
        None => Err(LimitFault::Passed(OutLimit::LiftedText)),
    }
}

/// Which limit a text passes that is too long.
fn passed(fault: WriteFault, limit: OutLimit) -> LimitFault
    ensures passed { result ≡ passed_by fault limit }
{
    match fault {
        WriteFault::TooLong => LimitFault::Passed(limit),
        WriteFault::Memory => LimitFault::Memory,
    }
}

/// The map's text, where it is short enough.
pub fn map_within(alloc: Global, names: &Names<'_>) -> Result<Vec<u8>, LimitFault>
    ensures text { IfOk result (λ text. text.items ≡ map_text names.now.map) }
    ensures judges { Judges (passed_if (nat_lt FILE (length (map_text names.now.map))) of_map_text) result }
{
    match names.text(alloc) {
        Ok(text) => Ok(text),
        Err(fault) => Err(passed(fault, OutLimit::MapText)),
    }
}

/// The report, where it is short enough.
pub fn report_within(
    alloc: Global,
    flat: &Flat,
    library: &Library,
    lifted: &Lifted,
    stem: &[u8],
) -> Result<Vec<u8>, LimitFault>
    ensures text { IfOk result (λ text. (r : IsRunOf flat.now library.now lifted.now) → text.items
        ≡ history_report stem.now flat.now library.now r.shown.history) }
    ensures judges { (r : IsRunOf flat.now library.now lifted.now) → Judges (passed_if (nat_lt FILE
        (length (history_report stem.now flat.now library.now r.shown.history))) of_report_text) result }
{
    match report_text(alloc, flat, library, lifted, stem) {
        Ok(text) => Ok(text),
        Err(fault) => Err(passed(fault, OutLimit::ReportText)),
    }
}
