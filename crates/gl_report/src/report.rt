//! The report of a run over all its rounds.
ghost use Rattle.std.specs.Prelude.{◌≡◌, ◌≤◌, ◌∷◌, ◌++◌, [], OnOk, IfOk, IfErr, length, codes};
ghost use Rattle.std.specs.Fmt.{decimal};
ghost use Rattle.gl_text.specs.LogicalLines.{FILE};
ghost use Rattle.gl_base.specs.Reports.{line};
ghost use Rattle.gl_lifting.specs.HistoryReports.{history_report};
ghost use Rattle.gl_found.specs.Founds.{IsRunOf};
ghost use Rattle.gl_limit.specs.Bounds.{Tells};
ghost use Rattle.gl_report.specs.Shown.{shown_report};
ghost use Rattle.gl_report.specs.Pieces.{round_text, rounds_text, left_lines};

use crate::cells::put_cells;
use crate::names::Names;
use crate::originals::left;
use crate::words::{put, put_number};
use gl_cells::Library;
use gl_flat::Flat;
use gl_history::{Lifted, Round};
use gl_limit::{WriteFault, check_length, fronts_are_shorter};
use gl_match::Memory;
use std::alloc::Global;

/// Appends the first line of a round, with the number of its level.
fn put_level(out: &mut Vec<u8>, level: usize) -> Result<(), Memory>
    ensures ok { OnOk result (out.new.items
        ≡ out.old.items ++ line (codes "round" ∷ decimal level ∷ [])) }
{
    put(out, b"round ")?;
    put_number(out, level)?;
    put(out, b"\n")
}

/// Appends the lines of a round.
fn put_round(
    out: &mut Vec<u8>,
    names: &Names<'_>,
    library: &Library,
    level: usize,
    round: &Round,
) -> Result<(), WriteFault>
    ensures ok { OnOk result (out.new.items
        ≡ out.old.items ++ round_text names.now library.now (level, round.now)) }
    ensures fault { IfErr result (λ fault. Tells fault
        (out.old.items ++ round_text names.now library.now (level, round.now))) }
{
    put_level(out, level)?;
    let names = names.of_round(&round.origins);
    let subs = library.deck().subs().as_slice();
    put_cells(out, &names, level, subs, library.cells(), &round.cells)
}

/// Appends the lines of rounds, numbered from 0.
fn put_rounds(
    out: &mut Vec<u8>,
    names: &Names<'_>,
    library: &Library,
    rounds: &[Round],
) -> Result<(), WriteFault>
    ensures ok { OnOk result (out.new.items
        ≡ out.old.items ++ rounds_text names.now library.now rounds.now) }
    ensures fault { IfErr result (λ fault. Tells fault
        (out.old.items ++ rounds_text names.now library.now rounds.now)) }
{
    fronts_are_shorter();
    for (level, round) in rounds.iter().enumerate() {
        put_round(out, names, library, level, round)?;
    }
    Ok(())
}

/// Appends how many devices are left, and the last line.
fn put_left(out: &mut Vec<u8>, left: usize) -> Result<(), Memory>
    ensures ok { OnOk result (out.new.items ≡ out.old.items ++ left_lines left) }
{
    put(out, b"left ")?;
    put_number(out, left)?;
    put(out, b"\nend\n")
}

/// Appends the report, unless the text is then too long.
fn put_report(
    out: &mut Vec<u8>,
    names: &Names<'_>,
    library: &Library,
    rounds: &[Round],
    left: usize,
) -> Result<(), WriteFault>
    ensures ok { OnOk result (out.new.items
        ≡ out.old.items ++ shown_report names.now library.now rounds.now left) }
    ensures short { OnOk result (length out.new.items ≤ FILE) }
    ensures fault { IfErr result (λ fault. Tells fault
        (out.old.items ++ shown_report names.now library.now rounds.now left)) }
{
    fronts_are_shorter();
    put_rounds(out, names, library, rounds)?;
    put_left(out, left)?;
    check_length(out)
}

/// The report of all rounds, each with the number of its level: what became of each cell of the level, in library order, with
/// the list of a searched one and its picks; and behind the rounds how many devices are left. A device of a round is named by
/// where it comes from: an original one by its flat name, and one that stands for a chosen instance by the stem and its number.
pub fn report_text(
    alloc: Global,
    flat: &Flat,
    library: &Library,
    lift: &Lifted,
    stem: &[u8],
) -> Result<Vec<u8>, WriteFault>
    ensures text { IfOk result (λ text. (r : IsRunOf flat.now library.now lift.now)
        → text.items ≡ history_report stem.now flat.now library.now r.shown.history) }
    ensures short { IfOk result (λ text. length text.items ≤ FILE) }
    ensures fault { IfErr result (λ fault. (r : IsRunOf flat.now library.now lift.now)
        → Tells fault (history_report stem.now flat.now library.now r.shown.history)) }
{
    let left = left(&lift.last_origins);
    let names = Names { stem, flat };
    let mut text = Vec::new(alloc);
    put_report(&mut text, &names, library, &lift.rounds, left)?;
    Ok(text)
}
