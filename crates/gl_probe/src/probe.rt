//! The probe of all rounds.
ghost use Rattle.std.specs.Prelude.{◌≡◌, ◌++◌, OnOk, OnErr, take, length};
ghost use Rattle.gl_probe.specs.Shown.{AllFit, shown_probe};

use crate::round::put_round;
use gl_cells::Library;
use gl_deck::Sub;
use gl_graph::Cell;
use gl_history::Round;
use gl_match::Memory;
use std::alloc::Global;

/// Appends the lines of rounds, numbered from 0.
fn put_rounds(
    alloc: Global,
    out: &mut Vec<u8>,
    subs: &[Sub],
    cells: &[Cell],
    rounds: &[Round],
) -> Result<(), Memory>
    requires fits { AllFit cells.now rounds.now }
    ensures ok { OnOk result (out.new.items
        ≡ out.old.items ++ shown_probe subs.now cells.now rounds.now) }
    ensures front { take (length out.old.items) out.new.items ≡ out.old.items }
{
    for (level, round) in rounds.iter().enumerate() {
        put_round(alloc, out, level, round, subs, cells)?;
    }
    Ok(())
}

/// Appends the probe of all rounds, each with the number of its level: for each cell of the library that is searched in the
/// round, in library order, the key of its pattern in the round's circuit, with the depth and the number of candidates there.
/// `cells` are those of the library, in its order, as they are searched; each can be searched in the circuit of each round. A
/// skipped cell has no line. For want of memory `out` stays as it was.
///
/// The circuit of a round is labelled once, as deep as some cell of the round needs it.
pub fn print_probe(
    alloc: Global,
    library: &Library,
    cells: &[Cell],
    rounds: &[Round],
    out: &mut Vec<u8>,
) -> Result<(), Memory>
    requires fits { AllFit cells.now rounds.now }
    ensures appended { OnOk result (out.new.items
        ≡ out.old.items ++ shown_probe library.now.deck.subs cells.now rounds.now) }
    ensures unchanged { OnErr result (out.new.items ≡ out.old.items) }
{
    let start = out.len();
    let subs = library.deck().subs().as_slice();
    let printed = put_rounds(alloc, out, subs, cells, rounds);
    if printed.is_err() {
        out.truncate(start);
    }
    printed
}
