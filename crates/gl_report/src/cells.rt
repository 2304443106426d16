ghost use Rattle.std.specs.Prelude.{◌≡◌, ◌==◌, ◌≤◌, ◌∷◌, ◌++◌, [], OnOk, IfErr, option_map};
ghost use Rattle.std.specs.List.{zip, count_by, enumerate_from};
ghost use Rattle.std.specs.Option.{option_copied};
ghost use Rattle.gl_match.specs.Choice.{is_taken};
ghost use Rattle.gl_base.specs.Reports.{line};
ghost use Rattle.gl_base.specs.RoundReports.{found_lines, found_words};
ghost use Rattle.gl_cells.specs.Skips.{skip_value};
ghost use Rattle.gl_limit.specs.Bounds.{Tells};
ghost use Rattle.gl_report.specs.Shown as shown;
ghost use Rattle.gl_report.specs.Pieces.{instance_lines, parts_text};

use crate::lines::{put_cell, put_instance, put_skipped};
use crate::names::RoundNames;
use gl_cells::{LibCell, Skip};
use gl_deck::Sub;
use gl_history::RoundCell;
use gl_legal::Instance;
use gl_limit::{WriteFault, check_length, fronts_are_shorter};
use gl_match::Pick;

/// 1 for a chosen instance, else 0.
fn chosen(pick: &Pick) -> usize
    ensures chosen { result ≡ count_by is_taken (pick.now ∷ []) }
    ensures most { result ≤ 1 }
{
    match pick {
        Pick::Taken(_) => 1,
        Pick::Over(_) => 0,
    }
}

/// How many instances are chosen.
fn count_chosen(picks: &[Pick]) -> usize
    ensures count { result ≡ count_by is_taken picks.now }
{
    let mut count: usize = 0;
    for pick in picks {
        count += chosen(pick);
    }
    count
}

/// Appends the line of a numbered instance of a cell, and sees that the text is not too long.
fn put_numbered(
    out: &mut Vec<u8>,
    names: &RoundNames<'_>,
    cell: &Sub,
    number: usize,
    item: &Instance,
    pick: Pick,
) -> Result<(), WriteFault>
    ensures ok { OnOk result (out.new.items ≡ out.old.items
        ++ line (found_words names.now.run names.now.devices cell.now (number, (item.now, pick)))) }
    ensures fault { IfErr result (λ fault. Tells fault (out.old.items
        ++ line (found_words names.now.run names.now.devices cell.now (number, (item.now, pick))))) }
{
    put_instance(out, names, cell, number, item, pick)?;
    check_length(out)
}

/// Appends the lines of the instances of a cell, numbered from 1.
fn put_instances(
    out: &mut Vec<u8>,
    names: &RoundNames<'_>,
    cell: &Sub,
    items: &[Instance],
    picks: &[Pick],
) -> Result<(), WriteFault>
    ensures ok { OnOk result (out.new.items ≡ out.old.items
        ++ instance_lines names.now cell.now (enumerate_from 1 (zip items.now picks.now))) }
    ensures fault { IfErr result (λ fault. Tells fault (out.old.items
        ++ instance_lines names.now cell.now (enumerate_from 1 (zip items.now picks.now)))) }
{
    fronts_are_shorter();
    let mut number: usize = 0;
    for (item, pick) in items.iter().zip(picks) {
        number += 1;
        put_numbered(out, names, cell, number, item, *pick)?;
    }
    Ok(())
}

/// Appends the line of a searched cell, and a line for each of its instances.
fn put_found(
    out: &mut Vec<u8>,
    names: &RoundNames<'_>,
    cell: &Sub,
    items: &[Instance],
    picks: &[Pick],
) -> Result<(), WriteFault>
    ensures ok { OnOk result (out.new.items ≡ out.old.items
        ++ found_lines names.now.run names.now.devices cell.now items.now picks.now) }
    ensures fault { IfErr result (λ fault. Tells fault (out.old.items
        ++ found_lines names.now.run names.now.devices cell.now items.now picks.now)) }
{
    let head = cell.head();
    put_cell(
        out,
        head.name().as_bytes(),
        head.ports().len(),
        items.len(),
        count_chosen(picks),
    )?;
    put_instances(out, names, cell, items, picks)
}

/// What was found of the cell of a number.
fn find_cell(number: usize, cells: &[RoundCell]) -> Option<&RoundCell>
    ensures found { option_copied result ≡ shown.found_of number cells.now }
{
    for found in cells {
        if found.cell as usize == number {
            return Some(found);
        }
    }
    None
}

/// Appends what became of a cell: why it was skipped, or what was found of it.
fn put_told(
    out: &mut Vec<u8>,
    names: &RoundNames<'_>,
    cell: &Sub,
    skip: Option<&Skip>,
    found: Option<&RoundCell>,
) -> Result<(), WriteFault>
    ensures ok { OnOk result (out.new.items ≡ out.old.items ++ parts_text names.now
        (shown.told_by cell.now (option_map skip_value (option_copied skip.entry)) (option_copied found.entry))) }
    ensures fault { IfErr result (λ fault. Tells fault (out.old.items ++ parts_text names.now
        (shown.told_by cell.now (option_map skip_value (option_copied skip.entry)) (option_copied found.entry)))) }
{
    match (skip, found) {
        (Some(skip), _) => {
            put_skipped(out, cell.head().name().as_bytes(), skip)?;
            Ok(())
        }
        (None, Some(found)) => put_found(out, names, cell, &found.list.items, &found.picks),
        (None, None) => Ok(()),
    }
}

/// Appends what became of a numbered cell, if it is one of a level, and sees that the text is not too long.
fn put_at(
    out: &mut Vec<u8>,
    names: &RoundNames<'_>,
    level: usize,
    number: usize,
    sub: &Sub,
    cell: &LibCell,
    cells: &[RoundCell],
) -> Result<(), WriteFault>
    ensures ok { OnOk result (out.new.items ≡ out.old.items ++ parts_text names.now
        (shown.told_at level cells.now (number, (sub.now, cell.now)))) }
    ensures fault { IfErr result (λ fault. Tells fault (out.old.items ++ parts_text names.now
        (shown.told_at level cells.now (number, (sub.now, cell.now))))) }
{
    if cell.level() as usize != level {
        return Ok(());
    }
    put_told(out, names, sub, cell.skip(), find_cell(number, cells))?;
    check_length(out)
}

/// Appends what became of each cell of a level, in library order.
#[tactic(auto, using(crate::proofs::ListLaws::parts_append))]
pub fn put_cells(
    out: &mut Vec<u8>,
    names: &RoundNames<'_>,
    level: usize,
    subs: &[Sub],
    library: &[LibCell],
    cells: &[RoundCell],
) -> Result<(), WriteFault>
    ensures ok { OnOk result (out.new.items ≡ out.old.items ++ parts_text names.now
        (shown.told_of level (zip subs.now library.now) cells.now)) }
    ensures fault { IfErr result (λ fault. Tells fault (out.old.items ++ parts_text names.now
        (shown.told_of level (zip subs.now library.now) cells.now))) }
{
    fronts_are_shorter();
    let mut number: usize = 0;
    for (sub, cell) in subs.iter().zip(library) {
        put_at(out, names, level, number, sub, cell, cells)?;
        number += 1;
    }
    Ok(())
}
