//! The cells that are skipped.
ghost use Rattle.std.specs.Prelude.{◌≡◌, [], ◌∷◌, false, List, length, map, option_map, option_to_list, slice_index_or, IfOk};
ghost use Rattle.std.specs.Option.{option_copied};
ghost use Rattle.gl_text.specs.Decks.{Sub as SubValue};
ghost use Rattle.gl_deck.specs.Bodies.{bodies_value};
ghost use Rattle.gl_deck.specs.Places.{place_in};
ghost use Rattle.gl_size.specs.Tallies.{has_mark};
ghost use Rattle.gl_base.specs.Libraries.{own_skip as own_skip_of, uses_else};
ghost use Rattle.gl_cells.specs.Outlines as outlines;
ghost use Rattle.gl_cells.specs.Outlines.{marked_callee, marks_through, outlines_of};
ghost use Rattle.gl_cells.specs.Skips.{skip_value};

use crate::outline::Outline;
use crate::ports::own_skip;
use crate::{Body, Name, Skip, Sub, Subs};
use std::alloc::{AllocError, Global};

/// The cell at this place is skipped.
fn is_marked(marks: &[bool], place: usize) -> bool
    ensures marked { result ≡ slice_index_or marks.now place false }
{
    marks.get(place).copied().unwrap_or(false)
}

/// One of the cells at these places is skipped.
fn has_marked(marks: &[bool], places: &[usize]) -> bool
    ensures marked { result ≡ has_mark marks.now places.now }
{
    places.iter().any(|place| is_marked(marks, *place))
}

/// A cell is skipped, where these are the cells that are.
fn is_skipped(marks: &[bool], cell: &Outline) -> bool
    ensures skipped { result ≡ outlines.is_skipped_by marks.now cell.now }
{
    cell.is_skipped() || has_marked(marks, cell.calls())
}

/// For each cell whether it is skipped, through one call more than these marks have.
fn deeper_marks(alloc: Global, cells: &[Outline], marks: &[bool]) -> Result<Vec<bool>, AllocError>
    ensures marks { IfOk result (λ v. v.items ≡ map (outlines.is_skipped_by marks.now) cells.now) }
{
    cells
        .iter()
        .map(|cell| is_skipped(marks, cell))
        .collect(alloc)
}

/// For each cell whether it is skipped. It takes as many steps as there are X cards, for each cell.
pub fn marks(alloc: Global, cells: &[Outline]) -> Result<Vec<bool>, AllocError>
    ensures marks { IfOk result (λ v. (subs : List SubValue) → cells.now ≡ outlines_of subs
        → v.items ≡ marks_through subs (length subs)) }
{
    let mut marks = vec![in alloc; false; cells.len()]?;
    for calls in 0..cells.len() {
        let _ = calls;
        marks = deeper_marks(alloc, cells, &marks)?;
    }
    Ok(marks)
}

/// The cell of this name is skipped.
fn is_name_marked(marks: &[bool], subs: &Subs, name: &Name) -> bool
    ensures marked { result ≡ has_mark marks.now (option_to_list (place_in subs.now name.now)) }
{
    match subs.place_of(name) {
        Some(place) => is_marked(marks, place),
        None => false,
    }
}

/// The name of the cell that a card calls, where that is skipped.
fn marked_call<'a>(marks: &[bool], subs: &Subs, card: &'a Body) -> Option<&'a Name>
    ensures first { option_copied result
        ≡ marked_callee marks.now subs.now (bodies_value (card.now ∷ [])) }
{
    match card {
        Body::Dev(_, _) => None,
        Body::Call(_, call) => {
            let name = call.sub();
            if is_name_marked(marks, subs, name) {
                return Some(name);
            }
            None
        }
    }
}

/// The name of the first cell that cards call and that is skipped.
fn first_marked<'a>(marks: &[bool], subs: &Subs, cards: &'a [Body]) -> Option<&'a Name>
    ensures first { option_copied result
        ≡ marked_callee marks.now subs.now (bodies_value cards.now) }
{
    let mut rest = cards;
    while let [card, behind @ ..] = rest {
        if let Some(name) = marked_call(marks, subs, card) {
            return Some(name);
        }
        rest = behind;
    }
    None
}

/// Why a cell is skipped, if it is: by itself, else since it calls a cell that is skipped.
pub fn skip(
    alloc: Global,
    subs: &Subs,
    marks: &[bool],
    cell: &Sub,
) -> Result<Option<Skip>, AllocError>
    ensures skip { IfOk result (λ skip. option_map skip_value skip
        ≡ uses_else (own_skip_of cell.now) (marked_callee marks.now subs.now cell.now.cards)) }
{
    if let Some(skip) = own_skip(alloc, cell)? {
        return Ok(Some(skip));
    }
    match first_marked(marks, subs, cell.cards()) {
        Some(name) => Ok(Some(Skip::Uses(Name::of(alloc, name.as_bytes())?))),
        None => Ok(None),
    }
}
