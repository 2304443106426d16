ghost use Rattle.std.specs.Prelude.{◌≡◌, false, List, map, slice_index_or, IfOk};
ghost use Rattle.std.specs.List.{IsDistinct};
ghost use Rattle.gl_text.specs.LogicalLines.{same_text};
ghost use Rattle.gl_text.specs.Decks.{Sub};
ghost use Rattle.gl_text.specs.Flattening as flattening;
ghost use Rattle.gl_deck.specs.Bodies.{names_of};
ghost use Rattle.gl_size.specs.Chains.{chains_of};
ghost use Rattle.gl_size.specs.Tallies.{has_mark, tallies_of};

use crate::limits::DEPTH;
use crate::tally::Tally;
use std::alloc::{AllocError, Global};

/// A chain begins in the subcircuit at this place.
pub fn is_marked(marks: &[bool], place: usize) -> bool
    ensures marked { result ≡ slice_index_or marks.now place false }
{
    marks.get(place).copied().unwrap_or(false)
}

/// A subcircuit calls one that is marked.
fn calls_marked(marks: &[bool], tally: &Tally) -> bool
    ensures marked { result ≡ has_mark marks.now tally.now.calls }
{
    tally.calls().iter().any(|place| is_marked(marks, *place))
}

/// For each subcircuit whether it calls one that is marked.
fn callers(alloc: Global, tallies: &[Tally], marks: &[bool]) -> Result<Vec<bool>, AllocError>
    ensures marks { IfOk result (λ v. v.items ≡ map (λ t. has_mark marks.now t.calls) tallies.now) }
{
    tallies
        .iter()
        .map(|tally| calls_marked(marks, tally))
        .collect(alloc)
}

/// For each subcircuit whether a chain of as many X cards as there may be begins in it.
pub fn deep(alloc: Global, tallies: &[Tally]) -> Result<Vec<bool>, AllocError>
    ensures marks { IfOk result (λ v. (subs : List Sub) → IsDistinct same_text (names_of subs)
        → tallies.now ≡ tallies_of subs → v.items ≡ chains_of subs flattening.DEPTH) }
{
    let mut marks = vec![in alloc; true; tallies.len()]?;
    for depth in 0..DEPTH {
        let _ = depth;
        marks = callers(alloc, tallies, &marks)?;
    }
    Ok(marks)
}
