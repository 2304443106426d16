ghost use Rattle.std.specs.Prelude.{◌≡◌, List, map, min, IfOk};
ghost use Rattle.gl_text.specs.Decks.{Sub};
ghost use Rattle.gl_text.specs.Flattening as flattening;
ghost use Rattle.gl_size.specs.Counts.{counts_of};
ghost use Rattle.gl_size.specs.Tallies.{count_through, sum_at, tallies_of};

use crate::counted::{Counted, add};
use crate::limits::DEPTH;
use crate::tally::Tally;
use std::alloc::{AllocError, Global};

/// What the subcircuits at these places count together, at most `most`, where these are the counts of all subcircuits.
/// One without a count counts nothing.
fn total_at(counts: &[u32], places: &[usize], most: u32) -> u32
    ensures total { result ≡ min (sum_at counts.now places.now) most }
{
    let mut total = 0;
    let mut rest = places;
    while let [place, behind @ ..] = rest {
        let more = counts.get(*place).copied().unwrap_or(0);
        total = add(total, more, most);
        rest = behind;
    }
    total
}

/// What a subcircuit counts where those that it calls have these counts.
fn count_of(counted: Counted, counts: &[u32], tally: &Tally) -> u32
    ensures count { result ≡ count_through counted counts.now tally.now }
{
    let most = counted.most();
    add(
        tally.own(counted),
        total_at(counts, tally.calls(), most),
        most,
    )
}

/// What each subcircuit counts through one X card more than these counts have.
fn deeper_counts(
    alloc: Global,
    counted: Counted,
    tallies: &[Tally],
    counts: &[u32],
) -> Result<Vec<u32>, AllocError>
    ensures counts { IfOk result
        (λ v. v.items ≡ map (count_through counted counts.now) tallies.now) }
{
    tallies
        .iter()
        .map(|tally| count_of(counted, counts, tally))
        .collect(alloc)
}

/// What each subcircuit counts, at most one more than there may be.
pub fn counts(alloc: Global, counted: Counted, tallies: &[Tally]) -> Result<Vec<u32>, AllocError>
    ensures counts { IfOk result (λ v. (subs : List Sub) → tallies.now ≡ tallies_of subs
        → v.items ≡ counts_of counted subs flattening.DEPTH) }
{
    let mut counts = Vec::new(alloc);
    for depth in 0..DEPTH {
        let _ = depth;
        counts = deeper_counts(alloc, counted, tallies, &counts)?;
    }
    Ok(counts)
}
