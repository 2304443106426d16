ghost use Rattle.std.specs.Prelude.{◌≡◌, ◌+◌, ◌≤◌, ◌^◌, length, nat_lt, List, MatchOption};
ghost use Rattle.std.specs.List.{sum_by};
ghost use Rattle.gl_match.specs.Listing.{Instance as Item};

use gl_legal::CellList;

/// Whether numbers from a first one are enough for the instances of some lists, with room for one more.
pub fn has_numbers(lists: &[CellList], first: u32) -> bool
    ensures enough { result ≡ nat_lt (first + sum_by (λ (list : List Item). length list) lists.now) (2 ^ 32) }
{
    let mut next = first;
    for list in lists {
        let Some(behind) = next_behind(next, list.items.len()) else {
            return false;
        };
        next = behind;
    }
    true
}

/// The number behind so many, if there is one.
fn next_behind(next: u32, count: usize) -> Option<u32>
    ensures sum { MatchOption result (2 ^ 32 ≤ next + count) (λ behind. behind ≡ next + count) }
{
    let count = u32::try_from(count).ok()?;
    next.checked_add(count)
}
