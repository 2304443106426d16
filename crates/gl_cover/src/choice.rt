ghost use Rattle.std.specs.Prelude.{◌≡◌, ◌<◌, ◌≤◌, ◌+◌, ◌^◌, ℕ, length, map, All, IfOk, OnOk, List};
ghost use Rattle.std.specs.List.{sum_by};
ghost use Rattle.gl_match.specs.Listing.{Instance as Item};
ghost use Rattle.gl_match.specs.Choice.{IsChoice, sets_in, sets_of};
ghost use Rattle.gl_cover.specs.Owners.{Keeps};
ghost use Rattle.gl_match.specs.Picks.{chosen_after_all, picks_after, picks_of};

use crate::owners::{Owners, nobody, pick};
use gl_legal::{CellList, Instance};
use gl_match::{Memory, Pick};
use std::alloc::Global;

/// What becomes of each instance of a list.
fn pick_all(alloc: Global, owners: &mut Owners, list: &[Instance]) -> Result<Vec<Pick>, Memory>
    requires below { All (λ i. All (λ dev. dev < length owners.old.numbers.items) i.key.set)
        list.now }
    requires room { owners.old.next + length list.now < 2 ^ 32 }
    ensures picks { IfOk result (λ picks. (first : ℕ) (chosen : List (List ℕ))
        → Keeps first chosen owners.old.numbers.items owners.old.next
        → picks.items ≡ picks_after first chosen (sets_in list.now)) }
    ensures chosen { OnOk result ((first : ℕ) (chosen : List (List ℕ))
        → Keeps first chosen owners.old.numbers.items owners.old.next
        → Keeps first (chosen_after_all first chosen (sets_in list.now))
        owners.new.numbers.items owners.new.next) }
    ensures next { OnOk result (owners.new.next ≤ owners.old.next + length list.now) }
    ensures devices { OnOk result
        (length owners.new.numbers.items ≡ length owners.old.numbers.items) }
{
    let mut picks = Vec::with_capacity(alloc, list.len())?;
    for instance in list {
        picks.push(pick(owners, &instance.key.set))?;
    }
    Ok(picks)
}

/// The choice without overlap: a list of picks for each list of instances. An instance that meets no
/// chosen one before it is taken, with the next number from `first` on; any other one is over the
/// lowest numbered chosen one that it meets.
pub fn choose(
    alloc: Global,
    lists: &[CellList],
    devices: u32,
    first: u32,
) -> Result<Vec<Vec<Pick>>, Memory>
    requires below { All (λ list. All (λ i. All (λ dev. dev < devices) i.key.set) list) lists.now }
    requires numbers { first + sum_by (λ (list : List Item). length list) lists.now < 2 ^ 32 }
    ensures choice { IfOk result (λ picks. IsChoice first (sets_of lists.now)
        (map (λ v. v.items) picks.items)) }
    ensures picks { IfOk result (λ picks. map (λ v. v.items) picks.items
        ≡ picks_of first (sets_of lists.now)) }
{
    let mut owners = nobody(alloc, devices, first)?;
    let mut picks = Vec::with_capacity(alloc, lists.len())?;
    for list in lists {
        picks.push(pick_all(alloc, &mut owners, &list.items)?)?;
    }
    Ok(picks)
}
