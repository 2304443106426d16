//! Which chosen instance has each device.
ghost use Rattle.std.specs.Prelude.{◌≡◌, ◌<◌, ◌≤◌, ◌+◌, ◌^◌, ℕ, [], length, All, IfOk, List, Some, if◌then◌else◌};
ghost use Rattle.gl_match.specs.Graph.{is_in};
ghost use Rattle.gl_cover.specs.Owners.{Keeps, least_owner, owner_at};
ghost use Rattle.gl_match.specs.Picks.{chosen_after, pick_after};

use gl_match::{DevId, Memory, Pick};
use std::alloc::Global;

/// The number of the chosen instance that has each device, and the number of the next one.
#[derive(Drop)]
pub struct Owners {
    /// A number for each device of the circuit; `None` where no chosen instance has it.
    pub numbers: Vec<Option<u32>>,
    /// The number of the next chosen instance.
    pub next: u32,
}

/// No instance is chosen, and the first number is next.
pub fn nobody(alloc: Global, devices: u32, first: u32) -> Result<Owners, Memory>
    ensures devices { IfOk result (λ owners. length owners.numbers.items ≡ devices) }
    ensures first { IfOk result (λ owners. owners.next ≡ first) }
    ensures nobody { IfOk result (λ owners. Keeps first [] owners.numbers.items owners.next) }
{
    Ok(Owners {
        numbers: vec![in alloc; None; devices as usize]?,
        next: first,
    })
}

/// The least number of a chosen instance that has a device of the set.
fn number_over(numbers: &[Option<u32>], set: &[DevId]) -> Option<u32>
    requires below { All (λ dev. dev < length numbers.now) set.now }
    ensures least { result ≡ least_owner numbers.now set.now }
{
    let mut least: Option<u32> = None;
    for dev in set {
        if let Some(number) = numbers[dev.0 as usize] {
            least = match least {
                Some(old) if old <= number => Some(old),
                _ => Some(number),
            };
        }
    }
    least
}

/// Gives the devices of a set to the chosen instance of a number.
fn give(numbers: &mut [Option<u32>], set: &[DevId], number: u32)
    requires below { All (λ dev. dev < length numbers.old) set.now }
    ensures given { (dev : ℕ) → owner_at numbers.new dev
        ≡ (if is_in set.now dev then Some number else owner_at numbers.old dev) }
{
    for dev in set {
        numbers[dev.0 as usize] = Some(number);
    }
}

/// What becomes of an instance of these devices: it is over the lowest numbered chosen one that it
/// meets, or else it is the next chosen one.
pub fn pick(owners: &mut Owners, set: &[DevId]) -> Pick
    requires below { All (λ dev. dev < length owners.old.numbers.items) set.now }
    requires room { owners.old.next + 1 < 2 ^ 32 }
    ensures pick { (first : ℕ) (chosen : List (List ℕ))
        → Keeps first chosen owners.old.numbers.items owners.old.next
        → result ≡ pick_after first chosen set.now }
    ensures chosen { (first : ℕ) (chosen : List (List ℕ))
        → Keeps first chosen owners.old.numbers.items owners.old.next
        → Keeps first (chosen_after first chosen set.now) owners.new.numbers.items owners.new.next }
    ensures next { owners.new.next ≤ owners.old.next + 1 }
    ensures devices { length owners.new.numbers.items ≡ length owners.old.numbers.items }
{
    if let Some(number) = number_over(&owners.numbers, set) {
        return Pick::Over(number);
    }
    let number = owners.next;
    give(&mut owners.numbers, set, number);
    owners.next = number + 1;
    Pick::Taken(number)
}
