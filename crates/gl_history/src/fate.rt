//! What becomes of each device of a circuit, as chosen instances are marked.
ghost use Rattle.std.specs.Prelude.{◌≡◌, ◌<◌, ℕ, length, All, if◌then◌else◌};
ghost use Rattle.gl_match.specs.Graph.{is_in};
ghost use Rattle.gl_history.specs.Marks.{fate_at, gone, becomes, fate_by};

use gl_match::DevId;

/// What becomes of a device of a circuit when a round replaces what it chose.
#[derive(Clone, Copy, Debug, PartialEq, Eq)]
pub enum Fate {
    /// It stays.
    Stays,
    /// It goes.
    Goes,
    /// It becomes the chosen instance of this index, from 0 in the round.
    Becomes(usize),
}

/// What becomes of a device of a chosen instance.
fn set_gone(fate: Fate) -> Fate
    ensures fate { result ≡ gone fate }
{
    match fate {
        Fate::Stays | Fate::Goes => Fate::Goes,
        Fate::Becomes(index) => Fate::Becomes(index),
    }
}

/// What becomes of the lowest device of a chosen instance.
fn set_chosen(index: usize, fate: Fate) -> Fate
    ensures fate { result ≡ becomes index fate }
{
    match fate {
        Fate::Stays | Fate::Goes => Fate::Becomes(index),
        Fate::Becomes(before) => Fate::Becomes(before),
    }
}

/// Lets the devices of a set go.
fn clear(fates: &mut [Fate], set: &[DevId])
    requires below { All (λ dev. dev < length fates.old) set.now }
    ensures gone { (dev : ℕ) → fate_at fates.new dev
        ≡ (if is_in set.now dev then gone (fate_at fates.old dev) else fate_at fates.old dev) }
{
    for dev in set {
        fates[dev.0 as usize] = set_gone(fates[dev.0 as usize]);
    }
}

/// Marks the devices of a chosen instance of an index.
pub fn mark(fates: &mut [Fate], set: &[DevId], index: usize)
    requires below { All (λ dev. dev < length fates.old) set.now }
    ensures marked { (dev : ℕ) → fate_at fates.new dev
        ≡ fate_by dev set.now index (fate_at fates.old dev) }
{
    clear(fates, set);
    if let Some(low) = set.first() {
        fates[low.0 as usize] = set_chosen(index, fates[low.0 as usize]);
    }
}
