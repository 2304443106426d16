ghost use Rattle.std.specs.Prelude.{◌≡◌, ◌+◌, min};
ghost use Rattle.gl_deck.specs.Bodies.{bodies_value, body_value};
ghost use Rattle.gl_size.specs.Counts.{most_of, own_of};
ghost use Rattle.gl_size.specs.Tallies.{own_count};

use crate::Body;
use crate::limits::{CARDS, DEVICES};

/// What is counted.
#[derive(Clone, Copy, Debug)]
pub enum Counted {
    /// Devices and X cards.
    Cards,
    /// Devices.
    Devices,
}

impl Counted {
    /// One more than there may be.
    pub fn most(self) -> u32
        ensures most { result ≡ most_of self }
    {
        match self {
            Counted::Cards => CARDS + 1,
            Counted::Devices => DEVICES + 1,
        }
    }

    /// What a card counts for itself.
    fn own(self, card: &Body) -> u32
        ensures own { result ≡ own_of self (body_value card.now) }
    {
        match (self, card) {
            (Counted::Devices, Body::Call(_, _)) => 0,
            _ => 1,
        }
    }

    /// What cards count for themselves, at most one more than there may be.
    pub fn own_total(self, cards: &[Body]) -> u32
        ensures total { result ≡ own_count self (bodies_value cards.now) }
    {
        let most = self.most();
        let mut total = 0;
        let mut rest = cards;
        while let [card, behind @ ..] = rest {
            total = add(total, self.own(card), most);
            rest = behind;
        }
        total
    }
}

/// The sum, or `most` where that's less.
pub fn add(a: u32, b: u32, most: u32) -> u32
    ensures sum { result ≡ min (a + b) most }
{
    if a >= most || b >= most - a {
        return most;
    }
    a + b
}
