//! Laws over the definitions: each function does nothing.
ghost use Rattle.std.specs.Prelude.{◌≡◌, ◌≤◌, ℕ, List, Contains, Ok, Option, length, map};
ghost use Rattle.gl_text.specs.Decks.{Deck};
ghost use Rattle.gl_text.specs.Flattening.{Flat, Net, device_name, flat_text, flatten, net_name};
ghost use Rattle.gl_printed.specs.ReadDecks.{AllDiffer};
ghost use Rattle.gl_flat.specs.PlainFlats.{plain};
ghost use Rattle.gl_flat.specs.FlatNets.{all_nets, device_nets};
ghost use Rattle.gl_base.specs.BaseCircuit.{net_number, nets_of};
ghost use Rattle.gl_base.specs.Rounds.{cards_of};

/// A flat deck has at most 200,000 devices.
pub fn flat_decks_are_bounded()
    ensures bounded { (deck : Deck) (rails : List (List ℕ)) (top : Option (List ℕ))
        (flat : Flat) → flatten deck rails top ≡ Ok flat → length flat.devices ≤ 200000 }
{}

/// In a flat deck no two devices have one flat name, and no two nets have one flat name or one number.
pub fn flat_names_are_one_to_one()
    ensures devices { (deck : Deck) (rails : List (List ℕ)) (top : Option (List ℕ))
        (flat : Flat) → flatten deck rails top ≡ Ok flat → AllDiffer (map device_name flat.devices) }
    ensures nets { (deck : Deck) (rails : List (List ℕ)) (top : Option (List ℕ))
        (flat : Flat) (m n : Net) → flatten deck rails top ≡ Ok flat
        → Contains (all_nets flat) m → Contains (all_nets flat) n → net_name m ≡ net_name n → m ≡ n }
    ensures numbers { (deck : Deck) (rails : List (List ℕ)) (top : Option (List ℕ))
        (flat : Flat) (m n : Net) → flatten deck rails top ≡ Ok flat
        → Contains (device_nets flat) m → Contains (device_nets flat) n
        → net_number (nets_of (cards_of flat)) (net_name m) ≡ net_number (nets_of (cards_of flat)) (net_name n) → m ≡ n }
{}

/// A flat deck with its devices at the top has the same cards and the same text.
pub fn plain_decks_stay()
    ensures cards { (f : Flat) → cards_of (plain f) ≡ cards_of f }
    ensures text { (f : Flat) → flat_text (plain f) ≡ flat_text f }
{}
