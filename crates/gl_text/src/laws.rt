ghost use Rattle.std.specs.Prelude.{◌++◌, replicate, is_ok, ◌<◌, false, Option, true, ◌≡◌, List, ℕ, codes, Ok, Err, map, Some, None, [], ◌∷◌};
ghost use Rattle.gl_text.specs.LogicalLines.{tail_of, long_name, short_card, fields_of, unknown_card, control_block, nested_subckt, recursive, loose_plus, name_clash, loose_ends, wrong_ends, open_subckt, local_card, parameters, duplicate_name, duplicate_port, zero_port, unknown_subckt, wrong_node_count, no_top, top_devices, long_tail, long_flat_name};
ghost use Rattle.gl_text.specs.Cards.{call, dev, read_card, all_fields, printed, card_of};
ghost use Rattle.gl_text.specs.Decks.{read_deck, Sub, reaches};
ghost use Rattle.gl_text.specs.WayBack.{IsCall, IsDevice, IsReadAgain};
ghost use Rattle.gl_text.specs.Levels.{Down};
ghost use Rattle.gl_text.specs.Flattening.{flat_job};

/// A tail is its own tail.
pub fn tails_are_normal()
    ensures { (text : List ℕ) → tail_of (tail_of text) ≡ tail_of text }
{}

/// A device that is printed is read again.
pub fn devices_are_read()
    ensures { (line b : ℕ) (bs : List ℕ) (nodes : List (List ℕ)) (kind : Option (List ℕ))
        (tail : List ℕ)
        → IsDevice b bs nodes kind tail
        → IsReadAgain line (dev (record { name = b ∷ bs; nodes = nodes; model = kind; tail = tail })) }
{}

/// Where each call goes down, none is recursive.
pub fn going_down_ends()
    ensures { (level : List ℕ → ℕ) (subs : List Sub) (t : Sub) (name : List ℕ)
        → Down level subs → Down level (t ∷ []) → level t.head.name < level name
        → reaches subs t name ≡ false }
{}

/// An X card that is printed is read again.
pub fn calls_are_read()
    ensures { (line b : ℕ) (bs : List ℕ) (nodes : List (List ℕ)) (sub : List ℕ)
        → IsCall b bs nodes sub
        → IsReadAgain line (call (record { name = b ∷ bs; nodes = nodes; sub = sub })) }
{}
