//! Circuits, patterns, rails and classes by hand.
ghost use Rattle.std.specs.Prelude.{◌≡◌, ◌↔◌, ℕ, List, [], ◌∷◌, Some, None, codes, false, true, Contains, slice_get, map};
ghost use Rattle.std.specs.Cmp.{IsEquivalence};
ghost use Rattle.gl_text.specs.Cards.{Device as Card};
ghost use Rattle.gl_text.specs.Decks.{has_twice, once};
ghost use Rattle.gl_text.specs.CellCards.{IsCellOf};
ghost use Rattle.gl_match.specs.declared.role.Role.TheVariants.{Port, Rail, Inner};
ghost use Rattle.gl_base.specs.Rails.{run_rails, AreRails};
ghost use Rattle.gl_base.specs.TypeNames.{TypeName, same_type, port_classes, classes_of, of_letter, of_cell};
ghost use Rattle.gl_base.specs.BaseCircuit.{circuit_of, nets_of, net_number};
ghost use Rattle.gl_base.specs.Patterns.{pattern_of, IsSound};
ghost use Rattle.gl_rows.specs.Sources.{one_inverter, inverter_devices, pass_gate_devices, inverter_head, inverter_cell, one_pass_gate, pass_gate_head, pass_gate_cell, mixed, mixed_head, mixed_cell};

/// The rails of a run: the deck's come first, each name once, and `0` is none of them.
pub fn rail_rows()
    ensures rails { run_rails (codes "vdd" ∷ codes "w" ∷ [])
        (codes "gnd" ∷ codes "0" ∷ codes "vdd" ∷ []) ≡ codes "vdd" ∷ codes "w" ∷ codes "gnd" ∷ [] }
{}

/// A deck of one inverter, and the inverter's pattern.
pub fn inverter_rows()
    ensures sound { IsSound one_inverter }
    ensures whole { IsCellOf inverter_head inverter_cell }
    ensures nets { nets_of one_inverter.devices
        ≡ codes "out" ∷ codes "in" ∷ codes "vdd" ∷ codes "0" ∷ [] }
    ensures circuit { circuit_of one_inverter ≡ record {
      shapes = (0 ∷ 1 ∷ 0 ∷ 2 ∷ []) ∷ (0 ∷ 1 ∷ 0 ∷ 2 ∷ []) ∷ [];
      devices = inverter_devices;
      nets = 4;
      rails = Some 3 ∷ Some 2 ∷ [];
      pinned = [];
    } }
    ensures pattern { pattern_of one_inverter inverter_head inverter_cell ≡ record {
      devices = inverter_devices;
      roles = Port 1 ∷ Port 0 ∷ Rail 1 ∷ Rail 0 ∷ [];
      ports = 1 ∷ 0 ∷ [];
    } }
{}

/// A deck of one pass gate, and the pass gate's pattern.
pub fn pass_gate_rows()
    ensures sound { IsSound one_pass_gate }
    ensures whole { IsCellOf pass_gate_head pass_gate_cell }
    ensures circuit { circuit_of one_pass_gate ≡ record {
      shapes = (0 ∷ 1 ∷ 0 ∷ 2 ∷ []) ∷ (0 ∷ 1 ∷ 0 ∷ 2 ∷ []) ∷ [];
      devices = pass_gate_devices;
      nets = 6;
      rails = Some 3 ∷ Some 5 ∷ [];
      pinned = [];
    } }
    ensures pattern { pattern_of one_pass_gate pass_gate_head pass_gate_cell ≡ record {
      devices = pass_gate_devices;
      roles = Port 0 ∷ Port 2 ∷ Port 1 ∷ Rail 0 ∷ Port 3 ∷ Rail 1 ∷ [];
      ports = 0 ∷ 2 ∷ 1 ∷ 4 ∷ [];
    } }
{}

/// Rails on no device, a port that is a rail, pinned names, a model defined three times, one that only the library defines, and one that nothing defines.
pub fn mixed_rows()
    ensures circuit { circuit_of mixed ≡ record {
      shapes = (0 ∷ 0 ∷ []) ∷ (0 ∷ 1 ∷ 0 ∷ 2 ∷ []) ∷ (0 ∷ 1 ∷ 0 ∷ 2 ∷ [])
          ∷ (0 ∷ 1 ∷ 0 ∷ 2 ∷ []) ∷ [];
      devices = record { kind = 0; nets = 0 ∷ 1 ∷ [] }
          ∷ record { kind = 1; nets = 2 ∷ 0 ∷ 1 ∷ 1 ∷ [] } ∷ [];
      nets = 3;
      rails = Some 1 ∷ None ∷ None ∷ [];
      pinned = 2 ∷ 0 ∷ [];
    } }
    ensures pattern { pattern_of mixed mixed_head mixed_cell ≡ record {
      devices = record { kind = 2; nets = 0 ∷ 1 ∷ 2 ∷ 3 ∷ [] }
          ∷ record { kind = 3; nets = 0 ∷ 1 ∷ 2 ∷ 3 ∷ [] }
          ∷ record { kind = 0; nets = 3 ∷ 1 ∷ [] } ∷ [];
      roles = Rail 2 ∷ Port 1 ∷ Rail 1 ∷ Inner ∷ [];
      ports = 0 ∷ 1 ∷ [];
    } }
{}

/// The classes of the places of each letter, and of a cell of three ports.
pub fn classes_of_places()
    ensures letters { map (λ letter. classes_of (of_letter letter))
        (109 ∷ 100 ∷ 114 ∷ 99 ∷ 108 ∷ 118 ∷ 105 ∷ [])
        ≡ (0 ∷ 1 ∷ 0 ∷ 2 ∷ []) ∷ (0 ∷ 1 ∷ []) ∷ (0 ∷ 0 ∷ []) ∷ (0 ∷ 0 ∷ []) ∷ (0 ∷ 1 ∷ [])
        ∷ (0 ∷ 1 ∷ []) ∷ (0 ∷ 1 ∷ []) ∷ [] }
    ensures cell { classes_of (of_cell (codes "inv") (port_classes 3)) ≡ 0 ∷ 1 ∷ 2 ∷ [] }
{}
