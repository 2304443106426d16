//! Laws over the definitions: each is the contract of a function that does nothing.
ghost use Rattle.std.specs.Prelude.{◌≡◌, ◌<◌, ◌++◌, ℕ, List, [], ◌∷◌, None, Some, Ok, codes, map, zip, true, All};
ghost use Rattle.std.specs.List.{AllByRecursion};
ghost use Rattle.gl_text.specs.Cards.{global};
ghost use Rattle.gl_text.specs.Decks.{Deck, read_deck};
ghost use Rattle.gl_text.specs.Flattening.{Flat, flatten};
ghost use Rattle.gl_match.specs.declared.role.Role.TheVariants.{Port, Rail, Inner};
ghost use Rattle.gl_base.specs.Rails.{run_rails};
ghost use Rattle.gl_base.specs.Libraries.{Library, read_library};
ghost use Rattle.gl_base.specs.Rounds.{source_of};
ghost use Rattle.gl_base.specs.Keeping.{unknown_keep};
ghost use Rattle.gl_flat.specs.PlainFlats.{plain};
ghost use Rattle.gl_lifting.specs.Runs.{run_of, first_circuit};
ghost use Rattle.gl_lifting.specs.SearchedCells.{cell_in, AreCells};
ghost use Rattle.gl_lib.specs.Sources.{AreSound};
ghost use Rattle.gl_lib.specs.Samples.{sample_deck, sample_library, sample_file, buffer_file, sample_devices, sample_shapes, inverter_pattern};
ghost use Rattle.gl_printed.specs.ReadCards.{IsFine};
ghost use Rattle.gl_printed.specs.FlatDecks.{AreRails};
ghost use Rattle.gl_graph.specs.Built.{circuit_size};
ghost use Rattle.gl_graph.specs.Faults.{circuit_fault};
ghost use Rattle.gl_graph.specs.FitCells.{IsForCircuit};

/// The first circuit of a sound run has no fault and few enough parts, and each cell can be searched in it.
pub fn runs_are_sound()
    ensures circuit { (f : Flat) (library : Library) (keep : List (List ℕ)) → AreSound f library
        → circuit_fault (first_circuit (run_of f library keep)) ≡ None }
    ensures size { (f : Flat) (library : Library) (keep : List (List ℕ)) → AreSound f library
        → circuit_size (first_circuit (run_of f library keep)) < 4294967295 }
    ensures cells { (f : Flat) (library : Library) (keep : List (List ℕ)) → AreSound f library
        → All (IsForCircuit (first_circuit (run_of f library keep)))
        (map (cell_in (run_of f library keep)) (zip library.deck.subs library.cells)) }
{}

/// The rails of a run, from globals as they are read, can be the rails of a flat deck.
pub fn run_rails_are_fine()
    ensures rails { (deck library : List (List ℕ))
        → AllByRecursion (λ n. IsFine (global (n ∷ []))) deck
        → AllByRecursion (λ n. IsFine (global (n ∷ []))) library
        → AreRails (run_rails deck library) }
{}

/// A deck and a library: a model that both define, a cell that is skipped and whose type counts, a cell of another level with
/// two X cards and a device, one that is skipped since it calls a skipped cell, a port that is a rail, a cell named as a
/// letter, and ports of the deck that pin nets.
pub fn level_rows()
    ensures sound { AreSound sample_deck sample_library }
    ensures circuit { first_circuit (run_of sample_deck sample_library []) ≡ record {
      shapes = sample_shapes;
      devices = sample_devices;
      nets = 4;
      rails = Some 3 ∷ Some 2 ∷ None ∷ [];
      pinned = 1 ∷ 2 ∷ [];
    } }
    ensures cells { AreCells (run_of sample_deck sample_library []) (
        record { pattern = Some inverter_pattern; level = 0; kind = 5 }
        ∷ record { pattern = None; level = 0; kind = 6 }
        ∷ record {
          pattern = Some (record {
            devices = record { kind = 4; nets = 0 ∷ 1 ∷ [] } ∷ [];
            roles = Rail 1 ∷ Port 1 ∷ [];
            ports = 0 ∷ 1 ∷ [];
          });
          level = 0;
          kind = 7;
        }
        ∷ record {
          pattern = Some (record {
            devices = record { kind = 5; nets = 0 ∷ 1 ∷ [] }
                ∷ record { kind = 5; nets = 1 ∷ 2 ∷ [] }
                ∷ record { kind = 4; nets = 2 ∷ 3 ∷ [] } ∷ [];
            roles = Port 0 ∷ Inner ∷ Port 1 ∷ Rail 1 ∷ [];
            ports = 0 ∷ 2 ∷ [];
          });
          level = 1;
          kind = 8;
        }
        ∷ record { pattern = None; level = 1; kind = 9 }
        ∷ []
        ) }
{}

/// The same deck with kept names: `0`, two nets, a port of the top that pins its net anyway, a name given twice, and names that are unknown.
pub fn kept_level_rows()
    ensures kept { let keep = codes "0" ∷ codes "out" ∷ codes "in" ∷ codes "0" ∷ [] in
        first_circuit (run_of sample_deck sample_library keep) ≡ record {
          shapes = sample_shapes;
          devices = sample_devices;
          nets = 4;
          rails = Some 3 ∷ Some 2 ∷ None ∷ [];
          pinned = 1 ∷ 2 ∷ 3 ∷ 0 ∷ [];
        } }
    ensures all_known { unknown_keep (codes "0" ∷ codes "out" ∷ codes "in" ∷ codes "0" ∷ [])
        (source_of sample_deck sample_library) ≡ None }
    ensures first_unknown { unknown_keep
        (codes "out" ∷ codes "nosuch" ∷ codes "in" ∷ codes "nc" ∷ [])
        (source_of sample_deck sample_library) ≡ Some (codes "nosuch") }
    ensures port_on_no_device { unknown_keep (codes "vdd" ∷ codes "nc" ∷ codes "nosuch" ∷ [])
        (source_of sample_deck sample_library) ≡ Some (codes "nc") }
    ensures rail_on_no_device { unknown_keep (codes "w" ∷ codes "nc" ∷ [])
        (source_of sample_deck sample_library) ≡ Some (codes "w") }
{}

/// The deck of the rows is that of a file, and circuit and cells are made of it and of the library of another.
pub fn sample_files_are_sound()
    ensures deck { (deck : Deck) (flat : Flat) → read_deck true sample_file ≡ Ok deck
        → flatten deck deck.globals (Some (codes "top")) ≡ Ok flat → plain flat ≡ sample_deck }
    ensures library { (library : Library) → read_library buffer_file ≡ Ok library
        → AreSound sample_deck library }
{}
