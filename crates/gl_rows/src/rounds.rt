//! Rows of rounds and of stems, by hand: each is the contract of a function that does nothing.
ghost use Rattle.std.specs.Prelude.{◌≡◌, [], ◌∷◌, ◌++◌, codes, None, Some};
ghost use Rattle.gl_text.specs.Decks.{dev_at};
ghost use Rattle.gl_match.specs.declared.role.Pick.TheVariants.{Taken, Over};
ghost use Rattle.gl_base.specs.Libraries.{empty, loose};
ghost use Rattle.gl_base.specs.Rounds.{cells_at, searched};
ghost use Rattle.gl_base.specs.RoundReports.{report_text, cell_parts, rounds_of, left_of};
ghost use Rattle.gl_rows.specs.Sources.{pass_gate_sub, inverter_sub, empty_sub, loose_sub, pass_gate_twice, inverter_once, small_library};

/// A pass gate that lies both ways, of which one is chosen, beside cells that are skipped; a library without cells.
pub fn round_reports_compute()
    ensures pass_gate { report_text
        (record {
          stem = codes "xg";
          nets = codes "u" ∷ codes "s" ∷ codes "v" ∷ codes "0" ∷ codes "sb" ∷ codes "vdd" ∷ [];
        })
        (record {
          devices = codes "m1" ∷ codes "m2" ∷ codes "r1" ∷ [];
          cells = cell_parts ((empty_sub, record { level = 0; skip = Some empty })
              ∷ (pass_gate_sub, record { level = 0; skip = None })
              ∷ (loose_sub, record { level = 0; skip = Some (loose (codes "b")) }) ∷ [])
              ((pass_gate_twice, Taken 1 ∷ Over 1 ∷ []) ∷ []);
        } ∷ [])
        (left_of 3 (pass_gate_twice ∷ []) ((Taken 1 ∷ Over 1 ∷ []) ∷ []))
        ≡ codes "round 0\ncell fill skipped empty\ncell tg ports 4 instances 2 chosen 1\n"
        ++ codes "1 xg1 p=u q=v c=s cb=sb | mn=m1 mp=m2\n"
        ++ codes "2 over xg1 p=v q=u c=s cb=sb | mn=m1 mp=m2\ncell odd skipped loose b\n"
        ++ codes "left 1\nend\n" }
    ensures two_cells { report_text
        (record { stem = codes "xg_"; nets = codes "y" ∷ codes "a" ∷ codes "vdd" ∷ codes "0" ∷ [] })
        (record {
          devices = codes "m1" ∷ codes "m2" ∷ [];
          cells = cell_parts ((inverter_sub, record { level = 0; skip = None })
              ∷ (inverter_sub, record { level = 0; skip = None }) ∷ []) ((inverter_once, Taken 1 ∷ [])
              ∷ (inverter_once, Over 1 ∷ []) ∷ []);
        } ∷ [])
        (left_of 2 (inverter_once ∷ inverter_once ∷ []) ((Taken 1 ∷ []) ∷ (Over 1 ∷ []) ∷ []))
        ≡ codes "round 0\ncell inv ports 2 instances 1 chosen 1\n"
        ++ codes "1 xg_1 a=a y=y | mp=m1 mn=m2\ncell inv ports 2 instances 1 chosen 0\n"
        ++ codes "1 over xg_1 a=a y=y | mp=m1 mn=m2\nleft 0\nend\n" }
    ensures no_cells { report_text (record { stem = codes "xg"; nets = [] })
        (rounds_of [] (record { devices = []; cells = [] })) 0 ≡ codes "left 0\nend\n" }
    ensures at_level { searched (cells_at 0 small_library) ≡ inverter_sub ∷ [] }
{}
