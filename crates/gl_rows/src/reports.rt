//! Reports of decks and libraries, by hand: each is the contract of a function that does nothing.
ghost use Rattle.std.specs.Prelude.{◌≡◌, [], ◌∷◌, ◌++◌, map, replicate, codes, None, Some, Err, IsOkAnd, IsErrAnd, ℕ, List, false, true};
ghost use Rattle.std.specs.List.{list_any, AllZip};
ghost use Rattle.gl_text.specs.LogicalLines.{name_clash};
ghost use Rattle.gl_text.specs.Decks.{Sub, dev_at};
ghost use Rattle.gl_text.specs.Flattening.{Flat, flatten};
ghost use Rattle.gl_match.specs.Graph.{Circuit as Graph, Pattern as Cell};
ghost use Rattle.gl_match.specs.LegalTests.{all_zip};
ghost use Rattle.gl_match.specs.Listing.{Instance, Listed};
ghost use Rattle.gl_match.specs.Picks.{AreChoices};
ghost use Rattle.gl_match.specs.declared.role.Role.TheVariants.{Port, Rail};
ghost use Rattle.gl_base.specs.Rails.{run_rails};
ghost use Rattle.gl_base.specs.BaseCircuit.{circuit_of};
ghost use Rattle.gl_base.specs.Libraries.{Library, read_library, library_cause, top_card, cell_limit, cell_clash, devices, ports, empty, loose, uses};
ghost use Rattle.gl_base.specs.Lifting.{flat_deck, IsReport};
ghost use Rattle.gl_base.specs.Rounds.{source_of, cells_at, searched, cell_pattern};
ghost use Rattle.gl_base.specs.RoundReports.{cell_parts, part_lines, skipped};
ghost use Rattle.gl_rows.specs.Sources.{cells_alone, sized_cell, inverter_devices};
ghost use Rattle.gl_base.specs.Stems.{stem_of};
ghost use Rattle.gl_rows.specs.Files.{Reads, Accepted, Reported, report_of, is_checked, lists_of, AcceptedTop};
ghost use Rattle.gl_rows.specs.Texts.{below_deck, exchanged_deck, gate_deck, gate_report, gates, grounded_inverter, inverter, inverter_deck, inverter_first, inverter_report, loaded_deck, models, nand, nand_first, one_resistor, open_deck, overlap_deck, parallel, pass_deck, pass_gate, pass_report, resistors_deck, resistors_report, ring_deck, ring_report, sizes_deck, sizes_report, skipped_cells, stem_deck, supplied_inverter, two_resistors, vdd_rail};

/// Reports of one cell.
pub fn one_cell_reports()
    ensures one_inverter { Reported inverter_deck gates inverter_report }
    ensures no_bytes { Reported (codes "") (vdd_rail ++ inverter)
        (codes "round 0\ncell inv ports 2 instances 0 chosen 0\nleft 0\nend\n") }
    ensures ring_of_shared_nets { Reported ring_deck (vdd_rail ++ inverter) ring_report }
    ensures two_sizes { Reported sizes_deck (vdd_rail ++ inverter) sizes_report }
    ensures ends_exchanged { Reported exchanged_deck (vdd_rail ++ inverter) inverter_report }
    ensures inner_net_with_a_place_outside { Reported loaded_deck (vdd_rail ++ nand)
        (codes "round 0\ncell nand2 ports 3 instances 0 chosen 0\nleft 5\nend\n") }
    ensures inner_net_alone { Reported gate_deck (vdd_rail ++ nand) gate_report }
    ensures both_ways { Reported pass_deck (vdd_rail ++ pass_gate) pass_report }
    ensures three_in_parallel { Reported resistors_deck parallel resistors_report }
{}

/// Reports of several cells: overlaps, skipped cells, empty lists, numbers that run on.
pub fn several_cells_reports()
    ensures overlap_inverter_first { Reported overlap_deck (vdd_rail ++ inverter ++ nand)
        inverter_first }
    ensures overlap_nand_first { Reported overlap_deck (vdd_rail ++ nand ++ inverter) nand_first }
    ensures skipped_before_searched { Reported inverter_deck (vdd_rail ++ skipped_cells ++ inverter)
        (codes "round 0\ncell fill skipped empty\ncell odd skipped loose b\n"
        ++ codes "cell inv ports 2 instances 1 chosen 1\n1 xg1 a=in y=out | mp=m1 mn=m2\n"
        ++ codes "left 0\nend\n") }
    ensures skipped_and_empty_lists_between { Reported inverter_deck
        (vdd_rail ++ inverter ++ nand ++ codes ".subckt odd a b\nr1 a 0 1\n.ends\n"
        ++ codes ".subckt inv2 a y\nmn y a 0 0 nch\nmp y a vdd vdd pch\n.ends\n")
        (codes "round 0\ncell inv ports 2 instances 1 chosen 1\n"
        ++ codes "1 xg1 a=in y=out | mp=m1 mn=m2\ncell nand2 ports 3 instances 0 chosen 0\n"
        ++ codes "cell odd skipped loose b\ncell inv2 ports 2 instances 1 chosen 0\n"
        ++ codes "1 over xg1 a=in y=out | mn=m2 mp=m1\nleft 0\nend\n") }
    ensures numbers_run_on_over_lists { Reported (codes "t\nr1 a b 1\nr2 a b 2\n")
        (one_resistor ++ parallel)
        (codes "round 0\ncell one ports 2 instances 4 chosen 2\n1 xg1 p=a q=b | r1=r1\n"
        ++ codes "2 over xg1 p=b q=a | r1=r1\n3 xg2 p=a q=b | r1=r2\n"
        ++ codes "4 over xg2 p=b q=a | r1=r2\ncell par ports 2 instances 2 chosen 0\n"
        ++ codes "1 over xg1 p=a q=b | ra=r1 rb=r2\n2 over xg1 p=b q=a | ra=r1 rb=r2\nleft 0\n"
        ++ codes "end\n") }
    ensures second_list_takes_the_next_number { Reported (codes "t\nr1 a b 1\nc1 a b 2\nl1 a b 3\n")
        (codes ".subckt res p\nr1 p b\nc1 p b\n.ends\n.subckt ind p q\nl1 p q\n.ends\n"
        ++ codes ".subckt cap p q\nc1 p q\nl1 p q\n.ends\n")
        (codes "round 0\ncell res ports 1 instances 0 chosen 0\n"
        ++ codes "cell ind ports 2 instances 1 chosen 1\n1 xg1 p=a q=b | l1=l1\n"
        ++ codes "cell cap ports 2 instances 1 chosen 0\n1 over xg1 p=a q=b | c1=c1 l1=l1\n"
        ++ codes "left 2\nend\n") }
    ensures over_a_later_number_alone { Reported (codes "t\nr1 a b 1\nc1 b d 2\nl1 a b 3\n")
        (codes ".subckt res p q\nr1 p q\n.ends\n.subckt ind p q\nl1 p q\n.ends\n"
        ++ codes ".subckt both p q r\nl1 p q\nc1 q r\n.ends\n")
        (codes "round 0\ncell res ports 2 instances 2 chosen 1\n1 xg1 p=a q=b | r1=r1\n"
        ++ codes "2 over xg1 p=b q=a | r1=r1\ncell ind ports 2 instances 1 chosen 1\n"
        ++ codes "1 xg2 p=a q=b | l1=l1\ncell both ports 3 instances 1 chosen 0\n"
        ++ codes "1 over xg2 p=a q=b r=d | l1=l1 c1=c1\nleft 1\nend\n") }
    ensures over_number_one_though_number_two_has_the_first_device { Reported
        (codes "t\nr1 a b 1\nl1 a e 3\n")
        (codes ".subckt ind p q\nl1 p q\n.ends\n.subckt res p q\nr1 p q\n.ends\n"
        ++ codes ".subckt pair p q r\nl1 p q\nr1 p r\n.ends\n")
        (codes "round 0\ncell ind ports 2 instances 1 chosen 1\n1 xg1 p=a q=e | l1=l1\n"
        ++ codes "cell res ports 2 instances 2 chosen 1\n1 xg2 p=a q=b | r1=r1\n"
        ++ codes "2 over xg2 p=b q=a | r1=r1\ncell pair ports 3 instances 1 chosen 0\n"
        ++ codes "1 over xg1 p=a q=e r=b | l1=l1 r1=r1\nleft 0\nend\n") }
    ensures library_without_cells { Reported inverter_deck
        (vdd_rail ++ codes ".model nch nmos\n.options x\n") (codes "left 2\nend\n") }
    ensures nothing_at_all { Reported (codes "") (codes "") (codes "left 0\nend\n") }
    ensures all_cells_skipped { Reported inverter_deck
        (codes ".subckt e\n.ends\n.subckt odd a b\nr1 a 0\n.ends\n")
        (codes "round 0\ncell e skipped empty\ncell odd skipped loose b\nleft 2\nend\n") }
    ensures cell_named_as_a_device { Reported inverter_deck
        (vdd_rail ++ codes ".subckt m1 in out\nm1 out in vdd vdd pch\n.ends\n")
        (codes "round 0\ncell m1 ports 2 instances 1 chosen 1\n1 xg1 in=in out=out | m1=m1\n"
        ++ codes "left 1\nend\n") }
{}

/// Reports where rails, ports and inner nets have the names of each other.
pub fn rail_and_port_reports()
    ensures port_named_as_a_rail { Reported inverter_deck (vdd_rail ++ supplied_inverter)
        (codes "round 0\ncell inv ports 3 instances 1 chosen 1\n"
        ++ codes "1 xg1 a=in y=out vdd=vdd | mp=m1 mn=m2\nleft 0\nend\n") }
    ensures port_named_as_a_rail_goes_nowhere_else { Reported
        (codes "t\n" ++ models ++ codes "m1 out in vcc vcc pch\nm2 out in 0 0 nch\n")
        supplied_inverter (codes "round 0\ncell inv ports 3 instances 0 chosen 0\nleft 2\nend\n") }
    ensures port_named_as_a_rail_of_the_deck { Reported
        (codes "t\n.global a\n.model nch nmos\n.model pch pmos\nm1 out in vdd vdd pch\n"
        ++ codes "m2 out in 0 0 nch\nm3 q a vdd vdd pch\nm4 q a 0 0 nch\n") (vdd_rail ++ inverter)
        (codes "round 0\ncell inv ports 2 instances 1 chosen 1\n"
        ++ codes "1 xg1 a=a y=q | mp=m3 mn=m4\nleft 2\nend\n") }
    ensures port_named_as_no_rail { Reported
        (codes "t\n.model nch nmos\n.model pch pmos\nm1 out in vcc vcc pch\n"
        ++ codes "m2 out in 0 0 nch\n") supplied_inverter
        (codes "round 0\ncell inv ports 3 instances 1 chosen 1\n"
        ++ codes "1 xg1 a=in y=out vdd=vcc | mp=m1 mn=m2\nleft 0\nend\n") }
    ensures port_on_an_unused_rail { Reported (codes "t\nr1 a 0 1\n") one_resistor
        (codes "round 0\ncell one ports 2 instances 2 chosen 1\n1 xg1 p=a q=0 | r1=r1\n"
        ++ codes "2 over xg1 p=0 q=a | r1=r1\nleft 0\nend\n") }
    ensures no_ports { Reported (codes "t\n.global vdd\nr1 vdd 0 1\nr2 0 vdd 1\n")
        (codes ".subckt load\nr1 vdd 0\n.ends\n")
        (codes "round 0\ncell load ports 0 instances 2 chosen 2\n1 xg1 | r1=r1\n"
        ++ codes "2 xg2 | r1=r2\nleft 0\nend\n") }
    ensures rail_of_the_deck_in_a_cell { Reported
        (codes "t\n.global w\nr1 a w 1\nr2 w b 1\nr3 w c 1\n") two_resistors
        (codes "round 0\ncell two ports 2 instances 6 chosen 1\n"
        ++ codes "1 xg1 p=a q=b | r1=r1 r2=r2\n2 over xg1 p=b q=a | r1=r2 r2=r1\n"
        ++ codes "3 over xg1 p=a q=c | r1=r1 r2=r3\n4 over xg1 p=c q=a | r1=r3 r2=r1\n"
        ++ codes "5 over xg1 p=b q=c | r1=r2 r2=r3\n6 over xg1 p=c q=b | r1=r3 r2=r2\nleft 1\n"
        ++ codes "end\n") }
    ensures inner_net_of_that_name { Reported (codes "t\nr1 a w 1\nr2 w b 1\nr3 w c 1\n")
        two_resistors (codes "round 0\ncell two ports 2 instances 0 chosen 0\nleft 3\nend\n") }
    ensures inner_net_may_not_be_a_rail { Reported (codes "t\nr1 a 0 1\nr2 0 b 1\n") two_resistors
        (codes "round 0\ncell two ports 2 instances 0 chosen 0\nleft 2\nend\n") }
    ensures rail_of_the_library_below_the_top { Reported below_deck (vdd_rail ++ inverter)
        (codes "round 0\ncell inv ports 2 instances 1 chosen 1\n"
        ++ codes "1 xg1 a=in y=out | mp=m.x1.m1 mn=m.x1.m2\nleft 0\nend\n") }
    ensures no_rail_below_the_top { Reported below_deck supplied_inverter
        (codes "round 0\ncell inv ports 3 instances 1 chosen 1\n"
        ++ codes "1 xg1 a=in y=out vdd=x1.vdd | mp=m.x1.m1 mn=m.x1.m2\nleft 0\nend\n") }
    ensures rail_on_no_device { Reported (codes "t\n" ++ models ++ codes "m1 out in 0 0 nch\n")
        (vdd_rail ++ codes ".subckt p a y\nmp y a vdd vdd nch\n.ends\n")
        (codes "round 0\ncell p ports 2 instances 0 chosen 0\nleft 1\nend\n") }
    ensures supply_ports { Reported
        (codes "* extracted\n.subckt top in out vdd gnd\n"
        ++ codes "M1000 mid in vdd vdd pch w=4u l=1u\n+ ad=8p as=8p pd=10u ps=10u\n"
        ++ codes "M1001 mid in gnd gnd nch w=2u l=1u\nM1002 out mid vdd vdd pch w=4u l=1u\n"
        ++ codes "M1003 out mid gnd gnd nch w=2u l=1u\nC1 mid gnd 2.1fF\n.ends\n"
        ++ codes "x1 in out vdd gnd top\n.end\n") grounded_inverter
        (codes "round 0\ncell inv ports 4 instances 2 chosen 2\n"
        ++ codes "1 xg1 a=in y=x1.mid vdd=vdd gnd=gnd | mp=m.x1.m1000 mn=m.x1.m1001\n"
        ++ codes "2 xg2 a=x1.mid y=out vdd=vdd gnd=gnd | mp=m.x1.m1002 mn=m.x1.m1003\nleft 1\n"
        ++ codes "end\n") }
    ensures clash_by_the_library_rails { Reads (codes "t\n.subckt s a\nr1 a n 1\n.ends\nx1 p s\n")
        (codes ".global x1.n\n" ++ one_resistor)
        (λ d l. flat_deck d l ≡ Err (name_clash (codes "x1.n"))) }
    ensures rails_of_both { Reads (codes "t\n.global VDD 0 w\n.global w\n")
        (codes ".global gnd 0 vdd\n.global W x\n")
        (λ d l. run_rails d.globals l.deck.globals
        ≡ codes "vdd" ∷ codes "w" ∷ codes "gnd" ∷ codes "x" ∷ []) }
{}

/// Reports by the types of devices.
pub fn type_reports()
    ensures model_of_the_deck_first { Reported (codes "t\n.model n nmos\nm1 a b c d n\n")
        (codes ".model n pmos\n.model k nmos\n.subckt one p q r s\nm1 p q r s n\n.ends\n"
        ++ codes ".subckt two p q r s\nm1 p q r s k\n.ends\n.subckt three p q r s\n"
        ++ codes "m1 p q r s nmos\n.ends\n")
        (codes "round 0\ncell one ports 4 instances 2 chosen 1\n"
        ++ codes "1 xg1 p=a q=b r=c s=d | m1=m1\n2 over xg1 p=c q=b r=a s=d | m1=m1\n"
        ++ codes "cell two ports 4 instances 2 chosen 0\n1 over xg1 p=a q=b r=c s=d | m1=m1\n"
        ++ codes "2 over xg1 p=c q=b r=a s=d | m1=m1\n"
        ++ codes "cell three ports 4 instances 0 chosen 0\nleft 0\nend\n") }
    ensures models_that_nothing_defines { Reported (codes "t\nd1 a b dd\nd2 a b de\n")
        (codes ".subckt d p q\nd1 p q dd\n.ends\n")
        (codes "round 0\ncell d ports 2 instances 1 chosen 1\n1 xg1 p=a q=b | d1=d1\n"
        ++ codes "left 1\nend\n") }
    ensures letters_differ { Reported
        (codes "t\nr1 a b 1\nc1 a b 1\nl1 a b 1\nv1 a b 1\ni1 a b 1\n")
        (codes ".subckt r p q\nr1 p q\n.ends\n.subckt v p q\nv9 p q\n.ends\n.subckt i p q\n"
        ++ codes "i9 q p\n.ends\n")
        (codes "round 0\ncell r ports 2 instances 2 chosen 1\n1 xg1 p=a q=b | r1=r1\n"
        ++ codes "2 over xg1 p=b q=a | r1=r1\ncell v ports 2 instances 1 chosen 1\n"
        ++ codes "1 xg2 p=a q=b | v9=v1\ncell i ports 2 instances 1 chosen 1\n"
        ++ codes "1 xg3 p=b q=a | i9=i1\nleft 2\nend\n") }
{}

/// Reports whose names hold the stem, and stems.
pub fn stem_reports()
    ensures names_with_the_stem { Reported stem_deck (vdd_rail ++ inverter)
        (codes "round 0\ncell inv ports 2 instances 1 chosen 1\n"
        ++ codes "1 xg__1 a=xg1.n y=xg_ | mp=m1 mn=m2\nleft 0\nend\n") }
    ensures x_card_with_the_stem { Reported (codes "t\n.subckt s a\nr1 a 0 1\n.ends\nXG1 p s\n")
        one_resistor
        (codes "round 0\ncell one ports 2 instances 2 chosen 1\n"
        ++ codes "1 xg_1 p=p q=0 | r1=r.xg1.r1\n2 over xg_1 p=0 q=p | r1=r.xg1.r1\nleft 0\n"
        ++ codes "end\n") }
    ensures rail_of_the_library_with_the_stem { Reported (codes "t\nr1 a b 1\n")
        (codes ".global axg__\n" ++ one_resistor)
        (codes "round 0\ncell one ports 2 instances 2 chosen 1\n1 xg___1 p=a q=b | r1=r1\n"
        ++ codes "2 over xg___1 p=b q=a | r1=r1\nleft 0\nend\n") }
    ensures names_of_cells_models_and_empty_calls_do_not_count { Reported
        (codes "xg\n.model xg_ nmos\n.subckt xg__ p\n.ends\nxg1 a xg__\nr1 a b xg\n"
        ++ codes ".options xg\n") (codes ".subckt xg xg1 q\nr1 xg1 q\n.ends\n")
        (codes "round 0\ncell xg ports 2 instances 2 chosen 1\n1 xg1 xg1=a q=b | r1=r1\n"
        ++ codes "2 over xg1 xg1=b q=a | r1=r1\nleft 0\nend\n") }
    ensures unused { stem_of ([]) ≡ codes "xg" }
    ensures other_letters { stem_of (codes "x_g" ∷ codes "gx" ∷ codes "x" ∷ []) ≡ codes "xg" }
    ensures the_name_itself { stem_of (codes "xg" ∷ []) ≡ codes "xg_" }
    ensures dotted { stem_of (codes "xg1.n" ∷ []) ≡ codes "xg_" }
    ensures underscore { stem_of (codes "xg_" ∷ []) ≡ codes "xg__" }
    ensures in_the_middle { stem_of (codes "axg__b" ∷ []) ≡ codes "xg___" }
    ensures several { stem_of (codes "r.xg1.r1" ∷ codes "xg_" ∷ codes "y" ∷ []) ≡ codes "xg__" }
{}

/// Where the tests hold, and with the law that the picks are the choice, the report that the rows compute is the report by the definitions.
pub fn computed_reports_are_reports()
    ensures report { AreChoices → (flat : Flat) (library : Library) → is_checked flat library ≡ true
        → IsReport flat library (report_of flat library) }
{}

/// Circuits, patterns and cells as values.
pub fn circuit_and_pattern_values()
    ensures circuit_and_pattern_of_an_inverter { Accepted inverter_deck (vdd_rail ++ inverter)
        (λ f l. (circuit_of (source_of f l) ≡ record {
          shapes = (0 ∷ 1 ∷ 0 ∷ 2 ∷ []) ∷ (0 ∷ 1 ∷ 0 ∷ 2 ∷ []) ∷ [];
          devices = inverter_devices;
          nets = 4;
          rails = Some 3 ∷ Some 2 ∷ [];
          pinned = [];
        }) × (map (cell_pattern (source_of f l)) (searched (cells_at 0 l)) ≡ record {
          devices = inverter_devices;
          roles = Port 1 ∷ Port 0 ∷ Rail 1 ∷ Rail 0 ∷ [];
          ports = 1 ∷ 0 ∷ [];
        } ∷ [])) }
    ensures top_ports_are_pinned { AcceptedTop (codes "n") open_deck two_resistors
        (λ f l. ((circuit_of (source_of f l)).pinned ≡ 0 ∷ 2 ∷ [])
        × (lists_of f l
        ≡ (record {
          key = record { set = 0 ∷ 1 ∷ []; binding = 0 ∷ 2 ∷ [] };
          least = record { dev = 0; turn = 0 } ∷ record { dev = 1; turn = 0 } ∷ [];
        }
        ∷ record {
          key = record { set = 0 ∷ 1 ∷ []; binding = 2 ∷ 0 ∷ [] };
          least = record { dev = 1; turn = 1 } ∷ record { dev = 0; turn = 1 } ∷ [];
        } ∷ []) ∷ [])) }
    ensures a_pinned_net_is_no_inner_net { AcceptedTop (codes "n")
        (codes "t\n.subckt n i o m\nr1 i m 1\nr2 m o 1\n.ends\n") two_resistors
        (λ f l. ((circuit_of (source_of f l)).pinned ≡ 0 ∷ 2 ∷ 1 ∷ []) × (lists_of f l ≡ [] ∷ [])) }
    ensures cells_above { IsOkAnd
        (read_library
        (vdd_rail ++ skipped_cells ++ codes ".subckt dbl v\nx1 v fill\n.ends\n" ++ inverter))
        (λ (l : Library). (map (λ (s : Sub). s.head.name) (searched (cells_at 0 l))
        ≡ codes "inv" ∷ [])
        × (cell_parts (cells_at 1 l) [] ≡ skipped (codes "dbl") (uses (codes "fill")) ∷ [])
        × (cell_parts (cells_at 0 l) []
        ≡ skipped (codes "fill") empty ∷ skipped (codes "odd") (loose (codes "b")) ∷ [])) }
    ensures first_loose_port { IsOkAnd (read_library (codes ".subckt odd a b c\nr1 b 0 1\n.ends\n"))
        (λ (l : Library). l.cells ≡ record { level = 0; skip = Some (loose (codes "a")) } ∷ []) }
    ensures first_skipped_callee { IsOkAnd
        (read_library (codes ".subckt f\n.ends\n.subckt g\n.ends\n.subckt k\nx1 g\nx2 f\n.ends\n"))
        (λ (l : Library). l.cells
        ≡ record { level = 0; skip = Some empty } ∷ record { level = 0; skip = Some empty }
        ∷ record { level = 1; skip = Some (uses (codes "g")) } ∷ []) }
    ensures reason_of_a_caller { part_lines (record { stem = []; nets = [] }) []
        (skipped (codes "dbl") (uses (codes "fill"))) ≡ codes "cell dbl skipped uses fill\n" }
{}

/// Libraries that are refused, where more than one cause is there.
pub fn library_refusals_in_order()
    ensures card_at_the_top { read_library (codes "r1 a b 1\n") ≡ Err (top_card 1) }
    ensures clash_in_a_cell { read_library
        (codes ".subckt s a\nr1 a n 1\nr2 n 0 1\n.ends\n.subckt k p\nx1 p s\nr1 x1.n p 1\n"
        ++ codes ".ends\n") ≡ Err (cell_clash (codes "k") (codes "x1.n")) }
    ensures top_before_clash { read_library
        (codes ".subckt s a\nr1 a n 1\n.ends\n.subckt k p\nx1 p s\nr1 x1.n p 1\n.ends\n"
        ++ codes "x9 q k\n") ≡ Err (top_card 8) }
    ensures clash_in_a_skipped_cell { read_library
        (codes ".subckt s a\nr1 a n 1\n.ends\n.subckt k p q\nx1 p s\nr1 x1.n p 1\n.ends\n")
        ≡ Err (cell_clash (codes "k") (codes "x1.n")) }
    ensures no_clash_between_cells { IsOkAnd
        (read_library (codes ".subckt s a\nr1 a n 1\n.ends\n.subckt k a\nr1 a n 1\n.ends\n"))
        (λ (l : Library). l.cells
        ≡ record { level = 0; skip = None } ∷ record { level = 0; skip = None } ∷ []) }
    ensures limit_of_a_later_cell_before_a_clash { IsErrAnd
        (read_library
        (codes ".subckt s a\nr1 a n 1\n.ends\n.subckt k p\nx1 p s\nr1 x1.n p 1\n.ends\n"
        ++ codes ".subckt many p0 p1 p2 p3 p4 p5 p6 p7 p8 p9 p10 p11 p12 p13 p14 p15 p16 p17"
        ++ codes " p18 p19 p20 p21 p22 p23 p24 p25 p26 p27 p28 p29 p30 p31 p32 p33 p34 p35"
        ++ codes " p36 p37 p38 p39 p40 p41 p42 p43 p44 p45 p46 p47 p48 p49 p50 p51 p52 p53"
        ++ codes " p54 p55 p56 p57 p58 p59 p60 p61 p62 p63 p64\n.ends\n"))
        (λ cause. cause ≡ cell_limit (codes "many") ports 65) }
    ensures cards_before_ports_in_one_cell { library_cause
        (cells_alone (sized_cell (codes "c") 65 257 ∷ []))
        ≡ Some (cell_limit (codes "c") devices 257) }
    ensures earlier_cell_before_later_limit { library_cause
        (cells_alone (sized_cell (codes "b") 65 0 ∷ sized_cell (codes "c") 0 257 ∷ []))
        ≡ Some (cell_limit (codes "b") ports 65) }
{}
