//! Decks and libraries that are lifted, from bytes to bytes: each is the contract of a function that does nothing.
ghost use Rattle.std.specs.Prelude.{◌≡◌, ◌++◌, codes, ◌∷◌, [], None, Some, Ok, Err, replicate, is_ok, true};
ghost use Rattle.gl_text.specs.LogicalLines.{no_top};
ghost use Rattle.gl_lifting.specs.MapReading.{bad_header, bad_line, no_end, double_new};
ghost use Rattle.gl_lifting.specs.Renaming.{missing, extra, net_merge, letter_changed, device_merge};
ghost use Rattle.gl_lifting.specs.OutLimits.{of_name};
ghost use Rattle.gl_rows.specs.LiftRows.{Lifts, no_options, with_top};
ghost use Rattle.gl_rows.specs.Texts.{exchanged_deck, exchanged_lifted, exchanged_map, extracted_deck, extracted_lifted, extracted_map, extracted_report, gate_deck, gate_report, gates, grounded_inverter, inverter, inverter_deck, inverter_first, inverter_lifted, inverter_map, inverter_report, latch_cells, latch_deck, latch_lifted, latch_map, loaded_deck, models, nand, nand_first, overlap_deck, parallel, pass_deck, pass_gate, pass_report, resistors_deck, resistors_report, ring_deck, ring_report, sizes_deck, sizes_report, skipped_cells, stem_deck, vdd_rail};
ghost use Rattle.gl_lifting.specs.LiftJobs.{lift_job, restore_job, of_deck, of_keep, of_limit, of_map, of_names};

/// Decks of inverters: one, none, a ring, and two sizes.
pub fn one_cell_is_lifted()
    ensures one_inverter { Lifts no_options inverter_deck gates inverter_lifted inverter_map
        inverter_report }
    ensures no_bytes { Lifts no_options (codes "") gates (codes "\n.global vdd\n.end\n")
        (codes "gatelift map 1\nend\n")
        (codes "round 0\ncell inv ports 2 instances 0 chosen 0\nleft 0\nend\n") }
    ensures ring { Lifts no_options ring_deck gates
        (codes "ring\n" ++ models
        ++ codes ".subckt inv_v1 a y\nmp y a vdd vdd pch\nmn y a 0 0 nch\n.ends inv_v1\n"
        ++ codes "xg1 a b inv_v1\nxg2 b a inv_v1\n.end\n")
        (codes "gatelift map 1\ndevice m.xg1.mp m1\ndevice m.xg1.mn m2\ndevice m.xg2.mp m3\n"
        ++ codes "device m.xg2.mn m4\nnet b b\nnet a a\nnet vdd vdd\nnet 0 0\nend\n") ring_report }
    ensures two_sizes { Lifts no_options sizes_deck gates
        (codes "two sizes\n" ++ models
        ++ codes ".subckt inv_v1 a y\nmp y a vdd vdd pch w=4u\nmn y a 0 0 nch w=2u\n"
        ++ codes ".ends inv_v1\n.subckt inv_v2 a y\nmp y a vdd vdd pch w=8u\n"
        ++ codes "mn y a 0 0 nch w=4u\n.ends inv_v2\nxg1 a b inv_v1\nxg2 b c inv_v2\n.end\n")
        (codes "gatelift map 1\ndevice m.xg1.mp m1\ndevice m.xg1.mn m2\ndevice m.xg2.mp m3\n"
        ++ codes "device m.xg2.mn m4\nnet b b\nnet a a\nnet vdd vdd\nnet 0 0\nnet c c\nend\n")
        sizes_report }
{}

/// A transistor with its ends exchanged: the turn is undone in the variant, and the way back gives the flat deck.
pub fn turns_are_undone()
    ensures exchanged { Lifts no_options exchanged_deck gates exchanged_lifted exchanged_map
        inverter_report }
    ensures restored { restore_job None exchanged_lifted exchanged_map ≡ Ok exchanged_deck }
{}

/// A NAND with its inner net free, with a place outside, kept, and an unknown kept name.
pub fn kept_nets_are_not_inner()
    ensures inner_net_alone { Lifts no_options gate_deck (vdd_rail ++ nand)
        (codes "loaded\n" ++ models
        ++ codes ".subckt nand2_v1 a b y\nmp1 y a vdd vdd pch\nmp2 y b vdd vdd pch\n"
        ++ codes "mn1 y a x 0 nch\nmn2 x b 0 0 nch\n.ends nand2_v1\nxg1 a b y nand2_v1\n.end\n")
        (codes "gatelift map 1\ndevice m.xg1.mp1 m1\ndevice m.xg1.mp2 m2\n"
        ++ codes "device m.xg1.mn1 m3\ndevice m.xg1.mn2 m4\nnet y y\nnet a a\nnet vdd vdd\n"
        ++ codes "net b b\nnet xg1.x x\nnet 0 0\nend\n") gate_report }
    ensures place_outside { Lifts no_options loaded_deck (vdd_rail ++ nand) loaded_deck
        (codes "gatelift map 1\ndevice m1 m1\ndevice m2 m2\ndevice m3 m3\ndevice m4 m4\n"
        ++ codes "device m5 m5\nnet y y\nnet a a\nnet vdd vdd\nnet b b\nnet x x\nnet 0 0\n"
        ++ codes "net q q\nend\n")
        (codes "round 0\ncell nand2 ports 3 instances 0 chosen 0\nleft 5\nend\n") }
    ensures inner_net_kept { Lifts (record { top = None; keep = codes "x" ∷ [] }) gate_deck
        (vdd_rail ++ nand) gate_deck
        (codes "gatelift map 1\ndevice m1 m1\ndevice m2 m2\ndevice m3 m3\ndevice m4 m4\n"
        ++ codes "net y y\nnet a a\nnet vdd vdd\nnet b b\nnet x x\nnet 0 0\nend\n")
        (codes "round 0\ncell nand2 ports 3 instances 0 chosen 0\nleft 4\nend\n") }
    ensures unknown_name { lift_job (record { top = None; keep = codes "nosuch" ∷ [] }) gate_deck
        (vdd_rail ++ nand) ≡ Err (of_keep (codes "nosuch")) }
{}

/// A pass gate both ways, three resistors in parallel, and overlapping gates.
pub fn one_of_overlapping_is_chosen()
    ensures both_ways { Lifts no_options pass_deck (vdd_rail ++ pass_gate)
        (codes "pass\n" ++ models
        ++ codes ".subckt tg_v1 p q c cb\nmn p c q 0 nch\nmp p cb q vdd pch\n.ends tg_v1\n"
        ++ codes "xg1 u v s sb tg_v1\n.end\n")
        (codes "gatelift map 1\ndevice m.xg1.mn m1\ndevice m.xg1.mp m2\nnet u u\nnet s s\n"
        ++ codes "net v v\nnet 0 0\nnet sb sb\nnet vdd vdd\nend\n") pass_report }
    ensures three_in_parallel { Lifts no_options resistors_deck parallel
        (codes "three resistors\n.subckt par_v1 p q\nra p q 1k\nrb p q 2k\n.ends par_v1\n"
        ++ codes "xg1 a b par_v1\nr3 a b 3k\n.end\n")
        (codes "gatelift map 1\ndevice r.xg1.ra r1\ndevice r.xg1.rb r2\ndevice r3 r3\n"
        ++ codes "net a a\nnet b b\nend\n") resistors_report }
    ensures inverter_first { Lifts no_options overlap_deck
        (codes "* gates\n.global vdd\n" ++ inverter ++ vdd_rail ++ nand)
        (codes "overlap\n" ++ models
        ++ codes ".subckt inv_v1 a y\nmp y a vdd vdd pch\nmn y a 0 0 nch\n.ends inv_v1\n"
        ++ codes "xg1 a y inv_v1\nm2 y b vdd vdd pch\nm3 y a x 0 nch\nm4 x b 0 0 nch\n.end\n")
        (codes "gatelift map 1\ndevice m.xg1.mp m1\ndevice m2 m2\ndevice m3 m3\n"
        ++ codes "device m4 m4\ndevice m.xg1.mn m5\nnet y y\nnet a a\nnet vdd vdd\nnet b b\n"
        ++ codes "net x x\nnet 0 0\nend\n") inverter_first }
    ensures nand_first { Lifts no_options overlap_deck
        (vdd_rail ++ nand ++ codes "* gates\n.global vdd\n" ++ inverter)
        (codes "overlap\n" ++ models
        ++ codes ".subckt nand2_v1 a b y\nmp1 y a vdd vdd pch\nmp2 y b vdd vdd pch\n"
        ++ codes "mn1 y a x 0 nch\nmn2 x b 0 0 nch\n.ends nand2_v1\nxg1 a b y nand2_v1\n"
        ++ codes "m5 y a 0 0 nch\n.end\n")
        (codes "gatelift map 1\ndevice m.xg1.mp1 m1\ndevice m.xg1.mp2 m2\n"
        ++ codes "device m.xg1.mn1 m3\ndevice m.xg1.mn2 m4\ndevice m5 m5\nnet y y\nnet a a\n"
        ++ codes "net vdd vdd\nnet b b\nnet xg1.x x\nnet 0 0\nend\n") nand_first }
{}

/// A latch of two NANDs, in two rounds.
pub fn two_levels_are_lifted()
    ensures latch { Lifts no_options latch_deck latch_cells latch_lifted latch_map
        (codes "round 0\ncell nand2 ports 3 instances 2 chosen 2\n"
        ++ codes "1 xg1 a=sn b=qn y=q | mp1=m1 mp2=m2 mn1=m3 mn2=m4\n"
        ++ codes "2 xg2 a=rn b=q y=qn | mp1=m5 mp2=m6 mn1=m7 mn2=m8\nround 1\n"
        ++ codes "cell latch ports 4 instances 2 chosen 1\n"
        ++ codes "1 xg3 s=sn r=rn q=q qb=qn | x1=xg1 x2=xg2\n"
        ++ codes "2 over xg3 s=rn r=sn q=qn qb=q | x1=xg2 x2=xg1\nleft 0\nend\n") }
    ensures restored { restore_job None latch_lifted latch_map ≡ Ok latch_deck }
{}

/// Nets whose names hold shorter stems.
pub fn stem_is_free()
    ensures two_underscores { Lifts no_options stem_deck gates
        (codes "one inverter\n" ++ models
        ++ codes ".subckt inv_v1 a y\nmp y a vdd vdd pch w=4u l=1u\nmn y a 0 0 nch w=2u l=1u\n"
        ++ codes ".ends inv_v1\nxg__1 xg1.n xg_ inv_v1\n.end\n")
        (codes "gatelift map 1\ndevice m.xg__1.mp m1\ndevice m.xg__1.mn m2\nnet xg_ xg_\n"
        ++ codes "net xg1.n xg1.n\nnet vdd vdd\nnet 0 0\nend\n")
        (codes "round 0\ncell inv ports 2 instances 1 chosen 1\n"
        ++ codes "1 xg__1 a=xg1.n y=xg_ | mp=m1 mn=m2\nleft 0\nend\n") }
{}

/// An extracted deck, whose subcircuit `top` is lifted, and a top that is not there.
pub fn top_is_lifted()
    ensures extracted { Lifts (with_top (codes "top")) extracted_deck grounded_inverter
        extracted_lifted extracted_map extracted_report }
    ensures restored { restore_job (Some (codes "top")) extracted_lifted extracted_map
        ≡ Ok
        (codes "* extracted\n.subckt top in out vdd gnd\n"
        ++ codes "m1000 mid in vdd vdd pch w=4u l=1u ad=8p as=8p pd=10u ps=10u\n"
        ++ codes "m1001 mid in gnd gnd nch w=2u l=1u ad=4p as=4p pd=6u ps=6u\n"
        ++ codes "m1002 out mid vdd vdd pch w=4u l=1u ad=8p as=8p pd=10u ps=10u\n"
        ++ codes "m1003 out mid gnd gnd nch w=2u l=1u ad=4p as=4p pd=6u ps=6u\n"
        ++ codes "c1 mid gnd 2.1fF\n.ends top\n.end\n") }
    ensures no_such_top { lift_job (with_top (codes "other")) extracted_deck grounded_inverter
        ≡ Err (of_deck (no_top (codes "other"))) }
{}

/// Cells that are skipped, on two levels.
pub fn skipped_cells_are_told()
    ensures fill { Lifts no_options inverter_deck
        (vdd_rail ++ skipped_cells ++ codes ".subckt dbl v\nx1 v fill\n.ends\n" ++ inverter)
        inverter_lifted inverter_map
        (codes "round 0\ncell fill skipped empty\ncell odd skipped loose b\n"
        ++ codes "cell inv ports 2 instances 1 chosen 1\n1 xg1 a=in y=out | mp=m1 mn=m2\n"
        ++ codes "round 1\ncell dbl skipped uses fill\nleft 0\nend\n") }
{}

/// Maps of one inverter with a line twice, a line gone, and two that merge names.
pub fn maps_are_refused()
    ensures double_new { restore_job None inverter_lifted
        (codes "gatelift map 1\ndevice m.xg1.mp m1\ndevice m.xg1.mn m2\nnet out out\n"
        ++ codes "net out out\nnet in in\nnet vdd vdd\nnet 0 0\nend\n")
        ≡ Err (of_map (double_new 5)) }
    ensures missing { restore_job None inverter_lifted
        (codes "gatelift map 1\ndevice m.xg1.mn m2\nnet out out\nnet in in\nnet vdd vdd\n"
        ++ codes "net 0 0\nend\n") ≡ Err (of_names (missing (codes "m.xg1.mp"))) }
    ensures net_merge { restore_job None inverter_lifted
        (codes "gatelift map 1\ndevice m.xg1.mp m1\ndevice m.xg1.mn m2\nnet out out\n"
        ++ codes "net in out\nnet vdd vdd\nnet 0 0\nend\n") ≡ Err (of_names (net_merge 5)) }
    ensures device_merge { restore_job None inverter_lifted
        (codes "gatelift map 1\ndevice m.xg1.mp m1\ndevice m.xg1.mn m1\nnet out out\n"
        ++ codes "net in in\nnet vdd vdd\nnet 0 0\nend\n") ≡ Err (of_names (device_merge 3)) }
    ensures extra { restore_job None inverter_lifted
        (codes "gatelift map 1\ndevice m.xg1.mp m1\ndevice m.xg1.mn m2\ndevice m.xg1.mq m3\n"
        ++ codes "net out out\nnet in in\nnet vdd vdd\nnet 0 0\nend\n") ≡ Err (of_names (extra 4)) }
    ensures letter { restore_job None inverter_lifted
        (codes "gatelift map 1\ndevice m.xg1.mp r1\ndevice m.xg1.mn m2\nnet out out\n"
        ++ codes "net in in\nnet vdd vdd\nnet 0 0\nend\n") ≡ Err (of_names (letter_changed 2)) }
    ensures no_end { restore_job None inverter_lifted
        (codes "gatelift map 1\ndevice m.xg1.mp m1\ndevice m.xg1.mn m2\nnet out out\n"
        ++ codes "net in in\nnet vdd vdd\nnet 0 0") ≡ Err (of_map no_end) }
    ensures device_behind_net { restore_job None inverter_lifted
        (codes "gatelift map 1\nnet out out\ndevice m.xg1.mp m1\ndevice m.xg1.mn m2\n"
        ++ codes "net in in\nnet vdd vdd\nnet 0 0\nend\n") ≡ Err (of_map (bad_line 3)) }
    ensures header { restore_job None inverter_lifted
        (codes "device m.xg1.mp m1\ndevice m.xg1.mn m2\nnet out out\nnet in in\n"
        ++ codes "net vdd vdd\nnet 0 0\nend\n") ≡ Err (of_map bad_header) }
{}

/// A cell whose name leaves a variant one byte too many, and one whose name does not.
pub fn names_have_a_limit()
    ensures too_long { lift_job no_options inverter_deck
        (codes "* gates\n.global vdd\n.subckt " ++ replicate 1022 97
        ++ codes " a y\nmp y a vdd vdd pch\nmn y a 0 0 nch\n.ends\n") ≡ Err (of_limit of_name) }
    ensures longest { is_ok
        (lift_job no_options inverter_deck
        (codes "* gates\n.global vdd\n.subckt " ++ replicate 1021 97
        ++ codes " a y\nmp y a vdd vdd pch\nmn y a 0 0 nch\n.ends\n")) ≡ true }
{}
