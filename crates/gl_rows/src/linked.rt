//! Rows on which links of the lift theorem are computed: lists that are complete, origins, shared variants, the way back.
ghost use Rattle.std.specs.Prelude.{◌≡◌, ◌++◌, codes, ◌∷◌, [], None, Some, Ok, true};
ghost use Rattle.gl_base.specs.Stems.{names_in, stem_of};
ghost use Rattle.gl_base.specs.Rounds.{cards_of};
ghost use Rattle.gl_lifting.specs.Replacement.{base, made};
ghost use Rattle.gl_lifting.specs.Variants.{variants_of};
ghost use Rattle.gl_lifting.specs.Chain.{all_origins, LiftedIsFlat, RenamedIsOriginal};
ghost use Rattle.gl_lifting.specs.Runs.{run_of};
ghost use Rattle.gl_lifting.specs.LiftedDecks.{turned_back};
ghost use Rattle.gl_lifting.specs.TriedHistories.{is_tried_complete, tried_history};
ghost use Rattle.gl_lifting.specs.LiftJobs.{restore_job};
ghost use Rattle.gl_rows.specs.Files.{Accepted};
ghost use Rattle.gl_rows.specs.LiftRows.{Lifts, IsLinked, history_of, no_options, with_top};
ghost use Rattle.gl_rows.specs.Texts.{exchanged_deck, extracted_map, extracted_report, gates, grounded_inverter, inverter, inverter_deck, latch_cells, latch_deck, models, nand, overlap_deck, parallel, resistors_deck, variant_named_lifted, vdd_rail};

/// The lists that are computed are complete: an inverter, resistors in parallel, and a latch in two rounds.
pub fn tried_lists_are_complete()
    ensures one_inverter { Accepted inverter_deck gates
        (λ f l. is_tried_complete (run_of f l []) ≡ true) }
    ensures three_in_parallel { Accepted resistors_deck parallel
        (λ f l. is_tried_complete (run_of f l []) ≡ true) }
    ensures overlap { Accepted overlap_deck
        (codes "* gates\n.global vdd\n" ++ inverter ++ vdd_rail ++ nand)
        (λ f l. is_tried_complete (run_of f l []) ≡ true) }
    ensures latch { Accepted latch_deck latch_cells
        (λ f l. is_tried_complete (run_of f l []) ≡ true) }
{}

/// The lifted deck flattens as it is said to, and renamed under its map it is the original: an exchanged transistor, a latch, and resistors.
pub fn links_hold_on_rows()
    ensures exchanged { Accepted exchanged_deck gates IsLinked }
    ensures latch { Accepted latch_deck latch_cells IsLinked }
    ensures three_in_parallel { Accepted resistors_deck parallel IsLinked }
{}

/// Where the latch's devices and composites went, and the variants of its composites: two NANDs of one variant, and the latch.
pub fn origins_are_told_on_rows()
    ensures origins { Accepted latch_deck latch_cells
        (λ f l. all_origins (history_of f l)
        ≡ made 3 ∷ base 0 ∷ base 1 ∷ base 2 ∷ base 3 ∷ base 4 ∷ base 5 ∷ base 6 ∷ base 7 ∷ made 1
        ∷ made 2 ∷ []) }
    ensures variants { Accepted latch_deck latch_cells
        (λ f l. (variants_of (cards_of f) (history_of f l).last.composites).numbers
        ≡ 0 ∷ 0 ∷ 1 ∷ []) }
{}

/// Inverters of two sizes, of which the first comes again; and a top that has the name of a variant.
pub fn variants_are_shared()
    ensures first_size_again { Lifts no_options
        (codes "two sizes\n" ++ models
        ++ codes "m1 b a vdd vdd pch w=4u\nm2 b a 0 0 nch w=2u\nm3 c b vdd vdd pch w=8u\n"
        ++ codes "m4 c b 0 0 nch w=4u\nm5 d c vdd vdd pch w=4u\nm6 d c 0 0 nch w=2u\n.end\n") gates
        (codes "two sizes\n" ++ models
        ++ codes ".subckt inv_v1 a y\nmp y a vdd vdd pch w=4u\nmn y a 0 0 nch w=2u\n"
        ++ codes ".ends inv_v1\n.subckt inv_v2 a y\nmp y a vdd vdd pch w=8u\n"
        ++ codes "mn y a 0 0 nch w=4u\n.ends inv_v2\nxg1 a b inv_v1\nxg2 b c inv_v2\n"
        ++ codes "xg3 c d inv_v1\n.end\n")
        (codes "gatelift map 1\ndevice m.xg1.mp m1\ndevice m.xg1.mn m2\ndevice m.xg2.mp m3\n"
        ++ codes "device m.xg2.mn m4\ndevice m.xg3.mp m5\ndevice m.xg3.mn m6\nnet b b\n"
        ++ codes "net a a\nnet vdd vdd\nnet 0 0\nnet c c\nnet d d\nend\n")
        (codes "round 0\ncell inv ports 2 instances 3 chosen 3\n"
        ++ codes "1 xg1 a=a y=b | mp=m1 mn=m2\n2 xg2 a=b y=c | mp=m3 mn=m4\n"
        ++ codes "3 xg3 a=c y=d | mp=m5 mn=m6\nleft 0\nend\n") }
    ensures top_named_as_a_variant { Lifts (with_top (codes "inv_v1"))
        (codes "* extracted\n.subckt inv_v1 in out vdd gnd\n"
        ++ codes "M1000 mid in vdd vdd pch w=4u l=1u\n+ ad=8p as=8p pd=10u ps=10u\n"
        ++ codes "M1001 mid in gnd gnd nch w=2u l=1u\n+ ad=4p as=4p pd=6u ps=6u\n"
        ++ codes "M1002 out mid vdd vdd pch w=4u l=1u\n+ ad=8p as=8p pd=10u ps=10u\n"
        ++ codes "M1003 out mid gnd gnd nch w=2u l=1u\n+ ad=4p as=4p pd=6u ps=6u\n"
        ++ codes "C1 mid gnd 2.1fF\n.ends\n.end\n") grounded_inverter variant_named_lifted
        extracted_map extracted_report }
    ensures restored { restore_job (Some (codes "inv_v1")) variant_named_lifted extracted_map
        ≡ Ok
        (codes "* extracted\n.subckt inv_v1 in out vdd gnd\n"
        ++ codes "m1000 mid in vdd vdd pch w=4u l=1u ad=8p as=8p pd=10u ps=10u\n"
        ++ codes "m1001 mid in gnd gnd nch w=2u l=1u ad=4p as=4p pd=6u ps=6u\n"
        ++ codes "m1002 out mid vdd vdd pch w=4u l=1u ad=8p as=8p pd=10u ps=10u\n"
        ++ codes "m1003 out mid gnd gnd nch w=2u l=1u ad=4p as=4p pd=6u ps=6u\n"
        ++ codes "c1 mid gnd 2.1fF\n.ends inv_v1\n.end\n") }
    ensures turn_of_three_places { turned_back (1 ∷ 2 ∷ 0 ∷ [])
        (codes "a" ∷ codes "b" ∷ codes "c" ∷ []) ≡ codes "c" ∷ codes "a" ∷ codes "b" ∷ [] }
{}
