//! Texts of refusals by hand: each is the contract of a function that does nothing.
ghost use Rattle.std.specs.Prelude.{◌≡◌, codes};
ghost use Rattle.gl_text.specs.LogicalLines.{loose_plus, long_line, long_name, unknown_card, short_card, control_block, nested_subckt, loose_ends, wrong_ends, open_subckt, local_card, parameters, duplicate_name, duplicate_port, zero_port, long_tail, unknown_subckt, wrong_node_count, recursive, name_clash, long_flat_name, too_many_cards, too_many_devices, too_deep, no_top, top_devices, long_text};
ghost use Rattle.gl_base.specs.Libraries as libraries;
ghost use Rattle.gl_deck.specs.Texts.{fault_text};
ghost use Rattle.gl_cells.specs.Texts.{cell_text};

/// The refusals of reading, each by its text.
pub fn reading_refusals()
    ensures loose_plus { fault_text (loose_plus 2) ≡ codes "1 LoosePlus line=2" }
    ensures long_line { fault_text (long_line 3 131073) ≡ codes "2 LongLine line=3 len=131073" }
    ensures long_name { fault_text (long_name 4 1025) ≡ codes "3 LongName line=4 len=1025" }
    ensures unknown_card { fault_text (unknown_card 5 113) ≡ codes "4 UnknownCard line=5 byte=113" }
    ensures short_card { fault_text (short_card 6 5 7) ≡ codes "5 ShortCard line=6 has=5 needs=7" }
    ensures control_block { fault_text (control_block 7) ≡ codes "6 ControlBlock line=7" }
    ensures nested_subckt { fault_text (nested_subckt 8) ≡ codes "7 NestedSubckt line=8" }
    ensures loose_ends { fault_text (loose_ends 9) ≡ codes "8 LooseEnds line=9" }
    ensures wrong_ends { fault_text (wrong_ends 10) ≡ codes "9 WrongEnds line=10" }
    ensures open_subckt { fault_text (open_subckt 11) ≡ codes "10 OpenSubckt line=11" }
    ensures local_card { fault_text (local_card 12) ≡ codes "11 LocalCard line=12" }
    ensures parameters { fault_text (parameters 13) ≡ codes "12 Parameters line=13" }
    ensures duplicate_name { fault_text (duplicate_name 14 3)
        ≡ codes "13 DuplicateName line=14 first=3" }
    ensures duplicate_port { fault_text (duplicate_port 15) ≡ codes "14 DuplicatePort line=15" }
    ensures zero_port { fault_text (zero_port 16) ≡ codes "15 ZeroPort line=16" }
    ensures long_tail { fault_text (long_tail 17 65537) ≡ codes "16 LongTail line=17 len=65537" }
    ensures unknown_subckt { fault_text (unknown_subckt 18) ≡ codes "17 UnknownSubckt line=18" }
    ensures wrong_node_count { fault_text (wrong_node_count 19 2 1)
        ≡ codes "18 WrongNodeCount line=19 has=2 needs=1" }
    ensures recursive { fault_text (recursive 20) ≡ codes "19 Recursive line=20" }
{}

/// The refusals of flattening.
pub fn flattening_refusals()
    ensures name_clash { fault_text (name_clash (codes "x1.n")) ≡ codes "20 NameClash name=x1.n" }
    ensures long_flat_name { fault_text (long_flat_name 1025) ≡ codes "21 LongFlatName len=1025" }
    ensures too_many_cards { fault_text (too_many_cards 400001)
        ≡ codes "22 TooMany what=Cards number=400001" }
    ensures too_many_devices { fault_text (too_many_devices 200001)
        ≡ codes "22 TooMany what=Devices number=200001" }
    ensures too_deep { fault_text (too_deep 33) ≡ codes "23 TooDeep number=33" }
    ensures no_top { fault_text (no_top (codes "s")) ≡ codes "24 NoTop name=s" }
    ensures top_devices { fault_text (top_devices 5) ≡ codes "25 TopDevices line=5" }
    ensures long_text { fault_text (long_text 67108865) ≡ codes "26 LongText number=67108865" }
{}

/// The refusals of a library.
pub fn library_refusals()
    ensures refused_reading { cell_text (libraries.refused (loose_plus 1))
        ≡ codes "1 LoosePlus line=1" }
    ensures top_card { cell_text (libraries.top_card 2) ≡ codes "30 TopCard line=2" }
    ensures cells { cell_text (libraries.cell_limit (codes "c") libraries.cells 257)
        ≡ codes "31 CellLimit cell=c what=Cells number=257" }
    ensures devices { cell_text (libraries.cell_limit (codes "c") libraries.devices 257)
        ≡ codes "31 CellLimit cell=c what=Devices number=257" }
    ensures ports { cell_text (libraries.cell_limit (codes "c") libraries.ports 65)
        ≡ codes "31 CellLimit cell=c what=Ports number=65" }
    ensures level { cell_text (libraries.cell_limit (codes "c") libraries.level 16)
        ≡ codes "31 CellLimit cell=c what=Level number=16" }
    ensures flat { cell_text (libraries.cell_limit (codes "c") libraries.flat 65537)
        ≡ codes "31 CellLimit cell=c what=Flat number=65537" }
    ensures clash { cell_text (libraries.cell_clash (codes "c") (codes "x1.n"))
        ≡ codes "33 CellClash cell=c name=x1.n" }
{}
