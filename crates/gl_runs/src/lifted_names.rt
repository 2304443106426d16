//! The job `lift` through the top call: whole texts where names, rails, tops and other cards matter.

use crate::lifted_texts::{Row, is_lifted};
use gl_desk::Memory;

const INV: &str =
    "* gates\n.global vdd\n.subckt inv a y\nmp y a vdd vdd pch\nmn y a 0 0 nch\n.ends\n";

const NAND: &str =
    ".global vdd\n.subckt nand2 a b y\nmp1 y a vdd vdd pch\nmp2 y b vdd vdd pch\nmn1 y a x 0 nch\nmn2 x b 0 0 nch\n.ends\n";

const PINV: &str = ".subckt inv a y vdd gnd\nmp y a vdd vdd pch\nmn y a gnd gnd nch\n.ends\n";

/// Decks with a top, with globals, with names of subcircuits, and with passed cards.
const ROWS: [Row; 17] = [
    // names in which the stem stands
    Row {
        deck: "one inverter\n.global vdd\n.model nch nmos\n.model pch pmos\nm1 xg_ xg1.n vdd vdd pch w=4u l=1u\nm2 xg_ xg1.n 0 0 nch w=2u l=1u\n.end\n",
        library: INV,
        globals: "",
        options: "",
        lifted: "one inverter\n.global vdd\n.model nch nmos\n.model pch pmos\n.subckt inv_v1 a y\nmp y a vdd vdd pch w=4u l=1u\nmn y a 0 0 nch w=2u l=1u\n.ends inv_v1\nxg__1 xg1.n xg_ inv_v1\n.end\n",
        map: "gatelift map 1\ndevice m.xg__1.mp m1\ndevice m.xg__1.mn m2\nnet xg_ xg_\nnet xg1.n xg1.n\nnet vdd vdd\nnet 0 0\nend\n",
        report: "round 0\ncell inv ports 2 instances 1 chosen 1\n1 xg__1 a=xg1.n y=xg_ | mp=m1 mn=m2\nleft 0\nend\n",
    },
    // a deck as an extractor writes it
    Row {
        deck: "* extracted\n.subckt top in out vdd gnd\nM1000 mid in vdd vdd pch w=4u l=1u\n+ ad=8p as=8p pd=10u ps=10u\nM1001 mid in gnd gnd nch w=2u l=1u\n+ ad=4p as=4p pd=6u ps=6u\nM1002 out mid vdd vdd pch w=4u l=1u\n+ ad=8p as=8p pd=10u ps=10u\nM1003 out mid gnd gnd nch w=2u l=1u\n+ ad=4p as=4p pd=6u ps=6u\nC1 mid gnd 2.1fF\n.ends\n.end\n",
        library: PINV,
        globals: "",
        options: " --top top",
        lifted: "* extracted\n.subckt inv_v1 a y vdd gnd\nmp y a vdd vdd pch w=4u l=1u ad=8p as=8p pd=10u ps=10u\nmn y a gnd gnd nch w=2u l=1u ad=4p as=4p pd=6u ps=6u\n.ends inv_v1\n.subckt top in out vdd gnd\nxg1 in mid vdd gnd inv_v1\nxg2 mid out vdd gnd inv_v1\nc1 mid gnd 2.1fF\n.ends top\n.end\n",
        map: "gatelift map 1\ndevice m.xg1.mp m1000\ndevice m.xg1.mn m1001\ndevice m.xg2.mp m1002\ndevice m.xg2.mn m1003\ndevice c1 c1\nnet mid mid\nnet in in\nnet vdd vdd\nnet gnd gnd\nnet out out\nend\n",
        report: "round 0\ncell inv ports 4 instances 2 chosen 2\n1 xg1 a=in y=mid vdd=vdd gnd=gnd | mp=m1000 mn=m1001\n2 xg2 a=mid y=out vdd=vdd gnd=gnd | mp=m1002 mn=m1003\nleft 1\nend\n",
    },
    // a top that is named as a variant
    Row {
        deck: "* extracted\n.subckt inv_v1 in out vdd gnd\nM1000 mid in vdd vdd pch w=4u l=1u\n+ ad=8p as=8p pd=10u ps=10u\nM1001 mid in gnd gnd nch w=2u l=1u\n+ ad=4p as=4p pd=6u ps=6u\nM1002 out mid vdd vdd pch w=4u l=1u\n+ ad=8p as=8p pd=10u ps=10u\nM1003 out mid gnd gnd nch w=2u l=1u\n+ ad=4p as=4p pd=6u ps=6u\nC1 mid gnd 2.1fF\n.ends\n.end\n",
        library: PINV,
        globals: "",
        options: " --top inv_v1",
        lifted: "* extracted\n.subckt inv_v2 a y vdd gnd\nmp y a vdd vdd pch w=4u l=1u ad=8p as=8p pd=10u ps=10u\nmn y a gnd gnd nch w=2u l=1u ad=4p as=4p pd=6u ps=6u\n.ends inv_v2\n.subckt inv_v1 in out vdd gnd\nxg1 in mid vdd gnd inv_v2\nxg2 mid out vdd gnd inv_v2\nc1 mid gnd 2.1fF\n.ends inv_v1\n.end\n",
        map: "gatelift map 1\ndevice m.xg1.mp m1000\ndevice m.xg1.mn m1001\ndevice m.xg2.mp m1002\ndevice m.xg2.mn m1003\ndevice c1 c1\nnet mid mid\nnet in in\nnet vdd vdd\nnet gnd gnd\nnet out out\nend\n",
        report: "round 0\ncell inv ports 4 instances 2 chosen 2\n1 xg1 a=in y=mid vdd=vdd gnd=gnd | mp=m1000 mn=m1001\n2 xg2 a=mid y=out vdd=vdd gnd=gnd | mp=m1002 mn=m1003\nleft 1\nend\n",
    },
    // passed cards, and a title that begins with a star
    Row {
        deck: "* gates of a chip\n.options reltol=1e-4  abstol=1p \n.global vdd\n.model nch nmos\n.model pch pmos\nm1 out in vdd vdd pch\nm2 out in 0 0 nch\n.ic v(out)=0\n.TRAN 1n  10n\n+ 0 1p\n.end\n",
        library: INV,
        globals: "",
        options: "",
        lifted: "* gates of a chip\n.global vdd\n.model nch nmos\n.model pch pmos\n.subckt inv_v1 a y\nmp y a vdd vdd pch\nmn y a 0 0 nch\n.ends inv_v1\nxg1 in out inv_v1\n.options reltol=1e-4  abstol=1p\n.ic v(out)=0\n.TRAN 1n  10n  0 1p\n.end\n",
        map: "gatelift map 1\ndevice m.xg1.mp m1\ndevice m.xg1.mn m2\nnet out out\nnet in in\nnet vdd vdd\nnet 0 0\nend\n",
        report: "round 0\ncell inv ports 2 instances 1 chosen 1\n1 xg1 a=in y=out | mp=m1 mn=m2\nleft 0\nend\n",
    },
    // names of subcircuits become plain names
    Row {
        deck: "dotted\n.global vdd\n.model nch nmos\n.model pch pmos\n.subckt gate i j o\nmpa o i vdd vdd pch\nmpb o j vdd vdd pch\nmna o i k 0 nch w=2u\nmnb k j 0 0 nch\n.ends\n.subckt pair p q r\nx1 p q n gate\nx2 n n r gate\nr1 n w 1k\nc1 w 0 1f\n.ends\nx1 a b c pair\nx2 c c d gate\n.end\n",
        library: NAND,
        globals: "",
        options: "",
        lifted: "dotted\n.global vdd\n.model nch nmos\n.model pch pmos\n.subckt nand2_v1 a b y\nmp1 y a vdd vdd pch\nmp2 y b vdd vdd pch\nmn1 y a x 0 nch w=2u\nmn2 x b 0 0 nch\n.ends nand2_v1\nxg1 a b x1.n nand2_v1\nm.x1.x2.mpa c x1.n vdd vdd pch\nm.x1.x2.mpb c x1.n vdd vdd pch\nm.x1.x2.mna c x1.n x1.x2.k 0 nch w=2u\nm.x1.x2.mnb x1.x2.k x1.n 0 0 nch\nr.x1.r1 x1.n x1.w 1k\nc.x1.c1 x1.w 0 1f\nm.x2.mpa d c vdd vdd pch\nm.x2.mpb d c vdd vdd pch\nm.x2.mna d c x2.k 0 nch w=2u\nm.x2.mnb x2.k c 0 0 nch\n.end\n",
        map: "gatelift map 1\ndevice m.xg1.mp1 m.x1.x1.mpa\ndevice m.xg1.mp2 m.x1.x1.mpb\ndevice m.xg1.mn1 m.x1.x1.mna\ndevice m.xg1.mn2 m.x1.x1.mnb\ndevice m.x1.x2.mpa m.x1.x2.mpa\ndevice m.x1.x2.mpb m.x1.x2.mpb\ndevice m.x1.x2.mna m.x1.x2.mna\ndevice m.x1.x2.mnb m.x1.x2.mnb\ndevice r.x1.r1 r.x1.r1\ndevice c.x1.c1 c.x1.c1\ndevice m.x2.mpa m.x2.mpa\ndevice m.x2.mpb m.x2.mpb\ndevice m.x2.mna m.x2.mna\ndevice m.x2.mnb m.x2.mnb\nnet x1.n x1.n\nnet a a\nnet vdd vdd\nnet b b\nnet xg1.x x1.x1.k\nnet 0 0\nnet c c\nnet x1.x2.k x1.x2.k\nnet x1.w x1.w\nnet d d\nnet x2.k x2.k\nend\n",
        report: "round 0\ncell nand2 ports 3 instances 1 chosen 1\n1 xg1 a=a b=b y=x1.n | mp1=m.x1.x1.mpa mp2=m.x1.x1.mpb mn1=m.x1.x1.mna mn2=m.x1.x1.mnb\nleft 10\nend\n",
    },
    // a global of the deck is the inner net of a cell
    Row {
        deck: "global inner\n.global x\n.global vdd\n.model nch nmos\n.model pch pmos\nm1 y a vdd vdd pch\nm2 y b vdd vdd pch\nm3 y a x 0 nch\nm4 x b 0 0 nch\nm5 z a vdd vdd pch\nm6 z b vdd vdd pch\nm7 z a k 0 nch\nm8 k b 0 0 nch\n",
        library: NAND,
        globals: "",
        options: "",
        lifted: "global inner\n.global x\n.global vdd\n.model nch nmos\n.model pch pmos\n.subckt nand2_v1 a b y\nmp1 y a vdd vdd pch\nmp2 y b vdd vdd pch\nmn1 y a x 0 nch\nmn2 x b 0 0 nch\n.ends nand2_v1\nxg1 a b y nand2_v1\nm5 z a vdd vdd pch\nm6 z b vdd vdd pch\nm7 z a k 0 nch\nm8 k b 0 0 nch\n.end\n",
        map: "gatelift map 1\ndevice m.xg1.mp1 m1\ndevice m.xg1.mp2 m2\ndevice m.xg1.mn1 m3\ndevice m.xg1.mn2 m4\ndevice m5 m5\ndevice m6 m6\ndevice m7 m7\ndevice m8 m8\nnet y y\nnet a a\nnet vdd vdd\nnet b b\nnet x x\nnet 0 0\nnet z z\nnet k k\nend\n",
        report: "round 0\ncell nand2 ports 3 instances 1 chosen 1\n1 xg1 a=a b=b y=y | mp1=m1 mp2=m2 mn1=m3 mn2=m4\nleft 4\nend\n",
    },
    // a global of the deck is a port of a cell
    Row {
        deck: "global port\n.global a\n.global vdd\n.model nch nmos\n.model pch pmos\nm1 b a vdd vdd pch\nm2 b a 0 0 nch\nm3 c b vdd vdd pch\nm4 c b 0 0 nch\n.end\n",
        library: INV,
        globals: "",
        options: "",
        lifted: "global port\n.global a\n.global vdd\n.model nch nmos\n.model pch pmos\n.subckt inv_v1 a y\nmp y a vdd vdd pch\nmn y a 0 0 nch\n.ends inv_v1\nxg1 a b inv_v1\nm3 c b vdd vdd pch\nm4 c b 0 0 nch\n.end\n",
        map: "gatelift map 1\ndevice m.xg1.mp m1\ndevice m.xg1.mn m2\ndevice m3 m3\ndevice m4 m4\nnet b b\nnet a a\nnet vdd vdd\nnet 0 0\nnet c c\nend\n",
        report: "round 0\ncell inv ports 2 instances 1 chosen 1\n1 xg1 a=a y=b | mp=m1 mn=m2\nleft 2\nend\n",
    },
    // globals of deck and library
    Row {
        deck: "two globals\n.global gnd vss\n.model nch nmos\n.model pch pmos\nm1 out in vdd vdd pch\nm2 out in 0 0 nch\nr1 out vss 1k\n",
        library: ".global vdd 0 gnd\n.subckt inv a y\nmp y a vdd vdd pch\nmn y a 0 0 nch\n.ends\n",
        globals: ".global vdd\n",
        options: "",
        lifted: "two globals\n.global gnd\n.global vss\n.global vdd\n.model nch nmos\n.model pch pmos\n.subckt inv_v1 a y\nmp y a vdd vdd pch\nmn y a 0 0 nch\n.ends inv_v1\nxg1 in out inv_v1\nr1 out vss 1k\n.end\n",
        map: "gatelift map 1\ndevice m.xg1.mp m1\ndevice m.xg1.mn m2\ndevice r1 r1\nnet out out\nnet in in\nnet vdd vdd\nnet 0 0\nnet vss vss\nend\n",
        report: "round 0\ncell inv ports 2 instances 1 chosen 1\n1 xg1 a=in y=out | mp=m1 mn=m2\nleft 1\nend\n",
    },
    // a device of each letter
    Row {
        deck: "letters\n.model dx d is=1e-14\nd1 a b dx area=2\nr1 b a 1k tc=1\nc1 b a 1p\nl1 a b 1n\nv1 a b dc 0\ni1 a b 1m\nc2 a 0 2p\n.end\n",
        library: ".model dm d\n.subckt six p q\nd1 p q dm\nr1 p q\nc1 p q\nl1 p q\nv1 p q\ni1 p q\n.ends\n",
        globals: "",
        options: "",
        lifted: "letters\n.model dx d is=1e-14\n.subckt six_v1 p q\nd1 p q dx area=2\nr1 q p 1k tc=1\nc1 q p 1p\nl1 p q 1n\nv1 p q dc 0\ni1 p q 1m\n.ends six_v1\nxg1 a b six_v1\nc2 a 0 2p\n.end\n",
        map: "gatelift map 1\ndevice d.xg1.d1 d1\ndevice r.xg1.r1 r1\ndevice c.xg1.c1 c1\ndevice l.xg1.l1 l1\ndevice v.xg1.v1 v1\ndevice i.xg1.i1 i1\ndevice c2 c2\nnet a a\nnet b b\nnet 0 0\nend\n",
        report: "round 0\ncell six ports 2 instances 1 chosen 1\n1 xg1 p=a q=b | d1=d1 r1=r1 c1=c1 l1=l1 v1=v1 i1=i1\nleft 1\nend\n",
    },
    // skipped cells, and a library without devices of the deck
    Row {
        deck: "skips\n.global vdd\n.model nch nmos\n.model pch pmos\nr1 a b 1k\nm1 out in vdd vdd pch\nm2 out in 0 0 nch\n.end\n",
        library: ".global vdd\n.subckt fill v\n.ends\n.subckt odd a b\nr1 a 0 1\n.ends\n.subckt dbl v\nx1 v fill\n.ends\n.subckt inv a y\nmp y a vdd vdd pch\nmn y a 0 0 nch\n.ends\n",
        globals: "",
        options: "",
        lifted: "skips\n.global vdd\n.model nch nmos\n.model pch pmos\n.subckt inv_v1 a y\nmp y a vdd vdd pch\nmn y a 0 0 nch\n.ends inv_v1\nr1 a b 1k\nxg1 in out inv_v1\n.end\n",
        map: "gatelift map 1\ndevice r1 r1\ndevice m.xg1.mp m1\ndevice m.xg1.mn m2\nnet a a\nnet b b\nnet out out\nnet in in\nnet vdd vdd\nnet 0 0\nend\n",
        report: "round 0\ncell fill skipped empty\ncell odd skipped loose b\ncell inv ports 2 instances 1 chosen 1\n1 xg1 a=in y=out | mp=m1 mn=m2\nround 1\ncell dbl skipped uses fill\nleft 1\nend\n",
    },
    // a library without cells
    Row {
        deck: "nothing\nr1 A b 1K\n.options x\n",
        library: ".model nch nmos\n",
        globals: "",
        options: "",
        lifted: "nothing\nr1 a b 1K\n.options x\n.end\n",
        map: "gatelift map 1\ndevice r1 r1\nnet a a\nnet b b\nend\n",
        report: "left 1\nend\n",
    },
    // the stem in a port that no device has
    Row {
        deck: "* extracted\n.subckt top in out vdd gnd axg\nM1000 mid in vdd vdd pch w=4u l=1u\n+ ad=8p as=8p pd=10u ps=10u\nM1001 mid in gnd gnd nch w=2u l=1u\n+ ad=4p as=4p pd=6u ps=6u\nM1002 out mid vdd vdd pch w=4u l=1u\n+ ad=8p as=8p pd=10u ps=10u\nM1003 out mid gnd gnd nch w=2u l=1u\n+ ad=4p as=4p pd=6u ps=6u\nC1 mid gnd 2.1fF\n.ends\n.end\n",
        library: PINV,
        globals: "",
        options: " --top top",
        lifted: "* extracted\n.subckt inv_v1 a y vdd gnd\nmp y a vdd vdd pch w=4u l=1u ad=8p as=8p pd=10u ps=10u\nmn y a gnd gnd nch w=2u l=1u ad=4p as=4p pd=6u ps=6u\n.ends inv_v1\n.subckt top in out vdd gnd axg\nxg_1 in mid vdd gnd inv_v1\nxg_2 mid out vdd gnd inv_v1\nc1 mid gnd 2.1fF\n.ends top\n.end\n",
        map: "gatelift map 1\ndevice m.xg_1.mp m1000\ndevice m.xg_1.mn m1001\ndevice m.xg_2.mp m1002\ndevice m.xg_2.mn m1003\ndevice c1 c1\nnet mid mid\nnet in in\nnet vdd vdd\nnet gnd gnd\nnet out out\nend\n",
        report: "round 0\ncell inv ports 4 instances 2 chosen 2\n1 xg_1 a=in y=mid vdd=vdd gnd=gnd | mp=m1000 mn=m1001\n2 xg_2 a=mid y=out vdd=vdd gnd=gnd | mp=m1002 mn=m1003\nleft 1\nend\n",
    },
    // the stem in a global that no device has
    Row {
        deck: "stem\n.global axg_b xg\n.model nch nmos\n.model pch pmos\nm1 out in vdd vdd pch\nm2 out in 0 0 nch\n",
        library: INV,
        globals: ".global vdd\n",
        options: "",
        lifted: "stem\n.global axg_b\n.global xg\n.global vdd\n.model nch nmos\n.model pch pmos\n.subckt inv_v1 a y\nmp y a vdd vdd pch\nmn y a 0 0 nch\n.ends inv_v1\nxg__1 in out inv_v1\n.end\n",
        map: "gatelift map 1\ndevice m.xg__1.mp m1\ndevice m.xg__1.mn m2\nnet out out\nnet in in\nnet vdd vdd\nnet 0 0\nend\n",
        report: "round 0\ncell inv ports 2 instances 1 chosen 1\n1 xg__1 a=in y=out | mp=m1 mn=m2\nleft 0\nend\n",
    },
    // carriage returns, large letters and loose tails
    Row {
        deck: "Mixed Case \r\n.GLOBAL VDD\r\n.MODEL NCH NMOS (VTO=0.7)\r\n.MODEL PCH PMOS\r\nM1 OUT,IN (VDD VDD) PCH,  W=4U\r\n* note\r\n+ L=1U \r\nM2 OUT IN 0 0 NCH (W=2U)  L=1U\r\n.END\r\n",
        library: INV,
        globals: "",
        options: "",
        lifted: "Mixed Case \n.global vdd\n.model nch nmos (VTO=0.7)\n.model pch pmos\n.subckt inv_v1 a y\nmp y a vdd vdd pch W=4U L=1U\nmn y a 0 0 nch (W=2U) L=1U\n.ends inv_v1\nxg1 in out inv_v1\n.end\n",
        map: "gatelift map 1\ndevice m.xg1.mp m1\ndevice m.xg1.mn m2\nnet out out\nnet in in\nnet vdd vdd\nnet 0 0\nend\n",
        report: "round 0\ncell inv ports 2 instances 1 chosen 1\n1 xg1 a=in y=out | mp=m1 mn=m2\nleft 0\nend\n",
    },
    // types by the words of models, and variants by their names
    Row {
        deck: "two models\n.global vdd\n.model nch nmos\n.model pch pmos\n.model nlow nmos vto=0.3\nm1 b a vdd vdd pch\nm2 b a 0 0 nch\nm3 c b vdd vdd pch\nm4 c b 0 0 nlow\n.end\n",
        library: INV,
        globals: "",
        options: "",
        lifted: "two models\n.global vdd\n.model nch nmos\n.model pch pmos\n.model nlow nmos vto=0.3\n.subckt inv_v1 a y\nmp y a vdd vdd pch\nmn y a 0 0 nch\n.ends inv_v1\n.subckt inv_v2 a y\nmp y a vdd vdd pch\nmn y a 0 0 nlow\n.ends inv_v2\nxg1 a b inv_v1\nxg2 b c inv_v2\n.end\n",
        map: "gatelift map 1\ndevice m.xg1.mp m1\ndevice m.xg1.mn m2\ndevice m.xg2.mp m3\ndevice m.xg2.mn m4\nnet b b\nnet a a\nnet vdd vdd\nnet 0 0\nnet c c\nend\n",
        report: "round 0\ncell inv ports 2 instances 2 chosen 2\n1 xg1 a=a y=b | mp=m1 mn=m2\n2 xg2 a=b y=c | mp=m3 mn=m4\nleft 0\nend\n",
    },
    // a port with the name of a rail
    Row {
        deck: "ported\n.global vdd\n.model nch nmos\n.model pch pmos\n.global gnd\nm1 out in vdd vdd pch\nm2 out in gnd gnd nch\nm3 up out vss vss pch\nm4 up out gnd gnd nch\n.end\n",
        library: PINV,
        globals: "",
        options: "",
        lifted: "ported\n.global vdd\n.global gnd\n.model nch nmos\n.model pch pmos\n.subckt inv_v1 a y vdd gnd\nmp y a vdd vdd pch\nmn y a gnd gnd nch\n.ends inv_v1\nxg1 in out vdd gnd inv_v1\nm3 up out vss vss pch\nm4 up out gnd gnd nch\n.end\n",
        map: "gatelift map 1\ndevice m.xg1.mp m1\ndevice m.xg1.mn m2\ndevice m3 m3\ndevice m4 m4\nnet out out\nnet in in\nnet vdd vdd\nnet gnd gnd\nnet up up\nnet vss vss\nend\n",
        report: "round 0\ncell inv ports 4 instances 1 chosen 1\n1 xg1 a=in y=out vdd=vdd gnd=gnd | mp=m1 mn=m2\nleft 2\nend\n",
    },
    // ports on rails that the cell does not name
    Row {
        deck: "pulled\n.global vdd vss\nr1 vdd 0 1k\nr2 0 a 2k\n.end\n",
        library: ".subckt one p q\nr1 p q\n.ends\n",
        globals: "",
        options: "",
        lifted: "pulled\n.global vdd\n.global vss\n.subckt one_v1 p q\nr1 p q 1k\n.ends one_v1\n.subckt one_v2 p q\nr1 p q 2k\n.ends one_v2\nxg1 vdd 0 one_v1\nxg2 0 a one_v2\n.end\n",
        map: "gatelift map 1\ndevice r.xg1.r1 r1\ndevice r.xg2.r1 r2\nnet vdd vdd\nnet 0 0\nnet a a\nend\n",
        report: "round 0\ncell one ports 2 instances 4 chosen 2\n1 xg1 p=vdd q=0 | r1=r1\n2 over xg1 p=0 q=vdd | r1=r1\n3 xg2 p=0 q=a | r1=r2\n4 over xg2 p=a q=0 | r1=r2\nleft 0\nend\n",
    },
];

#[test]
fn names(rt: HostRuntime) -> Result<(), Memory> {
    for row in ROWS {
        is_lifted(&rt, rt.alloc(), row)?;
    }
    Ok(())
}
