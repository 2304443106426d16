//! The job `lift` through the top call: whole texts where cells call cells.

use crate::lifted_texts::{Row, is_lifted};
use gl_desk::Memory;

const LATCH: &str =
    ".global vdd\n.subckt nand2 a b y\nmp1 y a vdd vdd pch\nmp2 y b vdd vdd pch\nmn1 y a x 0 nch\nmn2 x b 0 0 nch\n.ends\n.subckt latch s r q qb\nx1 s qb q nand2\nx2 r q qb nand2\n.ends\n";

const BUF: &str =
    ".global vdd\n.subckt inv a y\nmp y a vdd vdd pch\nmn y a 0 0 nch\n.ends\n.subckt buf a y\nx1 a n inv\nx2 n y inv\n.ends\n";

const QUAD: &str =
    ".global vdd\n.subckt inv a y\nmp y a vdd vdd pch\nmn y a 0 0 nch\n.ends\n.subckt buf a y\nx1 a n inv\nx2 n y inv\n.ends\n.subckt quad a y\nx1 a n buf\nx2 n y buf\n.ends\n";

/// Decks of several levels.
const ROWS: [Row; 7] = [
    // a latch: variants that call variants
    Row {
        deck: "latch\n.global vdd\n.model nch nmos\n.model pch pmos\nm1 q sn vdd vdd pch\nm2 q qn vdd vdd pch\nm3 q sn k1 0 nch\nm4 k1 qn 0 0 nch\nm5 qn rn vdd vdd pch\nm6 qn q vdd vdd pch\nm7 qn rn k2 0 nch\nm8 k2 q 0 0 nch\n.end\n",
        library: LATCH,
        globals: "",
        options: "",
        lifted: "latch\n.global vdd\n.model nch nmos\n.model pch pmos\n.subckt nand2_v1 a b y\nmp1 y a vdd vdd pch\nmp2 y b vdd vdd pch\nmn1 y a x 0 nch\nmn2 x b 0 0 nch\n.ends nand2_v1\n.subckt latch_v1 s r q qb\nx1 s qb q nand2_v1\nx2 r q qb nand2_v1\n.ends latch_v1\nxg3 sn rn q qn latch_v1\n.end\n",
        map: "gatelift map 1\ndevice m.xg3.x1.mp1 m1\ndevice m.xg3.x1.mp2 m2\ndevice m.xg3.x1.mn1 m3\ndevice m.xg3.x1.mn2 m4\ndevice m.xg3.x2.mp1 m5\ndevice m.xg3.x2.mp2 m6\ndevice m.xg3.x2.mn1 m7\ndevice m.xg3.x2.mn2 m8\nnet q q\nnet sn sn\nnet vdd vdd\nnet qn qn\nnet xg3.x1.x k1\nnet 0 0\nnet rn rn\nnet xg3.x2.x k2\nend\n",
        report: "round 0\ncell nand2 ports 3 instances 2 chosen 2\n1 xg1 a=sn b=qn y=q | mp1=m1 mp2=m2 mn1=m3 mn2=m4\n2 xg2 a=rn b=q y=qn | mp1=m5 mp2=m6 mn1=m7 mn2=m8\nround 1\ncell latch ports 4 instances 2 chosen 1\n1 xg3 s=sn r=rn q=q qb=qn | x1=xg1 x2=xg2\n2 over xg3 s=rn r=sn q=qn qb=q | x1=xg2 x2=xg1\nleft 0\nend\n",
    },
    // halves that differ by one exchanged transistor
    Row {
        deck: "latch of two sizes\n.global vdd\n.model nch nmos\n.model pch pmos\nm1 q sn vdd vdd pch w=2u\nm2 q qn vdd vdd pch w=2u\nm3 q sn k1 0 nch w=3u\nm4 k1 qn 0 0 nch w=3u\nm5 qn rn vdd vdd pch w=2u\nm6 qn q vdd vdd pch w=2u\nm7 k2 rn qn 0 nch w=3u\nm8 k2 q 0 0 nch w=3u\n.end\n",
        library: LATCH,
        globals: "",
        options: "",
        lifted: "latch of two sizes\n.global vdd\n.model nch nmos\n.model pch pmos\n.subckt nand2_v1 a b y\nmp1 y a vdd vdd pch w=2u\nmp2 y b vdd vdd pch w=2u\nmn1 y a x 0 nch w=3u\nmn2 x b 0 0 nch w=3u\n.ends nand2_v1\n.subckt nand2_v2 a b y\nmp1 y a vdd vdd pch w=2u\nmp2 y b vdd vdd pch w=2u\nmn1 x a y 0 nch w=3u\nmn2 x b 0 0 nch w=3u\n.ends nand2_v2\n.subckt latch_v1 s r q qb\nx1 s qb q nand2_v1\nx2 r q qb nand2_v2\n.ends latch_v1\nxg3 sn rn q qn latch_v1\n.end\n",
        map: "gatelift map 1\ndevice m.xg3.x1.mp1 m1\ndevice m.xg3.x1.mp2 m2\ndevice m.xg3.x1.mn1 m3\ndevice m.xg3.x1.mn2 m4\ndevice m.xg3.x2.mp1 m5\ndevice m.xg3.x2.mp2 m6\ndevice m.xg3.x2.mn1 m7\ndevice m.xg3.x2.mn2 m8\nnet q q\nnet sn sn\nnet vdd vdd\nnet qn qn\nnet xg3.x1.x k1\nnet 0 0\nnet rn rn\nnet xg3.x2.x k2\nend\n",
        report: "round 0\ncell nand2 ports 3 instances 2 chosen 2\n1 xg1 a=sn b=qn y=q | mp1=m1 mp2=m2 mn1=m3 mn2=m4\n2 xg2 a=rn b=q y=qn | mp1=m5 mp2=m6 mn1=m7 mn2=m8\nround 1\ncell latch ports 4 instances 2 chosen 1\n1 xg3 s=sn r=rn q=q qb=qn | x1=xg1 x2=xg2\n2 over xg3 s=rn r=sn q=qn qb=q | x1=xg2 x2=xg1\nleft 0\nend\n",
    },
    // three levels, whose inner nets lie one in the other, of two sizes
    Row {
        deck: "four in a row\n.global vdd\n.model nch nmos\n.model pch pmos\nm1 b a vdd vdd pch w=1u\nm2 b a 0 0 nch w=1u\nm3 c b vdd vdd pch w=1u\nm4 c b 0 0 nch w=1u\nm5 d c vdd vdd pch w=2u\nm6 d c 0 0 nch w=2u\nm7 e d vdd vdd pch w=2u\nm8 e d 0 0 nch w=2u\n.end\n",
        library: QUAD,
        globals: "",
        options: "",
        lifted: "four in a row\n.global vdd\n.model nch nmos\n.model pch pmos\n.subckt inv_v1 a y\nmp y a vdd vdd pch w=1u\nmn y a 0 0 nch w=1u\n.ends inv_v1\n.subckt inv_v2 a y\nmp y a vdd vdd pch w=2u\nmn y a 0 0 nch w=2u\n.ends inv_v2\n.subckt buf_v1 a y\nx1 a n inv_v1\nx2 n y inv_v1\n.ends buf_v1\n.subckt buf_v2 a y\nx1 a n inv_v2\nx2 n y inv_v2\n.ends buf_v2\n.subckt quad_v1 a y\nx1 a n buf_v1\nx2 n y buf_v2\n.ends quad_v1\nxg7 a e quad_v1\n.end\n",
        map: "gatelift map 1\ndevice m.xg7.x1.x1.mp m1\ndevice m.xg7.x1.x1.mn m2\ndevice m.xg7.x1.x2.mp m3\ndevice m.xg7.x1.x2.mn m4\ndevice m.xg7.x2.x1.mp m5\ndevice m.xg7.x2.x1.mn m6\ndevice m.xg7.x2.x2.mp m7\ndevice m.xg7.x2.x2.mn m8\nnet xg7.x1.n b\nnet a a\nnet vdd vdd\nnet 0 0\nnet xg7.n c\nnet xg7.x2.n d\nnet e e\nend\n",
        report: "round 0\ncell inv ports 2 instances 4 chosen 4\n1 xg1 a=a y=b | mp=m1 mn=m2\n2 xg2 a=b y=c | mp=m3 mn=m4\n3 xg3 a=c y=d | mp=m5 mn=m6\n4 xg4 a=d y=e | mp=m7 mn=m8\nround 1\ncell buf ports 2 instances 3 chosen 2\n1 xg5 a=a y=c | x1=xg1 x2=xg2\n2 over xg5 a=b y=d | x1=xg2 x2=xg3\n3 xg6 a=c y=e | x1=xg3 x2=xg4\nround 2\ncell quad ports 2 instances 1 chosen 1\n1 xg7 a=a y=e | x1=xg5 x2=xg6\nleft 0\nend\n",
    },
    // one size: the variants are one
    Row {
        deck: "four of one size\n.global vdd\n.model nch nmos\n.model pch pmos\nm1 b a vdd vdd pch\nm2 b a 0 0 nch\nm3 c b vdd vdd pch\nm4 c b 0 0 nch\nm5 d c vdd vdd pch\nm6 d c 0 0 nch\nm7 e d vdd vdd pch\nm8 e d 0 0 nch\n.end\n",
        library: QUAD,
        globals: "",
        options: "",
        lifted: "four of one size\n.global vdd\n.model nch nmos\n.model pch pmos\n.subckt inv_v1 a y\nmp y a vdd vdd pch\nmn y a 0 0 nch\n.ends inv_v1\n.subckt buf_v1 a y\nx1 a n inv_v1\nx2 n y inv_v1\n.ends buf_v1\n.subckt quad_v1 a y\nx1 a n buf_v1\nx2 n y buf_v1\n.ends quad_v1\nxg7 a e quad_v1\n.end\n",
        map: "gatelift map 1\ndevice m.xg7.x1.x1.mp m1\ndevice m.xg7.x1.x1.mn m2\ndevice m.xg7.x1.x2.mp m3\ndevice m.xg7.x1.x2.mn m4\ndevice m.xg7.x2.x1.mp m5\ndevice m.xg7.x2.x1.mn m6\ndevice m.xg7.x2.x2.mp m7\ndevice m.xg7.x2.x2.mn m8\nnet xg7.x1.n b\nnet a a\nnet vdd vdd\nnet 0 0\nnet xg7.n c\nnet xg7.x2.n d\nnet e e\nend\n",
        report: "round 0\ncell inv ports 2 instances 4 chosen 4\n1 xg1 a=a y=b | mp=m1 mn=m2\n2 xg2 a=b y=c | mp=m3 mn=m4\n3 xg3 a=c y=d | mp=m5 mn=m6\n4 xg4 a=d y=e | mp=m7 mn=m8\nround 1\ncell buf ports 2 instances 3 chosen 2\n1 xg5 a=a y=c | x1=xg1 x2=xg2\n2 over xg5 a=b y=d | x1=xg2 x2=xg3\n3 xg6 a=c y=e | x1=xg3 x2=xg4\nround 2\ncell quad ports 2 instances 1 chosen 1\n1 xg7 a=a y=e | x1=xg5 x2=xg6\nleft 0\nend\n",
    },
    // the second half alone differs
    Row {
        deck: "two buffers\n.global vdd\n.model nch nmos\n.model pch pmos\nm1 b a vdd vdd pch\nm2 b a 0 0 nch\nm3 c b vdd vdd pch\nm4 c b 0 0 nch\nm5 e d vdd vdd pch\nm6 e d 0 0 nch\nm7 f e vdd vdd pch\nm8 f e 0 0 nch w=2u\n.end\n",
        library: BUF,
        globals: "",
        options: "",
        lifted: "two buffers\n.global vdd\n.model nch nmos\n.model pch pmos\n.subckt inv_v1 a y\nmp y a vdd vdd pch\nmn y a 0 0 nch\n.ends inv_v1\n.subckt inv_v2 a y\nmp y a vdd vdd pch\nmn y a 0 0 nch w=2u\n.ends inv_v2\n.subckt buf_v1 a y\nx1 a n inv_v1\nx2 n y inv_v1\n.ends buf_v1\n.subckt buf_v2 a y\nx1 a n inv_v1\nx2 n y inv_v2\n.ends buf_v2\nxg5 a c buf_v1\nxg6 d f buf_v2\n.end\n",
        map: "gatelift map 1\ndevice m.xg5.x1.mp m1\ndevice m.xg5.x1.mn m2\ndevice m.xg5.x2.mp m3\ndevice m.xg5.x2.mn m4\ndevice m.xg6.x1.mp m5\ndevice m.xg6.x1.mn m6\ndevice m.xg6.x2.mp m7\ndevice m.xg6.x2.mn m8\nnet xg5.n b\nnet a a\nnet vdd vdd\nnet 0 0\nnet c c\nnet xg6.n e\nnet d d\nnet f f\nend\n",
        report: "round 0\ncell inv ports 2 instances 4 chosen 4\n1 xg1 a=a y=b | mp=m1 mn=m2\n2 xg2 a=b y=c | mp=m3 mn=m4\n3 xg3 a=d y=e | mp=m5 mn=m6\n4 xg4 a=e y=f | mp=m7 mn=m8\nround 1\ncell buf ports 2 instances 2 chosen 2\n1 xg5 a=a y=c | x1=xg1 x2=xg2\n2 xg6 a=d y=f | x1=xg3 x2=xg4\nleft 0\nend\n",
    },
    // a device and an X card in one cell
    Row {
        deck: "slow\n.global vdd\n.model nch nmos\n.model pch pmos\nm1 n in vdd vdd pch\nm2 n in 0 0 nch\nr1 out n 1k tc=1\nr2 in out 2k\n.end\n",
        library: ".global vdd\n.subckt inv a y\nmp y a vdd vdd pch\nmn y a 0 0 nch\n.ends\n.subckt slow a y\nx1 a n inv\nr1 n y\n.ends\n",
        globals: "",
        options: "",
        lifted: "slow\n.global vdd\n.model nch nmos\n.model pch pmos\n.subckt inv_v1 a y\nmp y a vdd vdd pch\nmn y a 0 0 nch\n.ends inv_v1\n.subckt slow_v1 a y\nx1 a n inv_v1\nr1 y n 1k tc=1\n.ends slow_v1\nxg2 in out slow_v1\nr2 in out 2k\n.end\n",
        map: "gatelift map 1\ndevice m.xg2.x1.mp m1\ndevice m.xg2.x1.mn m2\ndevice r.xg2.r1 r1\ndevice r2 r2\nnet xg2.n n\nnet in in\nnet vdd vdd\nnet 0 0\nnet out out\nend\n",
        report: "round 0\ncell inv ports 2 instances 1 chosen 1\n1 xg1 a=in y=n | mp=m1 mn=m2\nround 1\ncell slow ports 2 instances 1 chosen 1\n1 xg2 a=in y=out | x1=xg1 r1=r1\nleft 1\nend\n",
    },
    // parts of a cell that cross: the second level takes what the first left
    Row {
        deck: "crossed\n.global vdd\n.model nch nmos\n.model pch pmos\nm1 b a vdd vdd pch\nm2 b a 0 0 nch\nm3 c b vdd vdd pch\nm4 c b 0 0 nch\nm5 d c vdd vdd pch\nm6 d c 0 0 nch\n.end\n",
        library: BUF,
        globals: "",
        options: "",
        lifted: "crossed\n.global vdd\n.model nch nmos\n.model pch pmos\n.subckt inv_v1 a y\nmp y a vdd vdd pch\nmn y a 0 0 nch\n.ends inv_v1\n.subckt buf_v1 a y\nx1 a n inv_v1\nx2 n y inv_v1\n.ends buf_v1\nxg4 a c buf_v1\nxg3 c d inv_v1\n.end\n",
        map: "gatelift map 1\ndevice m.xg4.x1.mp m1\ndevice m.xg4.x1.mn m2\ndevice m.xg4.x2.mp m3\ndevice m.xg4.x2.mn m4\ndevice m.xg3.mp m5\ndevice m.xg3.mn m6\nnet xg4.n b\nnet a a\nnet vdd vdd\nnet 0 0\nnet c c\nnet d d\nend\n",
        report: "round 0\ncell inv ports 2 instances 3 chosen 3\n1 xg1 a=a y=b | mp=m1 mn=m2\n2 xg2 a=b y=c | mp=m3 mn=m4\n3 xg3 a=c y=d | mp=m5 mn=m6\nround 1\ncell buf ports 2 instances 2 chosen 1\n1 xg4 a=a y=c | x1=xg1 x2=xg2\n2 over xg4 a=b y=d | x1=xg2 x2=xg3\nleft 0\nend\n",
    },
];

#[test]
fn levels(rt: HostRuntime) -> Result<(), Memory> {
    for row in ROWS {
        is_lifted(&rt, rt.alloc(), row)?;
    }
    Ok(())
}
