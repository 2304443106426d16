//! Reports of several rounds through the top call.

use crate::reports::lifted;
use gl_desk::Memory;
use std::alloc::Global;
use std::process::Abort;

/// What a deck's cards and a library are, and the report of them.
const ROUNDS: [(&str, &str, &str); 13] = [
    // two levels, and two instances of the second, one over the other
    (
        "m1 q sn vdd vdd pch\nm2 q qn vdd vdd pch\nm3 q sn k1 0 nch\nm4 k1 qn 0 0 nch\nm5 qn rn vdd vdd pch\nm6 qn q vdd vdd pch\nm7 qn rn k2 0 nch\nm8 k2 q 0 0 nch\n",
        ".global vdd\n.subckt nand2 a b y\nmp1 y a vdd vdd pch\nmp2 y b vdd vdd pch\nmn1 y a x 0 nch\nmn2 x b 0 0 nch\n.ends\n.subckt latch s r q qb\nx1 s qb q nand2\nx2 r q qb nand2\n.ends\n",
        "round 0\ncell nand2 ports 3 instances 2 chosen 2\n1 xg1 a=sn b=qn y=q | mp1=m1 mp2=m2 mn1=m3 mn2=m4\n2 xg2 a=rn b=q y=qn | mp1=m5 mp2=m6 mn1=m7 mn2=m8\nround 1\ncell latch ports 4 instances 2 chosen 1\n1 xg3 s=sn r=rn q=q qb=qn | x1=xg1 x2=xg2\n2 over xg3 s=rn r=sn q=qn qb=q | x1=xg2 x2=xg1\nleft 0\nend\n",
    ),
    // a round whose one cell is skipped
    (
        "m1 out in vdd vdd pch\nm2 out in 0 0 nch\n",
        ".global vdd\n.subckt fill v\n.ends\n.subckt odd a b\nr1 a 0 1\n.ends\n.subckt dbl v\nx1 v fill\n.ends\n.subckt inv a y\nmp y a vdd vdd pch\nmn y a 0 0 nch\n.ends\n",
        "round 0\ncell fill skipped empty\ncell odd skipped loose b\ncell inv ports 2 instances 1 chosen 1\n1 xg1 a=in y=out | mp=m1 mn=m2\nround 1\ncell dbl skipped uses fill\nleft 0\nend\n",
    ),
    // a buffer of two inverters
    (
        "m1 n in vdd vdd pch\nm2 n in 0 0 nch\nm3 out n vdd vdd pch\nm4 out n 0 0 nch\n",
        ".global vdd\n.subckt inv a y\nmp y a vdd vdd pch\nmn y a 0 0 nch\n.ends\n.subckt buf a y\nx1 a n inv\nx2 n y inv\n.ends\n",
        "round 0\ncell inv ports 2 instances 2 chosen 2\n1 xg1 a=in y=n | mp=m1 mn=m2\n2 xg2 a=n y=out | mp=m3 mn=m4\nround 1\ncell buf ports 2 instances 1 chosen 1\n1 xg3 a=in y=out | x1=xg1 x2=xg2\nleft 0\nend\n",
    ),
    // the same, called cell last
    (
        "m1 n in vdd vdd pch\nm2 n in 0 0 nch\nm3 out n vdd vdd pch\nm4 out n 0 0 nch\n",
        ".subckt buf a y\nx1 a n inv\nx2 n y inv\n.ends\n.global vdd\n.subckt inv a y\nmp y a vdd vdd pch\nmn y a 0 0 nch\n.ends\n",
        "round 0\ncell inv ports 2 instances 2 chosen 2\n1 xg1 a=in y=n | mp=m1 mn=m2\n2 xg2 a=n y=out | mp=m3 mn=m4\nround 1\ncell buf ports 2 instances 1 chosen 1\n1 xg3 a=in y=out | x1=xg1 x2=xg2\nleft 0\nend\n",
    ),
    // three levels, whose numbers run on
    (
        "m1 b a vdd vdd pch w=1u\nm2 b a 0 0 nch w=1u\nm3 c b vdd vdd pch w=1u\nm4 c b 0 0 nch w=1u\nm5 d c vdd vdd pch w=2u\nm6 d c 0 0 nch w=2u\nm7 e d vdd vdd pch w=2u\nm8 e d 0 0 nch w=2u\n",
        ".global vdd\n.subckt inv a y\nmp y a vdd vdd pch\nmn y a 0 0 nch\n.ends\n.subckt buf a y\nx1 a n inv\nx2 n y inv\n.ends\n.subckt quad a y\nx1 a n buf\nx2 n y buf\n.ends\n",
        "round 0\ncell inv ports 2 instances 4 chosen 4\n1 xg1 a=a y=b | mp=m1 mn=m2\n2 xg2 a=b y=c | mp=m3 mn=m4\n3 xg3 a=c y=d | mp=m5 mn=m6\n4 xg4 a=d y=e | mp=m7 mn=m8\nround 1\ncell buf ports 2 instances 3 chosen 2\n1 xg5 a=a y=c | x1=xg1 x2=xg2\n2 over xg5 a=b y=d | x1=xg2 x2=xg3\n3 xg6 a=c y=e | x1=xg3 x2=xg4\nround 2\ncell quad ports 2 instances 1 chosen 1\n1 xg7 a=a y=e | x1=xg5 x2=xg6\nleft 0\nend\n",
    ),
    // a device and an X card
    (
        "m1 n in vdd vdd pch\nm2 n in 0 0 nch\nr1 n out 1k\nr2 in out 1k\n",
        ".global vdd\n.subckt inv a y\nmp y a vdd vdd pch\nmn y a 0 0 nch\n.ends\n.subckt slow a y\nx1 a n inv\nr1 n y\n.ends\n",
        "round 0\ncell inv ports 2 instances 1 chosen 1\n1 xg1 a=in y=n | mp=m1 mn=m2\nround 1\ncell slow ports 2 instances 1 chosen 1\n1 xg2 a=in y=out | x1=xg1 r1=r1\nleft 1\nend\n",
    ),
    // a cell that is called twice, with its ports on the same nets
    (
        "l1 a b 1\nl2 a b 1\nl3 b a 1\n",
        ".subckt one p q\nl1 p q\n.ends\n.subckt twin p q\nx1 p q one\nx2 p q one\n.ends\n",
        "round 0\ncell one ports 2 instances 3 chosen 3\n1 xg1 p=a q=b | l1=l1\n2 xg2 p=a q=b | l1=l2\n3 xg3 p=b q=a | l1=l3\nround 1\ncell twin ports 2 instances 1 chosen 1\n1 xg4 p=a q=b | x1=xg1 x2=xg2\nleft 0\nend\n",
    ),
    // no instance has both its ports on one net
    (
        "r1 a b 1\nr2 a a 1\n",
        ".subckt one p q\nr1 p q\n.ends\n.subckt loop p\nx1 p p one\nx2 p p one\n.ends\n",
        "round 0\ncell one ports 2 instances 2 chosen 1\n1 xg1 p=a q=b | r1=r1\n2 over xg1 p=b q=a | r1=r1\nround 1\ncell loop ports 1 instances 0 chosen 0\nleft 1\nend\n",
    ),
    // a port of an instance on a rail
    (
        "r1 a 0 1\n",
        ".subckt one p q\nr1 p q\n.ends\n.subckt low a\nx1 a 0 one\n.ends\n.subckt high a\nx1 0 a one\n.ends\n",
        "round 0\ncell one ports 2 instances 2 chosen 1\n1 xg1 p=a q=0 | r1=r1\n2 over xg1 p=0 q=a | r1=r1\nround 1\ncell low ports 1 instances 1 chosen 1\n1 xg2 a=a | x1=xg1\ncell high ports 1 instances 0 chosen 0\nleft 0\nend\n",
    ),
    // what one round left over is none of the next one's devices
    (
        "m1 y a vdd vdd pch\nm2 y b vdd vdd pch\nm3 y a x 0 nch\nm4 x b 0 0 nch\nm5 y a 0 0 nch\n",
        ".global vdd\n.subckt inv a y\nmp y a vdd vdd pch\nmn y a 0 0 nch\n.ends\n.subckt nand2 a b y\nmp1 y a vdd vdd pch\nmp2 y b vdd vdd pch\nmn1 y a x 0 nch\nmn2 x b 0 0 nch\n.ends\n.subckt gate a b y\nx1 a b y nand2\n.ends\n",
        "round 0\ncell inv ports 2 instances 1 chosen 1\n1 xg1 a=a y=y | mp=m1 mn=m5\ncell nand2 ports 3 instances 1 chosen 0\n1 over xg1 a=a b=b y=y | mp1=m1 mp2=m2 mn1=m3 mn2=m4\nround 1\ncell gate ports 3 instances 0 chosen 0\nleft 3\nend\n",
    ),
    // a first level in which nothing is found
    (
        "r1 a b 1\n",
        ".subckt cap p q\nc1 p q\n.ends\n.subckt rc p q r\nx1 p q cap\nr1 q r\n.ends\n",
        "round 0\ncell cap ports 2 instances 0 chosen 0\nround 1\ncell rc ports 3 instances 0 chosen 0\nleft 1\nend\n",
    ),
    // a cell named as a letter is no type of that letter
    (
        "r1 a b 1\nc1 b c 1\n",
        ".subckt r p q\nc1 p q\n.ends\n.subckt pair p q s\nr1 p q\nx1 q s r\n.ends\n.subckt both p q s\nx1 p q r\nx2 q s r\n.ends\n",
        "round 0\ncell r ports 2 instances 2 chosen 1\n1 xg1 p=b q=c | c1=c1\n2 over xg1 p=c q=b | c1=c1\nround 1\ncell pair ports 3 instances 1 chosen 1\n1 xg2 p=a q=b s=c | r1=r1 x1=xg1\ncell both ports 3 instances 0 chosen 0\nleft 0\nend\n",
    ),
    // no cells
    ("r1 a b 1\n", ".model nch nmos\n", "left 1\nend\n"),
];

/// Sixteen levels: each cell but the first calls the one below, beside a resistor of its own.
const CHAIN: (&str, &str, &str) = (
    "c1 n0 n1 1\nr1 n0 n1 1\nr2 n1 n2 1\nr3 n2 n3 1\nr4 n3 n4 1\nr5 n4 n5 1\nr6 n5 n6 1\nr7 n6 n7 1\nr8 n7 n8 1\nr9 n8 n9 1\nr10 n9 n10 1\nr11 n10 n11 1\nr12 n11 n12 1\nr13 n12 n13 1\nr14 n13 n14 1\nr15 n14 n15 1\nr16 n15 n16 1\n",
    ".subckt c0 p q\nr1 p q\nc1 p q\n.ends\n.subckt c1 p q\nx1 p m c0\nr1 m q\n.ends\n.subckt c2 p q\nx1 p m c1\nr1 m q\n.ends\n.subckt c3 p q\nx1 p m c2\nr1 m q\n.ends\n.subckt c4 p q\nx1 p m c3\nr1 m q\n.ends\n.subckt c5 p q\nx1 p m c4\nr1 m q\n.ends\n.subckt c6 p q\nx1 p m c5\nr1 m q\n.ends\n.subckt c7 p q\nx1 p m c6\nr1 m q\n.ends\n.subckt c8 p q\nx1 p m c7\nr1 m q\n.ends\n.subckt c9 p q\nx1 p m c8\nr1 m q\n.ends\n.subckt c10 p q\nx1 p m c9\nr1 m q\n.ends\n.subckt c11 p q\nx1 p m c10\nr1 m q\n.ends\n.subckt c12 p q\nx1 p m c11\nr1 m q\n.ends\n.subckt c13 p q\nx1 p m c12\nr1 m q\n.ends\n.subckt c14 p q\nx1 p m c13\nr1 m q\n.ends\n.subckt c15 p q\nx1 p m c14\nr1 m q\n.ends\n",
    "round 0\ncell c0 ports 2 instances 2 chosen 1\n1 xg1 p=n0 q=n1 | r1=r1 c1=c1\n2 over xg1 p=n1 q=n0 | r1=r1 c1=c1\nround 1\ncell c1 ports 2 instances 1 chosen 1\n1 xg2 p=n0 q=n2 | x1=xg1 r1=r2\nround 2\ncell c2 ports 2 instances 1 chosen 1\n1 xg3 p=n0 q=n3 | x1=xg2 r1=r3\nround 3\ncell c3 ports 2 instances 1 chosen 1\n1 xg4 p=n0 q=n4 | x1=xg3 r1=r4\nround 4\ncell c4 ports 2 instances 1 chosen 1\n1 xg5 p=n0 q=n5 | x1=xg4 r1=r5\nround 5\ncell c5 ports 2 instances 1 chosen 1\n1 xg6 p=n0 q=n6 | x1=xg5 r1=r6\nround 6\ncell c6 ports 2 instances 1 chosen 1\n1 xg7 p=n0 q=n7 | x1=xg6 r1=r7\nround 7\ncell c7 ports 2 instances 1 chosen 1\n1 xg8 p=n0 q=n8 | x1=xg7 r1=r8\nround 8\ncell c8 ports 2 instances 1 chosen 1\n1 xg9 p=n0 q=n9 | x1=xg8 r1=r9\nround 9\ncell c9 ports 2 instances 1 chosen 1\n1 xg10 p=n0 q=n10 | x1=xg9 r1=r10\nround 10\ncell c10 ports 2 instances 1 chosen 1\n1 xg11 p=n0 q=n11 | x1=xg10 r1=r11\nround 11\ncell c11 ports 2 instances 1 chosen 1\n1 xg12 p=n0 q=n12 | x1=xg11 r1=r12\nround 12\ncell c12 ports 2 instances 1 chosen 1\n1 xg13 p=n0 q=n13 | x1=xg12 r1=r13\nround 13\ncell c13 ports 2 instances 1 chosen 1\n1 xg14 p=n0 q=n14 | x1=xg13 r1=r14\nround 14\ncell c14 ports 2 instances 1 chosen 1\n1 xg15 p=n0 q=n15 | x1=xg14 r1=r15\nround 15\ncell c15 ports 2 instances 1 chosen 1\n1 xg16 p=n0 q=n16 | x1=xg15 r1=r16\nleft 0\nend\n",
);

/// The report of a deck and a library is the wanted one.
fn is_reported(rt: &impl Abort, alloc: Global, row: (&str, &str, &str)) -> Result<(), Memory> {
    let (cards, library, report) = row;
    let found = lifted(alloc, cards, library)?;
    let mut wanted = String::from_str(alloc, "0[")?;
    wanted.push_str(report)?;
    wanted.push_str("][]")?;
    assert!(rt; found.as_slice() == wanted.as_bytes());
    Ok(())
}

#[test]
fn rounds(rt: HostRuntime) -> Result<(), Memory> {
    for row in ROUNDS {
        is_reported(&rt, rt.alloc(), row)?;
    }
    Ok(())
}

#[test]
fn sixteen_levels(rt: HostRuntime) -> Result<(), Memory> {
    is_reported(&rt, rt.alloc(), CHAIN)
}

#[test]
fn seventeen_levels(rt: HostRuntime) -> Result<(), Memory> {
    let alloc = rt.alloc();
    let mut library = String::from_str(alloc, CHAIN.1)?;
    library.push_str(".subckt c16 p q\nx1 p m c15\nr1 m q\n.ends\n")?;
    let found = lifted(alloc, CHAIN.0, &library)?;
    assert!(rt;
        found.as_slice()
            == b"3[none][gatelift: 3 library: 31 CellLimit cell=c16 what=Level number=16\n]".as_slice()
    );
    Ok(())
}
