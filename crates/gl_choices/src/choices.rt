//! Choices worked out by hand.
ghost use Rattle.std.specs.Prelude.{◌≡◌, ◌≤◌, ◌<◌, ◌*◌, All, IfOk, List, length};
ghost use Rattle.std.specs.List.{sum_by};
ghost use Rattle.gl_match.specs.Listing.{Instance as Item};

use gl_cover::{Pick, choose};
use gl_legal::{CellList, DevId, InstKey, Instance};
use std::alloc::Global;
use std::fmt::Write;
use std::process::Abort;
use std::test::Fail;

/// The devices of the instances, list by list, and the picks that are wanted: `taken` with the number of a chosen one,
/// `over` with the number of one that meets it, each list ended by `;`.
#[derive(Clone, Copy)]
struct Row {
    name: &'static str,
    lists: &'static [&'static [&'static [u32]]],
    first: u32,
    wanted: &'static str,
}

/// How many devices the circuit of each row has.
const DEVICES: u32 = 6;

fn instance(rt: &impl Abort, alloc: Global, given: &[u32]) -> Result<Instance, Fail>
    ensures below { IfOk result (λ i. All (λ dev. dev < 6) i.key.set) }
{
    let mut set = Vec::new(alloc);
    for dev in given {
        assert!(rt; *dev < DEVICES);
        set.push(DevId(*dev))?;
    }
    let binding = Vec::new(alloc);
    let least = Vec::new(alloc);
    Ok(Instance {
        key: InstKey { set, binding },
        least,
    })
}

fn list_of(rt: &impl Abort, alloc: Global, given: &[&[u32]]) -> Result<CellList, Fail>
    ensures below { IfOk result (λ list. All (λ i. All (λ dev. dev < 6) i.key.set) list) }
    ensures few { IfOk result (λ list. length list ≤ 8) }
{
    assert!(rt; given.len() <= 8);
    let mut items = Vec::new(alloc);
    for set in given {
        items.push(instance(rt, alloc, set)?)?;
    }
    Ok(CellList { items })
}

fn lists_of(rt: &impl Abort, alloc: Global, given: &[&[&[u32]]]) -> Result<Vec<CellList>, Fail>
    ensures below { IfOk result (λ v. All (λ list. All (λ i. All (λ dev. dev < 6) i.key.set) list) v.items) }
    ensures few { IfOk result (λ v. sum_by (λ (list : List Item). length list) v.items ≤ 64) }
{
    assert!(rt; given.len() <= 8);
    let mut lists = Vec::new(alloc);
    for sets in given {
        lists.push(list_of(rt, alloc, sets)?)?;
    }
    Ok(lists)
}

fn text_of(alloc: Global, picks: &[Vec<Pick>]) -> Result<String, Fail> {
    let mut text = String::new(alloc);
    for list in picks {
        for pick in list {
            match pick {
                Pick::Taken(number) => write!(text, "taken {number} ")?,
                Pick::Over(number) => write!(text, "over {number} ")?,
            }
        }
        write!(text, "; ")?;
    }
    Ok(text)
}

const ROWS: [Row; 12] = [
    Row {
        name: "an inverter before a gate that holds its transistor",
        lists: &[&[&[0, 4]], &[&[0, 1, 2, 3]]],
        first: 1,
        wanted: "taken 1 ; over 1 ; ",
    },
    Row {
        name: "the gate before the inverter",
        lists: &[&[&[0, 1, 2, 3]], &[&[0, 4]]],
        first: 1,
        wanted: "taken 1 ; over 1 ; ",
    },
    Row {
        name: "no lists",
        lists: &[],
        first: 1,
        wanted: "",
    },
    Row {
        name: "lists of no instances",
        lists: &[&[], &[&[0, 1]], &[]],
        first: 1,
        wanted: "; taken 1 ; ; ",
    },
    Row {
        name: "numbers run on over the lists",
        lists: &[&[&[0, 1]], &[&[2, 3], &[4, 5]]],
        first: 1,
        wanted: "taken 1 ; taken 2 taken 3 ; ",
    },
    Row {
        name: "over two chosen ones, the lower one first",
        lists: &[&[&[0, 1], &[2, 3]], &[&[1, 2]]],
        first: 1,
        wanted: "taken 1 taken 2 ; over 1 ; ",
    },
    Row {
        name: "over two chosen ones, the higher one first",
        lists: &[&[&[4, 5]], &[&[0, 1]], &[&[1, 4]]],
        first: 1,
        wanted: "taken 1 ; taken 2 ; over 1 ; ",
    },
    Row {
        name: "a chosen one behind it shares its last device",
        lists: &[&[&[0, 1], &[1, 2], &[2, 3]]],
        first: 1,
        wanted: "taken 1 over 1 taken 2 ; ",
    },
    Row {
        name: "one set with two bindings",
        lists: &[&[&[0, 1], &[0, 1]]],
        first: 1,
        wanted: "taken 1 over 1 ; ",
    },
    Row {
        name: "two lists that share all devices",
        lists: &[&[&[0, 1], &[2, 3]], &[&[0, 1], &[2, 3]]],
        first: 1,
        wanted: "taken 1 taken 2 ; over 1 over 2 ; ",
    },
    Row {
        name: "numbers from 7",
        lists: &[&[&[0], &[1]], &[&[1], &[2]]],
        first: 7,
        wanted: "taken 7 taken 8 ; over 8 taken 9 ; ",
    },
    Row {
        name: "the last device of the circuit is shared",
        lists: &[&[&[0, 5]], &[&[1, 5]]],
        first: 1,
        wanted: "taken 1 ; over 1 ; ",
    },
];

#[test]
fn instances_are_chosen(rt: HostRuntime) -> Result<(), Fail> {
    let alloc = rt.alloc();
    for row in &ROWS {
        let lists = lists_of(&rt, alloc, row.lists)?;
        assert!(rt; row.first < 100);
        let picks = choose(alloc, &lists, DEVICES, row.first)?;
        let text = text_of(alloc, &picks)?;
        assert_eq!(rt; text.as_str(), row.wanted, "{}", row.name);
    }
    Ok(())
}
