//! Two rounds over four resistors in a row, worked out by hand.
ghost use Rattle.std.specs.Prelude.{IfOk};
ghost use Rattle.gl_graph.specs.FitCells.{IsForCircuit};

use gl_graph::{Circuit, NetId, Pattern, Role, TypeId};
use gl_history::{Cell, Lift, Lifted, Origin};
use gl_legal::fits;
use gl_listings::made::{devices_of, shapes_of};
use std::alloc::Global;
use std::fmt::Write;
use std::process::Abort;
use std::test::Fail;

/// The places of a resistor, of the cell `pair` and of the cell `four`.
const SHAPES: [&[u8]; 3] = [&[0, 0], &[0, 1], &[0, 1]];

/// A cell of two devices of a type in a row, between two ports.
fn cell_of(
    rt: &impl Abort,
    alloc: Global,
    c: &Circuit,
    parts: TypeId,
    level: u32,
    kind: TypeId,
) -> Result<Cell, Fail>
    ensures fit { IfOk result (λ cell. IsForCircuit c.now cell) }
{
    let shapes = shapes_of(alloc, &SHAPES)?;
    for shape in &shapes {
        assert!(rt; shape.classes().len() <= 8);
    }
    let devices = devices_of(alloc, &[(parts.0, &[0, 1]), (parts.0, &[1, 2])])?;
    let roles = vec![in alloc; Role::Port(0), Role::Inner, Role::Port(1)]?;
    let ports = vec![in alloc; NetId(0), NetId(2)]?;
    assert!(rt; shapes.len() <= 8);
    let pattern = Pattern::build(alloc, &shapes, 0, devices, roles, ports)?;
    assert!(rt; kind.0 < c.kinds() && fits(c, &pattern));
    assert!(rt; pattern.ports().len() == c.shape(kind).classes().len());
    Ok(Cell {
        pattern: Some(pattern),
        level,
        kind,
    })
}

/// How many instances are chosen; and the last circuit: each device's type, nets and origin.
fn text_of(alloc: Global, lifted: &Lifted) -> Result<String, Fail> {
    let mut text = String::new(alloc);
    write!(text, "{} chosen", lifted.chosen)?;
    for device in lifted.last.device_list() {
        write!(text, "; {}:", device.kind().0)?;
        for net in device.nets() {
            write!(text, " {}", net.0)?;
        }
    }
    for origin in &lifted.last_origins {
        match origin {
            Origin::Base(dev) => write!(text, " base {}", dev.0)?,
            Origin::Made(number) => write!(text, " made {number}")?,
        }
    }
    Ok(text)
}

#[test]
fn two_rounds(rt: HostRuntime) -> Result<(), Fail> {
    let alloc = rt.alloc();
    let devices = devices_of(
        alloc,
        &[(0, &[0, 1]), (0, &[1, 2]), (0, &[2, 3]), (0, &[3, 4])],
    )?;
    let shapes = shapes_of(alloc, &SHAPES)?;
    assert!(rt; shapes.len() <= 8);
    let base = Circuit::build(alloc, shapes, devices, 5, Vec::new(alloc), Vec::new(alloc))?;
    let skipped = Cell {
        pattern: None,
        level: 0,
        kind: TypeId(1),
    };
    assert!(rt; base.kinds() == 3);
    let pair = cell_of(&rt, alloc, &base, TypeId(0), 0, TypeId(1))?;
    let four = cell_of(&rt, alloc, &base, TypeId(1), 1, TypeId(2))?;
    let cells = vec![in alloc; skipped, pair, four]?;
    let lifted = Lift::run(alloc, base, &[], &cells)?;
    let text = text_of(alloc, &lifted)?;
    assert!(rt; text.as_str() == "3 chosen; 2: 0 4 made 3");
    Ok(())
}
