//! What is done for a line.
ghost use Rattle.std.specs.Prelude.{◌≤◌, IfOk};

use crate::making::{MOST, Plan, circuit_of};
use anyhow::bail;
use gl_graph::Circuit;
use gl_label::Labels;
use std::alloc::Global;

/// The kind of circuit that a word names.
fn plan_of(word: &str) -> anyhow::Result<Plan> {
    match word {
        "gates" => Ok(Plan::Gates),
        "ring" => Ok(Plan::Ring),
        "chain" => Ok(Plan::Chain),
        _ => bail!("no circuit of this kind"),
    }
}

/// How many different labels there are at a depth of at most 16.
fn classes_at(alloc: Global, c: &Circuit, depth: u32) -> anyhow::Result<usize> {
    if depth > 16 {
        bail!("a depth is at most 16");
    }
    let labels = Labels::refine(alloc, c, depth)?;
    Ok(labels.level(depth).signs().len())
}

/// What is said of a circuit: its devices and nets, and its different labels at a depth, if there is one.
fn said_of(alloc: Global, c: &Circuit, depth: &str) -> anyhow::Result<String> {
    let (devices, nets) = (c.devices(), c.nets());
    if depth == "none" {
        return Ok(format!(in alloc; "devices {devices} nets {nets}")?);
    }
    let classes = classes_at(alloc, c, depth.parse()?)?;
    Ok(format!(in alloc; "devices {devices} nets {nets} classes {classes}")?)
}

/// A line is done.
pub fn task_line(alloc: Global, line: &str) -> anyhow::Result<String> {
    let mut words = line.split_whitespace();
    let (Some(plan), Some(count), Some(depth)) = (words.next(), words.next(), words.next()) else {
        bail!("a line has three words");
    };
    let plan = plan_of(plan)?;
    let count: u32 = count.parse()?;
    if count > MOST {
        bail!("a circuit has at most 1,000,000 transistors");
    }
    let c = circuit_of(alloc, plan, count)?;
    said_of(alloc, &c, depth)
}
