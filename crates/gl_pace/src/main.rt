//! Makes large circuits and labels their vertices, so that this can be timed.
//!
//! Each line of the input is a kind of circuit (`gates`, `ring` or `chain`), a number of transistors and
//! a depth, or `none` in place of the depth, where the circuit is made alone.
#![tactic(auto)]

mod making;
mod task;

use crate::task::task_line;

fn main(rt: HostRuntime) -> anyhow::Result<()> {
    let alloc = rt.alloc();
    for line in rt.lines(alloc) {
        let text = task_line(alloc, line?.as_str())?;
        println!(rt; "{text}")?;
    }
    Ok(())
}
