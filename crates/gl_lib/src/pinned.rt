//! The nets that no cell may take as inner nets: those of the ports of a top, and those that are kept.
ghost use Rattle.std.specs.Prelude.{◌≡◌, ◌++◌, filter_map, position, IfOk};
ghost use Rattle.std.specs.Option.{option_copied};
ghost use Rattle.gl_text.specs.LogicalLines.{same_text};
ghost use Rattle.gl_text.specs.Decks.{once};
ghost use Rattle.gl_text.specs.Flattening.{top_ports};
ghost use Rattle.gl_lifting.specs.Runs.{run_of, first_circuit};

use crate::names::add_names;
use crate::parts::Parts;
use gl_card::{Head, Name};
use gl_flat::Names;
use gl_graph::NetId;
use indexmap::IndexSet;
use std::alloc::{AllocError, Global};

/// The ports of a top; none where there is no top.
fn ports_of(top: Option<&Head>) -> &[Name]
    ensures ports { result.now ≡ top_ports (option_copied top.entry) }
{
    match top {
        Some(head) => head.ports(),
        None => &[],
    }
}

/// The ports of a top and then the kept names, each once.
fn pinned_names(
    alloc: Global,
    top: Option<&Head>,
    keep: &[Name],
) -> Result<IndexSet<Name>, AllocError>
    ensures names { IfOk result (λ names. names.keys ≡ once (top_ports (option_copied top.entry) ++ keep.now)) }
{
    let mut names = IndexSet::new(alloc);
    add_names(alloc, &mut names, ports_of(top))?;
    add_names(alloc, &mut names, keep)?;
    Ok(names)
}

/// The nets of names, but of those that stand on no device.
fn nets_among(alloc: Global, names: &[Name], nets: &Names) -> Result<Vec<NetId>, AllocError>
    ensures nets { IfOk result (λ found. found.items ≡ filter_map (λ name. position (same_text name) nets.now) names.now) }
{
    names
        .iter()
        .filter_map(|name| nets.find(name).map(|net| NetId(net)))
        .collect(alloc)
}

/// The nets of the ports of a top and then those of the kept names, each once, but of names that stand on no device.
fn pinned_nets(
    alloc: Global,
    top: Option<&Head>,
    keep: &[Name],
    nets: &Names,
) -> Result<Vec<NetId>, AllocError>
    ensures pinned { IfOk result (λ pinned. pinned.items ≡ filter_map (λ name. position (same_text name) nets.now) (once (top_ports (option_copied top.entry) ++ keep.now))) }
{
    let names = pinned_names(alloc, top, keep)?;
    nets_among(alloc, names.as_slice(), nets)
}

/// The pinned nets of a run's first circuit.
pub fn run_pins(alloc: Global, parts: &Parts, keep: &[Name]) -> Result<Vec<NetId>, AllocError>
    ensures pins { IfOk result (λ pins. pins.items
        ≡ (first_circuit (run_of parts.now.flat.now parts.now.library.now keep.now)).pinned) }
{
    let flat = parts.flat;
    let pins = pinned_nets(alloc, flat.top(), keep, flat.nets())?;
    Ok(pins)
}
