ghost use Rattle.std.specs.Prelude.{◌≡◌, All, length, map, IfOk};
ghost use Rattle.std.specs.List.{AllZip};
ghost use Rattle.gl_match.specs.Graph.{FitsInto};
ghost use Rattle.gl_match.specs.Listing.{Listed};

use gl_graph::{Circuit, Pattern};
use gl_legal::{CellList, plain};
use gl_match::Memory;
use std::alloc::Global;

/// Patterns of one list, each by itself.
pub fn apart<'a>(alloc: Global, patterns: &'a [Pattern]) -> Result<Vec<&'a Pattern>, Memory>
    ensures same { IfOk result (λ ps. map (λ p. p.now) ps.items ≡ patterns.now) }
{
    let each = patterns.iter().collect(alloc)?;
    Ok(each)
}

/// The complete list of each of some patterns that stand apart, against the same circuit.
pub fn lists_among(
    alloc: Global,
    circuit: &Circuit,
    patterns: &[&Pattern],
) -> Result<Vec<CellList>, Memory>
    requires fit { All (FitsInto circuit.now) (map (λ p. p.now) patterns.now) }
    ensures complete { IfOk result (λ lists. AllZip (Listed circuit.now)
        (map (λ p. p.now) patterns.now) lists.items) }
{
    let mut lists = Vec::with_capacity(alloc, patterns.len())?;
    for pattern in patterns {
        lists.push(plain(alloc, circuit, pattern)?)?;
    }
    Ok(lists)
}
