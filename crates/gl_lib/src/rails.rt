ghost use Rattle.std.specs.Prelude.{◌≡◌, ◌≤◌, ◌+◌, not, filter, length, codes, IfOk};
ghost use Rattle.gl_text.specs.LogicalLines.{same_text};
ghost use Rattle.gl_base.specs.Rails.{run_rails as rails_of_run, AreRails};

use crate::names::add_names;
use gl_card::{Memory, Name};
use indexmap::IndexSet;
use std::alloc::{AllocError, Global};

/// The names of a set but `0`.
fn drop_zero(alloc: Global, names: IndexSet<Name>) -> Result<Vec<Name>, AllocError>
    ensures names { IfOk result (λ rails. rails.items ≡ filter (λ name. not (same_text name (codes "0"))) names.keys) }
{
    names
        .into_iter()
        .filter(|name| name.as_bytes() != b"0".as_slice())
        .collect(alloc)
}

/// The rails of a run but `0`: the deck's globals, and then those of the library that are not there yet.
pub fn run_rails(
    alloc: Global,
    deck_globals: &[Name],
    library_globals: &[Name],
) -> Result<Vec<Name>, Memory>
    ensures rails { IfOk result (λ rails. rails.items ≡ rails_of_run deck_globals.now library_globals.now) }
    ensures differ { IfOk result (λ rails. AreRails rails.items) }
    ensures few { IfOk result (λ rails. length rails.items ≤ length deck_globals.now + length library_globals.now) }
{
    let mut names = IndexSet::new(alloc);
    add_names(alloc, &mut names, deck_globals)?;
    add_names(alloc, &mut names, library_globals)?;
    let rails = drop_zero(alloc, names)?;
    Ok(rails)
}
