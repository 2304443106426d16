ghost use Rattle.std.specs.Prelude.{◌≡◌, IfOk};
ghost use Rattle.gl_lib.specs.Tables.{ArePartsSound, AreTablesOf, source_of};

use crate::kinds::Kinds;
use crate::names::rail_table;
use crate::parts::Parts;
use crate::words::{Words, words_of};
use gl_flat::Names;
use std::alloc::{AllocError, Global};

/// The tables in which names are looked up.
#[derive(Drop)]
pub struct Tables {
    /// The type words of models.
    pub words: Words,
    /// The types, by their numbers.
    pub kinds: Kinds,
    /// The rails, by their numbers; `0` is the first.
    pub rails: Names,
}

/// The tables of a base.
pub fn tables_of(alloc: Global, parts: &Parts) -> Result<Tables, AllocError>
    requires { ArePartsSound parts.now }
    ensures tables { IfOk result (AreTablesOf (source_of parts.now)) }
{
    let flat = parts.flat;
    let library = parts.library.deck();
    let words = words_of(alloc, flat.models(), library.models())?;
    let subs = library.subs().as_slice();
    let kinds = Kinds::of(alloc, &words, flat.devices(), subs)?;
    let rails = rail_table(alloc, flat.rails())?;
    Ok(Tables {
        words,
        kinds,
        rails,
    })
}
