//! Kept names that are no nets.
ghost use Rattle.std.specs.Prelude.{◌≡◌, not, find, None, OnOk, IfErr};
ghost use Rattle.std.specs.Option.{option_copied};
ghost use Rattle.gl_text.specs.Decks.{is_in};
ghost use Rattle.gl_fault.specs.Refusals.{IsFound};
ghost use Rattle.gl_base.specs.Keeping.{unknown_keep};
ghost use Rattle.gl_base.specs.Rounds.{source_of};
ghost use Rattle.gl_lib.specs.Kept.{unknown_of};

use crate::fault::KeepFault;
use gl_card::Name;
use gl_cells::Library;
use gl_flat::{Flat, Names};
use std::alloc::Global;

/// The first of some names that is not among the nets.
fn first_unknown<'a>(nets: &Names, keep: &'a [Name]) -> Option<&'a Name>
    ensures unknown { option_copied result ≡ find (λ name. not (is_in name nets.now)) keep.now }
{
    keep.iter().find(|name| !nets.has(name))
}

/// Refuses the first of some names that is not among the nets.
fn refuse_unknown(alloc: Global, nets: &Names, keep: &[Name]) -> Result<(), KeepFault>
    ensures known { OnOk result (find (λ name. not (is_in name nets.now)) keep.now ≡ None) }
    ensures first { IfErr result (λ fault. IsFound (unknown_of fault) (find (λ name. not (is_in name nets.now)) keep.now)) }
{
    let Some(unknown) = first_unknown(nets, keep) else {
        return Ok(());
    };
    let name = Name::of(alloc, unknown.as_bytes())?;
    Err(KeepFault::UnknownKeep { name })
}

/// Refuses the first of some names that is no net of a device of a flat deck.
pub fn refuse_unkept(
    alloc: Global,
    flat: &Flat,
    library: &Library,
    keep: &[Name],
) -> Result<(), KeepFault>
    ensures known { OnOk result (unknown_keep keep.now (source_of flat.now library.now) ≡ None) }
    ensures refused { IfErr result (λ fault. IsFound (unknown_of fault)
        (unknown_keep keep.now (source_of flat.now library.now))) }
{
    let _ = library;
    refuse_unknown(alloc, flat.nets(), keep)
}
