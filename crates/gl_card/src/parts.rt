ghost use Rattle.std.specs.Prelude.{◌≡◌, ◌<◌, ◌≤◌, IfOk, [], length, map, take, drop};
ghost use Rattle.gl_text.specs.Cards as cards;
ghost use Rattle.gl_line.specs.Fields.{piece_of};
ghost use Rattle.gl_card.specs.Kinds.{shown};

use crate::slices::behind;
use gl_line::{Field, Memory, Name};
use std::alloc::Global;

/// The name of the first field.
pub fn first_name(alloc: Global, fields: &[Field<'_>]) -> Result<Name, Memory>
    requires some { 0 < length fields.now }
    ensures name { IfOk result (λ name. name ≡ cards.first_or [] (shown fields.now)) }
{
    Name::folded(alloc, fields[0].bytes)
}

/// The name of the first field, if there is one.
pub fn given_name(alloc: Global, fields: &[Field<'_>]) -> Result<Option<Name>, Memory>
    ensures name { IfOk result (λ name. name ≡ cards.front (shown fields.now)) }
{
    match fields {
        [] => Ok(None),
        [first, ..] => Ok(Some(Name::folded(alloc, first.bytes)?)),
    }
}

/// The name of the last field.
pub fn last_name(alloc: Global, fields: &[Field<'_>]) -> Result<Name, Memory>
    requires some { 0 < length fields.now }
    ensures name { IfOk result (λ name. name ≡ cards.last_name (shown fields.now)) }
{
    Name::folded(alloc, fields[fields.len() - 1].bytes)
}

/// All names but the last.
pub fn but_last(names: &[Name]) -> &[Name]
    ensures names { result.now ≡ cards.but_last names.now }
{
    match names {
        [] => &[],
        [before @ .., _] => before,
    }
}

/// The last of some names.
#[tactic(auto, using(crate::proofs::PartLaws::last_at))]
pub fn last(names: &[Name]) -> &Name
    requires some { 0 < length names.now }
    ensures name { result.now ≡ cards.last_name names.now }
{
    &names[names.len() - 1]
}

/// The text behind field number `count`, counted from 1.
pub fn text_behind<'a>(text: &'a [u8], fields: &[Field<'_>], count: usize) -> &'a [u8]
    requires counted { 0 < count }
    requires within { count ≤ length fields.now }
    ensures behind { result.now ≡ cards.behind count (map (piece_of text.now) fields.now) }
{
    let last = fields[count - 1];
    behind(text, last.start as usize + last.bytes.len())
}
