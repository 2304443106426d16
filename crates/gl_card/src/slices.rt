ghost use Rattle.std.specs.Prelude.{◌≡◌, ◌<◌, ◌^◌, IfOk, length, take, drop};
ghost use Rattle.gl_text.specs.Cards.{names_of};
ghost use Rattle.gl_card.specs.Kinds.{AreFields, kind_value, shown};

use crate::kind::Kind;
use gl_line::{Field, Name, fields};
use std::alloc::{AllocError, Global};

/// The first `count` items.
pub fn front<T>(items: &[T], count: usize) -> &[T]
    ensures front { result.now ≡ take count items.now }
{
    if count < items.len() {
        &items[..count]
    } else {
        items
    }
}

/// What is behind the first `count` items.
pub fn behind<T>(items: &[T], count: usize) -> &[T]
    ensures behind { result.now ≡ drop count items.now }
{
    if count < items.len() {
        &items[count..]
    } else {
        &[]
    }
}

/// For so many fields there is room before the first is found.
const MANY: usize = 16;

/// All fields of a text.
pub fn fields_in(alloc: Global, text: &[u8]) -> Result<Vec<Field<'_>>, AllocError>
    requires size { length text.now < 2 ^ 32 }
    ensures fields { IfOk result (λ found. AreFields text.now found.items) }
{
    let mut found = Vec::with_capacity(alloc, MANY)?;
    for field in fields(text) {
        found.push(field)?;
    }
    Ok(found)
}

/// The fields that are names.
pub fn names_in<'s, 'f>(kind: Kind, fields: &'s [Field<'f>]) -> &'s [Field<'f>]
    ensures names { shown result.now ≡ names_of (kind_value kind) (shown fields.now) }
{
    match kind {
        Kind::Device(letter) => front(fields, letter.fields()),
        Kind::Call => fields,
        Kind::Model => behind(front(fields, 3), 1),
        Kind::Ends => behind(front(fields, 2), 1),
        Kind::Subckt | Kind::Global => behind(fields, 1),
        _ => &[],
    }
}

/// The names that fields give, in order.
pub fn names(alloc: Global, fields: &[Field<'_>]) -> Result<Vec<Name>, AllocError>
    ensures names { IfOk result (λ names. names.items ≡ shown fields.now) }
{
    let mut names = Vec::with_capacity(alloc, fields.len())?;
    for field in fields {
        names.push(Name::folded(alloc, field.bytes)?)?;
    }
    Ok(names)
}
