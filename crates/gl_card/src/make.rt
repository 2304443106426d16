ghost use Rattle.std.specs.Prelude.{◌≡◌, ◌<◌, ◌≤◌, IfOk, [], length};
ghost use Rattle.gl_text.specs.Cards as cards;
ghost use Rattle.gl_card.specs.Kinds.{AreFields, IsLetteredField, card_from, count_of, kind_value, shown};
ghost use Rattle.gl_card.specs.Letters.{byte_of};
ghost use Rattle.gl_card.specs.declared.kind.Kind.TheVariants as kinds;
ghost use Rattle.gl_card.specs.Reading.{card_value};

use crate::kind::Kind;
use crate::parts::{first_name, given_name, last_name, text_behind};
use crate::slices::{behind, front, names, names_in};
use crate::{CallCard, Card, DevCard, Head, Letter, ModelCard};
use gl_line::{Field, Tail, trim_end};
use std::alloc::{AllocError, Global};

/// The device of a letter with these fields.
fn device(
    alloc: Global,
    letter: Letter,
    text: &[u8],
    fields: &[Field<'_>],
) -> Result<DevCard, AllocError>
    requires enough { count_of letter ≤ length fields.now }
    requires lettered { cards.first_byte (cards.first_or [] (shown fields.now)) ≡ byte_of letter }
    ensures card { IfOk result
        (λ d. cards.dev d ≡ card_from (kind_value (kinds.Device letter)) fields.now text.now) }
{
    Ok(DevCard {
        names: names(alloc, front(fields, letter.fields()))?,
        tail: Tail::normal(alloc, text_behind(text, fields, letter.fields()))?,
    })
}

/// The X card with these fields.
fn call(alloc: Global, text: &[u8], fields: &[Field<'_>]) -> Result<CallCard, AllocError>
    requires enough { 2 ≤ length fields.now }
    ensures card { IfOk result (λ c. cards.call c ≡ card_from cards.caller fields.now text.now) }
{
    Ok(CallCard {
        names: names(alloc, fields)?,
    })
}

/// The model with these fields.
fn model(alloc: Global, text: &[u8], fields: &[Field<'_>]) -> Result<ModelCard, AllocError>
    requires enough { 3 ≤ length fields.now }
    ensures card { IfOk result
        (λ m. cards.model m ≡ card_from cards.modelling fields.now text.now) }
{
    let named = behind(front(fields, 3), 1);
    Ok(ModelCard {
        name: first_name(alloc, named)?,
        word: last_name(alloc, named)?,
        tail: Tail::normal(alloc, text_behind(text, fields, 3))?,
    })
}

/// The head of a subcircuit with these fields.
fn head(alloc: Global, text: &[u8], fields: &[Field<'_>]) -> Result<Head, AllocError>
    requires enough { 2 ≤ length fields.now }
    ensures card { IfOk result (λ h. cards.subckt h ≡ card_from cards.opening fields.now text.now) }
{
    let named = behind(fields, 1);
    Ok(Head {
        name: first_name(alloc, named)?,
        ports: names(alloc, behind(named, 1))?,
    })
}

/// The card of a kind with these fields.
pub fn make(
    alloc: Global,
    kind: Kind,
    text: &[u8],
    fields: &[Field<'_>],
) -> Result<Card, AllocError>
    requires enough { cards.needs (kind_value kind) ≤ length fields.now }
    requires lettered { IsLetteredField kind fields.now }
    ensures card { IfOk result
        (λ c. card_value c ≡ card_from (kind_value kind) fields.now text.now) }
{
    match kind {
        Kind::Device(letter) => Ok(Card::Dev(device(alloc, letter, text, fields)?)),
        Kind::Call => Ok(Card::Call(call(alloc, text, fields)?)),
        Kind::Model => Ok(Card::Model(model(alloc, text, fields)?)),
        Kind::Subckt => Ok(Card::Subckt(head(alloc, text, fields)?)),
        Kind::Ends => Ok(Card::Ends(given_name(alloc, names_in(kind, fields))?)),
        Kind::Global => Ok(Card::Global(names(alloc, names_in(kind, fields))?)),
        Kind::End => Ok(Card::End),
        _ => Ok(Card::Passed(Vec::from_slice(alloc, trim_end(text))?)),
    }
}
