ghost use Rattle.std.specs.Prelude.{◌≡◌, map, Some};
ghost use Rattle.gl_text.specs.LogicalLines.{folded, fold_byte};
ghost use Rattle.gl_text.specs.Cards.{word_in, dot_words, kind_of as kind_of_text, needs as needs_of};
ghost use Rattle.gl_card.specs.Kinds.{kind_value, AreFields, first_bytes, IsLettered, nodes_of, count_of};

use crate::Letter;
use gl_line::{Field, fold, is_word};

/// What a card is, by its first byte and its first field.
#[derive(Clone, Copy, PartialEq, Eq)]
pub enum Kind {
    Device(Letter),
    Call,
    Model,
    Subckt,
    Ends,
    Global,
    End,
    Control,
    Other,
    Unknown,
}

impl Letter {
    /// How many nodes a device of this letter has.
    pub fn nodes(self) -> usize
        ensures nodes { result ≡ nodes_of self }
    {
        match self {
            Letter::M => 4,
            _ => 2,
        }
    }

    /// How many fields stand before the tail: the name, the nodes, and the model of M and D.
    pub fn fields(self) -> usize
        ensures fields { result ≡ count_of self }
    {
        match self {
            Letter::M => 6,
            Letter::D => 4,
            _ => 3,
        }
    }
}

/// The kind of a dot card.
fn dot_kind(word: &[u8]) -> Kind
    ensures kind { kind_value result ≡ word_in dot_words (folded word.now) }
{
    if is_word(b".subckt", word) {
        return Kind::Subckt;
    }
    if is_word(b".ends", word) {
        return Kind::Ends;
    }
    if is_word(b".model", word) {
        return Kind::Model;
    }
    if is_word(b".global", word) {
        return Kind::Global;
    }
    if is_word(b".end", word) {
        return Kind::End;
    }
    if is_word(b".control", word) {
        return Kind::Control;
    }
    Kind::Other
}

/// The bytes of the first field, or nothing.
fn first_word<'a>(fields: &[Field<'a>]) -> &'a [u8]
    ensures word { result.now ≡ first_bytes fields.now }
{
    match fields {
        [first, ..] => first.bytes,
        [] => &[],
    }
}

/// The kind of a card with these fields.
pub fn kind_of(text: &[u8], fields: &[Field<'_>]) -> Kind
    requires fields { AreFields text.now fields.now }
    ensures kind { kind_value result ≡ kind_of_text text.now }
    ensures letter { IsLettered result text.now }
{
    let Some(first) = text.first() else {
        return Kind::Unknown;
    };
    match fold(*first) {
        b'm' => Kind::Device(Letter::M),
        b'd' => Kind::Device(Letter::D),
        b'r' => Kind::Device(Letter::R),
        b'c' => Kind::Device(Letter::C),
        b'l' => Kind::Device(Letter::L),
        b'v' => Kind::Device(Letter::V),
        b'i' => Kind::Device(Letter::I),
        b'x' => Kind::Call,
        b'.' => dot_kind(first_word(fields)),
        _ => Kind::Unknown,
    }
}

impl Kind {
    /// How many fields the card needs.
    pub fn needs(self) -> usize
        ensures needs { result ≡ needs_of (kind_value self) }
    {
        match self {
            Kind::Device(letter) => letter.fields(),
            Kind::Model => 3,
            Kind::Call | Kind::Subckt => 2,
            _ => 1,
        }
    }
}
