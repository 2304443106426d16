ghost use Rattle.std.specs.Prelude.{◌≡◌, ◌<◌, ◌≤◌, ◌^◌, length, nat_lt};
ghost use Rattle.gl_text.specs.LogicalLines as lines;
ghost use Rattle.gl_text.specs.Cards as cards;
ghost use Rattle.gl_fault.specs.Refusals.{when};
ghost use Rattle.gl_card.specs.Kinds.{kind_value, shown};
ghost use Rattle.gl_card.specs.Reading.{Refuses, first_long};

use crate::CardFault;
use crate::kind::Kind;
use crate::slices::names_in;
use gl_line::Field;

/// The bytes that a name may have.
const LONGEST_NAME: usize = 1_024;

/// The first name that is too long.
fn long_name(line: u32, names: &[Field<'_>]) -> Option<CardFault>
    ensures first { Refuses result (first_long line (shown names.now)) }
{
    let mut rest = names;
    while let [name, behind @ ..] = rest {
        let len = name.bytes.len();
        if len > LONGEST_NAME {
            let len = len as u32;
            return Some(CardFault::LongName { line, len });
        }
        rest = behind;
    }
    None
}

/// The first byte begins no card.
fn unknown_card(line: u32, text: &[u8], kind: Kind) -> Option<CardFault>
    requires some { 0 < length text.now }
    ensures unknown { Refuses result
        (when (cards.is_unknown (kind_value kind)) (lines.unknown_card line (cards.first_byte text.now))) }
{
    match kind {
        Kind::Unknown => Some(CardFault::UnknownCard {
            line,
            byte: text[0],
        }),
        _ => None,
    }
}

/// There are too few fields.
fn short_card(line: u32, kind: Kind, has: usize) -> Option<CardFault>
    requires few { has < 2 ^ 32 }
    ensures short { Refuses result (when (nat_lt has (cards.needs (kind_value kind)))
        (lines.short_card line has (cards.needs (kind_value kind)))) }
{
    let needs = kind.needs();
    if has < needs {
        let has = has as u32;
        let needs = needs as u32;
        return Some(CardFault::ShortCard { line, has, needs });
    }
    None
}

/// A control block begins.
fn control_block(line: u32, kind: Kind) -> Option<CardFault>
    ensures control { Refuses result
        (when (cards.is_control (kind_value kind)) (lines.control_block line)) }
{
    match kind {
        Kind::Control => Some(CardFault::ControlBlock { line }),
        _ => None,
    }
}

/// Why there is no card, if there is none.
pub fn no_card(line: u32, text: &[u8], kind: Kind, fields: &[Field<'_>]) -> Option<CardFault>
    requires some { 0 < length text.now }
    requires few { length fields.now < 2 ^ 32 }
    ensures first { Refuses result
        (cards.no_card_by (record { line = line; text = text.now }) (kind_value kind) (shown fields.now)) }
{
    long_name(line, names_in(kind, fields))
        .or(unknown_card(line, text, kind))
        .or(short_card(line, kind, fields.len()))
        .or(control_block(line, kind))
}
