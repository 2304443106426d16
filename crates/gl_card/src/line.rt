ghost use Rattle.std.specs.Prelude.{◌≡◌, ◌++◌, [], None, OnOk, option_to_list, is_ok, length, take, if◌then◌else◌};
ghost use Rattle.std.specs.Option.{option_copied};
ghost use Rattle.gl_text.specs.Cards.{spaced};
ghost use Rattle.gl_card.specs.Lines.{line_of, spaced_all};

use gl_line::{Memory, Name};
use std::alloc::AllocError;

/// The parts of a card's line, in order, with one space between each two.
#[derive(Clone, Copy)]
pub struct Parts<'a> {
    pub first: &'a [u8],
    pub one: Option<&'a Name>,
    pub many: &'a [Name],
    pub last: Option<&'a Name>,
    pub tail: &'a [u8],
}

impl<'a> Parts<'a> {
    /// The first word alone.
    pub fn of(first: &'a [u8]) -> Parts<'a>
        ensures first { result.first.now ≡ first.entry.now }
        ensures none { (result.one ≡ None) × (result.last ≡ None) }
        ensures empty { (result.many.now ≡ []) × (result.tail.now ≡ []) }
    {
        Parts {
            first,
            one: None,
            many: &[],
            last: None,
            tail: &[],
        }
    }
}

/// A space and a word, if there is a word.
fn put_word(line: &mut Vec<u8>, word: Option<&Name>) -> Result<(), AllocError>
    ensures put { OnOk result
        (line.new.items ≡ line.old.items ++ spaced_all (option_to_list (option_copied word.entry))) }
    ensures front { take (length line.old.items) line.new.items ≡ line.old.items }
{
    if let Some(word) = word {
        line.push(b' ')?;
        line.extend_from_slice(word.as_bytes())?;
    }
    Ok(())
}

/// A space and a word for each of the words.
fn put_words(line: &mut Vec<u8>, words: &[Name]) -> Result<(), AllocError>
    ensures put { OnOk result (line.new.items ≡ line.old.items ++ spaced_all words.now) }
    ensures front { take (length line.old.items) line.new.items ≡ line.old.items }
{
    for word in words {
        put_word(line, Some(word))?;
    }
    Ok(())
}

/// A space and the tail, if it is not empty.
fn put_tail(line: &mut Vec<u8>, tail: &[u8]) -> Result<(), AllocError>
    ensures put { OnOk result (line.new.items ≡ line.old.items ++ spaced tail.now) }
    ensures front { take (length line.old.items) line.new.items ≡ line.old.items }
{
    if !tail.is_empty() {
        line.push(b' ')?;
        line.extend_from_slice(tail)?;
    }
    Ok(())
}

/// The line with these parts.
fn put_line(line: &mut Vec<u8>, parts: &Parts<'_>) -> Result<(), AllocError>
    ensures put { OnOk result (line.new.items ≡ line.old.items ++ line_of parts.now) }
    ensures front { take (length line.old.items) line.new.items ≡ line.old.items }
{
    line.extend_from_slice(parts.first)?;
    put_word(line, parts.one)?;
    put_words(line, parts.many)?;
    put_word(line, parts.last)?;
    put_tail(line, parts.tail)?;
    Ok(())
}

/// Appends the line with these parts, or nothing.
pub fn print_line(out: &mut Vec<u8>, parts: &Parts<'_>) -> Result<(), Memory>
    ensures printed { out.new.items
        ≡ (if is_ok result then out.old.items ++ line_of parts.now else out.old.items) }
{
    let start = out.len();
    if put_line(out, parts).is_err() {
        out.truncate(start);
        return Err(Memory);
    }
    Ok(())
}
