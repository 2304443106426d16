//! Parts of a message.
ghost use Rattle.std.specs.Prelude.{◌≡◌, ◌++◌, [], codes};
ghost use Rattle.gl_said.specs.Texts.{part_text, parts_text, numbered, named};

use crate::part::Part;

/// The parts of what is said of a refusal; those that are not used are empty texts.
pub type Parts<'a> = [Part<'a>; 6];

/// No parts: what is said where there was no memory.
pub fn nothing<'a>() -> Parts<'a>
    ensures text { parts_text result ≡ [] }
{
    let none = Part::Text("");
    [none, none, none, none, none, none]
}

/// One text.
pub fn one_text<'a>(text: &'static str) -> Parts<'a>
    ensures text { parts_text result ≡ text.now ++ [] }
{
    let none = Part::Text("");
    [Part::Text(text), none, none, none, none, none]
}

/// A part of texts and numbers, made anew.
fn again<'a>(part: Part<'static>) -> Part<'a>
    ensures text { part_text result ≡ part_text part.entry }
{
    match part {
        Part::Text(text) => Part::Text(text),
        Part::Name(name) => Part::Name(name),
        Part::Number(number) => Part::Number(number),
    }
}

/// Parts of texts and numbers, made anew.
pub fn anew<'a>(parts: Parts<'static>) -> Parts<'a>
    ensures text { parts_text result ≡ parts_text parts.entry }
{
    let [first, second, third, fourth, fifth, sixth] = parts;
    [
        again(first),
        again(second),
        again(third),
        again(fourth),
        again(fifth),
        again(sixth),
    ]
}

/// A number behind a text.
pub fn one<'a>(text: &'static str, number: u32) -> Parts<'a>
    ensures text { parts_text result ≡ numbered text.now number [] }
{
    let none = Part::Text("");
    [
        Part::Text(text),
        Part::Number(number),
        none,
        none,
        none,
        none,
    ]
}

/// Two numbers, each behind a text.
pub fn two<'a>(text: &'static str, number: u32, key: &'static str, other: u32) -> Parts<'a>
    ensures text { parts_text result ≡ numbered text.now number (numbered key.now other []) }
{
    let none = Part::Text("");
    [
        Part::Text(text),
        Part::Number(number),
        Part::Text(key),
        Part::Number(other),
        none,
        none,
    ]
}

/// A line, how many there are and how many are needed.
pub fn counts<'a>(text: &'static str, line: u32, has: u32, needs: u32) -> Parts<'a>
    ensures text { parts_text result
        ≡ numbered text.now line (numbered (codes " has=") has (numbered (codes " needs=") needs [])) }
{
    [
        Part::Text(text),
        Part::Number(line),
        Part::Text(" has="),
        Part::Number(has),
        Part::Text(" needs="),
        Part::Number(needs),
    ]
}

/// A name behind a text.
pub fn name<'a>(text: &'static str, name: &'a [u8]) -> Parts<'a>
    ensures text { parts_text result ≡ named text.now name.now [] }
{
    let none = Part::Text("");
    [Part::Text(text), Part::Name(name), none, none, none, none]
}
