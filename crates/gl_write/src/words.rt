//! Words of a line.
ghost use Rattle.std.specs.Prelude.{◌≡◌, ◌++◌, ◌∷◌, [], map, option_to_list, OnOk};
ghost use Rattle.std.specs.Option.{option_copied};
ghost use Rattle.gl_text.specs.Cards.{spaced};
ghost use Rattle.gl_card.specs.Lines.{spaced_all};
ghost use Rattle.gl_base.specs.Reports as told;

use gl_graph::NetId;
use gl_line::Name;
use gl_match::Memory;

/// Appends bytes.
pub fn put(out: &mut Vec<u8>, bytes: &[u8]) -> Result<(), Memory>
    ensures ok { OnOk result (out.new.items ≡ out.old.items ++ bytes.now) }
{
    out.extend_from_slice(bytes)?;
    Ok(())
}

/// The name of a number; empty past the end.
pub fn name_or_empty(names: &[Name], number: usize) -> &[u8]
    ensures name { result.now ≡ told.name_at names.now number }
{
    match names.get(number) {
        Some(name) => name.as_bytes(),
        None => &[],
    }
}

/// Appends a space and a word.
pub fn put_word(out: &mut Vec<u8>, word: &[u8]) -> Result<(), Memory>
    ensures ok { OnOk result (out.new.items ≡ out.old.items ++ spaced_all (word.now ∷ [])) }
{
    put(out, b" ")?;
    put(out, word)
}

/// Appends a space and a name, for each of these.
pub fn put_words(out: &mut Vec<u8>, words: &[Name]) -> Result<(), Memory>
    ensures ok { OnOk result (out.new.items ≡ out.old.items ++ spaced_all words.now) }
{
    for word in words {
        put_word(out, word.as_bytes())?;
    }
    Ok(())
}

/// Appends a space and the name of a net, for each of these numbers.
pub fn put_nets(out: &mut Vec<u8>, names: &[Name], nets: &[NetId]) -> Result<(), Memory>
    ensures ok { OnOk result (out.new.items
        ≡ out.old.items ++ spaced_all (map (told.name_at names.now) nets.now)) }
{
    for net in nets {
        put_word(out, name_or_empty(names, net.0 as usize))?;
    }
    Ok(())
}

/// Appends a space and a model's name, if there is one.
pub fn put_model(out: &mut Vec<u8>, model: Option<&Name>) -> Result<(), Memory>
    ensures ok { OnOk result (out.new.items
        ≡ out.old.items ++ spaced_all (option_to_list (option_copied model.entry))) }
{
    match model {
        Some(name) => put_word(out, name.as_bytes()),
        None => Ok(()),
    }
}

/// Appends a space and a tail, if it is not empty.
pub fn put_tail(out: &mut Vec<u8>, tail: &[u8]) -> Result<(), Memory>
    ensures ok { OnOk result (out.new.items ≡ out.old.items ++ spaced tail.now) }
{
    if tail.is_empty() {
        return Ok(());
    }
    put(out, b" ")?;
    put(out, tail)
}

/// Appends a space and the name of a net, for each of these numbers.
pub fn put_numbers(out: &mut Vec<u8>, names: &[Name], numbers: &[u32]) -> Result<(), Memory>
    ensures ok { OnOk result (out.new.items
        ≡ out.old.items ++ spaced_all (map (told.name_at names.now) numbers.now)) }
{
    for number in numbers {
        put_word(out, name_or_empty(names, *number as usize))?;
    }
    Ok(())
}
