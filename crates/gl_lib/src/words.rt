ghost use Rattle.std.specs.Prelude.{◌≡◌, ◌∷◌, ◌++◌, ℕ, List, [], IfOk, OnOk};
ghost use Rattle.indexmap.specs.IndexMap.{get};
ghost use Rattle.gl_text.specs.LogicalLines.{same_text};
ghost use Rattle.std.specs.Option.{option_copied};
ghost use Rattle.gl_card.specs.Letters.{byte_of};
ghost use Rattle.gl_base.specs.TypeNames.{word_of, type_by, type_by_model};
ghost use Rattle.gl_lib.specs.Keys.{first_of};
ghost use Rattle.gl_lib.specs.Sources as flat;

use crate::type_name::TypeName;
use gl_card::{DevCard, Letter, ModelCard, Name};
use gl_flat::KeptDevice;
use indexmap::IndexMap;
use std::alloc::{AllocError, Global};

/// The type words of models, by their names.
pub type Words = IndexMap<Name, Name>;

/// A copy of a name.
fn copy_of(alloc: Global, name: &Name) -> Result<Name, AllocError>
    ensures name { IfOk result (λ copy. copy ≡ name.now) }
{
    Ok(Name::of(alloc, name.as_bytes())?)
}

/// Notes the type word of a model, if none of its name was noted before.
fn add_word(alloc: Global, words: &mut Words, model: &ModelCard) -> Result<(), AllocError>
    ensures noted { OnOk result ((name : List ℕ) → get same_text words.new name ≡ first_of (get same_text words.old name) (word_of (model.now ∷ []) name)) }
{
    if !words.contains_key(model.name()) {
        let name = copy_of(alloc, model.name())?;
        let word = copy_of(alloc, model.word())?;
        words.insert(name, word)?;
    }
    Ok(())
}

/// Notes the type words of models, the first of each name.
fn add_words(alloc: Global, words: &mut Words, models: &[ModelCard]) -> Result<(), AllocError>
    ensures noted { OnOk result ((name : List ℕ) → get same_text words.new name ≡ first_of (get same_text words.old name) (word_of models.now name)) }
{
    for model in models {
        add_word(alloc, words, model)?;
    }
    Ok(())
}

/// The type words of the deck's models, and of those of the library's that the deck does not define.
pub fn words_of(
    alloc: Global,
    deck: &[ModelCard],
    library: &[ModelCard],
) -> Result<Words, AllocError>
    ensures words { IfOk result (λ words. (name : List ℕ) → get same_text words name ≡ word_of (deck.now ++ library.now) name) }
{
    let mut words = IndexMap::new(alloc);
    add_words(alloc, &mut words, deck)?;
    add_words(alloc, &mut words, library)?;
    Ok(words)
}

/// The type of a letter with a model.
fn type_with(
    alloc: Global,
    words: &Words,
    letter: Letter,
    model: Option<&Name>,
) -> Result<TypeName, AllocError>
    ensures kind { IfOk result (λ kind. kind ≡ type_by_model (get same_text words.now) (byte_of letter) (option_copied model.entry)) }
{
    let Some(model) = model else {
        return Ok(TypeName::of_letter(letter));
    };
    match words.get(model) {
        Some(word) => Ok(TypeName::of_word(letter, copy_of(alloc, word)?)),
        None => Ok(TypeName::of_model(letter, copy_of(alloc, model)?)),
    }
}

/// The type of a device.
pub fn type_of(alloc: Global, words: &Words, card: &DevCard) -> Result<TypeName, AllocError>
    ensures kind { IfOk result (λ kind. kind ≡ type_by (get same_text words.now) card.now) }
{
    type_with(alloc, words, card.letter(), card.model())
}

/// The type of a flat device.
pub fn flat_type(alloc: Global, words: &Words, device: &KeptDevice) -> Result<TypeName, AllocError>
    ensures kind { IfOk result (λ kind. kind ≡ flat.type_of_flat (type_by (get same_text words.now)) device.now) }
{
    type_with(alloc, words, device.letter(), device.model())
}
