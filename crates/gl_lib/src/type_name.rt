ghost use Rattle.std.specs.Prelude.{◌≡◌, IfOk};
ghost use Rattle.std.proofs.Common.{ap};
ghost use Rattle.std.specs.Hash as fed;
ghost use Rattle.std.specs.Cmp.{partial_equiv_from_equiv};
ghost use Rattle.gl_card.specs.Letters.{byte_of};
ghost use Rattle.gl_base.specs.TypeNames.{same_type, classes_of, of_word, of_model, of_letter};
ghost use Rattle.gl_base.proofs.TypeLaws.{same_type_equiv, exact};
ghost use Rattle.gl_lib.specs.Keys.{name_in};

use gl_card::{Letter, Name};
use gl_graph::{Class, Shape};
use std::alloc::{AllocError, Global};
use std::hash::{Hash, Hasher};
use std::marker::Model;

/// What is known of a device's model.
#[derive(Debug, Drop)]
pub enum ModelName {
    /// Its type word.
    Word(Name),
    /// Its name, where nothing defines it.
    Undefined(Name),
    /// The device takes no model.
    Absent,
}

/// The type of a device.
#[derive(Debug, Drop)]
pub struct TypeName {
    letter: Letter,
    model: ModelName,
}

impl Model for TypeName {
    ghost use Rattle.gl_base.specs.TypeNames.{TypeName as NameOfType};
    ghost use Rattle.gl_lib.specs.Keys.{type_kept};

    ghost Value = { NameOfType };

    ghost view = { λ t. type_kept t.letter t.model };
}

impl TypeName {
    /// The type of a letter and the type word of its model.
    pub fn of_word(letter: Letter, word: Name) -> TypeName
        ensures word { result ≡ of_word (byte_of letter) word }
    {
        TypeName {
            letter,
            model: ModelName::Word(word),
        }
    }

    /// The type of a letter and a model that nothing defines.
    pub fn of_model(letter: Letter, model: Name) -> TypeName
        ensures model { result ≡ of_model (byte_of letter) model }
    {
        TypeName {
            letter,
            model: ModelName::Undefined(model),
        }
    }

    /// The type of a letter that takes no model.
    pub fn of_letter(letter: Letter) -> TypeName
        ensures letter { result ≡ of_letter (byte_of letter) }
    {
        TypeName {
            letter,
            model: ModelName::Absent,
        }
    }

    /// The class of each of its places: drain and source of a transistor are one, so are the ends of a resistor and of a capacitor.
    pub fn shape(&self, alloc: Global) -> Result<Shape, AllocError>
        ensures classes { IfOk result (λ shape. shape ≡ classes_of self.now) }
    {
        let classes = match self.letter {
            Letter::M => vec![in alloc; Class(0), Class(1), Class(0), Class(2)]?,
            Letter::R | Letter::C => vec![in alloc; Class(0), Class(0)]?,
            Letter::D | Letter::L | Letter::V | Letter::I => vec![in alloc; Class(0), Class(1)]?,
        };
        Ok(Shape { classes })
    }
}

impl PartialEq for TypeName {
    ghost eq = { same_type };

    ghost laws = { partial_equiv_from_equiv same_type_equiv };

    fn eq(&self, other: &Self) -> bool {
        if self.letter != other.letter {
            return false;
        }
        match (&self.model, &other.model) {
            (ModelName::Word(word), ModelName::Word(other)) => word == other,
            (ModelName::Undefined(name), ModelName::Undefined(other)) => name == other,
            (ModelName::Absent, ModelName::Absent) => true,
            _ => false,
        }
    }
}

impl Eq for TypeName {
    ghost laws = { same_type_equiv };
}

impl Hash for TypeName {
    ghost hash_input = { λ t. fed.slice fed.u8 (name_in t) };

    ghost respects_eq = { λ x y h. ap (λ t. fed.slice fed.u8 (name_in t)) (exact x y h) };

    fn hash<H: Hasher>(&self, state: &mut H) {
        match &self.model {
            ModelName::Word(name) | ModelName::Undefined(name) => name.hash(state),
            ModelName::Absent => {
                let none: &[u8] = &[];
                none.hash(state)
            }
        }
    }
}
