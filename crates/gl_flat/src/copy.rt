ghost use Rattle.std.specs.Prelude.{◌≡◌, map, IfOk};
ghost use Rattle.std.specs.Option.{option_copied};

use crate::{Head, ModelCard, Name, Tail};
use std::alloc::{AllocError, Global};

/// A copy of a name.
pub fn name_copy(alloc: Global, name: &Name) -> Result<Name, AllocError>
    ensures copy { IfOk result (λ copy. copy ≡ name.now) }
{
    Ok(Name::of(alloc, name.as_bytes())?)
}

/// A copy of names.
pub fn name_copies(alloc: Global, names: &[Name]) -> Result<Vec<Name>, AllocError>
    ensures copies { IfOk result (λ copies. copies.items ≡ names.now) }
{
    let mut copies = Vec::with_capacity(alloc, names.len())?;
    for name in names {
        copies.push(name_copy(alloc, name)?)?;
    }
    Ok(copies)
}

/// A copy of a name, if there is one.
pub fn option_copy(alloc: Global, name: Option<&Name>) -> Result<Option<Name>, AllocError>
    ensures copy { IfOk result (λ copy. copy ≡ option_copied name.entry) }
{
    match name {
        Some(name) => Ok(Some(name_copy(alloc, name)?)),
        None => Ok(None),
    }
}

/// A copy of a tail.
pub fn tail_copy(alloc: Global, tail: &Tail) -> Result<Tail, AllocError>
    ensures copy { IfOk result (λ copy. copy ≡ tail.now) }
{
    Ok(Tail::of(alloc, tail.as_bytes())?)
}

/// A copy of a model.
fn model_copy(alloc: Global, model: &ModelCard) -> Result<ModelCard, AllocError>
    ensures copy { IfOk result (λ copy. copy ≡ model.now) }
{
    Ok(ModelCard {
        name: name_copy(alloc, model.name())?,
        word: name_copy(alloc, model.word())?,
        tail: tail_copy(alloc, model.tail())?,
    })
}

/// A copy of models.
pub fn model_copies(alloc: Global, models: &[ModelCard]) -> Result<Vec<ModelCard>, AllocError>
    ensures copies { IfOk result (λ copies. copies.items ≡ models.now) }
{
    let mut copies = Vec::with_capacity(alloc, models.len())?;
    for model in models {
        copies.push(model_copy(alloc, model)?)?;
    }
    Ok(copies)
}

/// A copy of a head.
fn head_copy(alloc: Global, head: &Head) -> Result<Head, AllocError>
    ensures copy { IfOk result (λ copy. copy ≡ head.now) }
{
    Ok(Head {
        name: name_copy(alloc, head.name())?,
        ports: name_copies(alloc, head.ports())?,
    })
}

/// A copy of a head, if there is one.
pub fn top_copy(alloc: Global, head: Option<&Head>) -> Result<Option<Head>, AllocError>
    ensures copy { IfOk result (λ copy. copy ≡ option_copied head.entry) }
{
    match head {
        Some(head) => Ok(Some(head_copy(alloc, head)?)),
        None => Ok(None),
    }
}

/// A copy of texts.
pub fn text_copies(alloc: Global, texts: &[Vec<u8>]) -> Result<Vec<Vec<u8>>, AllocError>
    ensures copies { IfOk result (λ copies.
        map (λ t. t.items) copies.items ≡ map (λ t. t.items) texts.now) }
{
    let mut copies = Vec::with_capacity(alloc, texts.len())?;
    for text in texts {
        copies.push(Vec::from_slice(alloc, text)?)?;
    }
    Ok(copies)
}
