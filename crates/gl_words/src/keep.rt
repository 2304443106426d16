//! Names with commas between them.
ghost use Rattle.std.specs.Prelude.{◌≡◌, ◌++◌, ◌∷◌, List, ℕ, map, IfOk, OnOk};
ghost use Rattle.gl_text.specs.LogicalLines.{folded};
ghost use Rattle.gl_words.specs.Pieces.{onto_first, pieces, names_in};

use gl_fault::Memory;
use gl_line::Name;
use std::alloc::Global;

/// One byte more: a comma ends the piece, any other byte stands in it.
fn take_byte(
    alloc: Global,
    byte: u8,
    names: &mut Vec<Name>,
    piece: &mut Vec<u8>,
) -> Result<(), Memory>
    ensures taken { OnOk result ((rest : List ℕ)
        → names.new.items ++ map folded (onto_first piece.new.items (pieces rest))
        ≡ names.old.items ++ map folded (onto_first piece.old.items (pieces (byte ∷ rest)))) }
{
    if byte == b',' {
        names.push(Name::folded(alloc, piece)?)?;
        piece.clear();
    } else {
        piece.push(byte)?;
    }
    Ok(())
}

/// The names of a list with commas between them, folded. An empty part is the empty name.
pub fn split_names(alloc: Global, text: &[u8]) -> Result<Vec<Name>, Memory>
    ensures names { IfOk result (λ names. names.items ≡ names_in text.now) }
{
    let mut names = Vec::new(alloc);
    let mut piece = Vec::new(alloc);
    for byte in text {
        take_byte(alloc, *byte, &mut names, &mut piece)?;
    }
    names.push(Name::folded(alloc, &piece)?)?;
    Ok(names)
}
