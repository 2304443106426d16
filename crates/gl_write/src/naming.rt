//! The names of variants.
ghost use Rattle.std.specs.Prelude.{◌≡◌, ◌++◌, ◌∷◌, [], ℕ, suc, List, length, not, IfOk, OnOk};
ghost use Rattle.std.specs.Option.{option_copied};
ghost use Rattle.gl_lifting.specs.Variants as told;
ghost use Rattle.gl_lifting.specs.Variants.{is_not_top, name_behind};
ghost use Rattle.gl_lifting.specs.Variants.{Variant as VariantValue};
ghost use Rattle.gl_variant.specs.Names.{named_to, count_of, last_of, AreGiven};

use crate::variant::Variant;
use gl_line::Name;
use gl_map::put_variant_name;
use gl_match::Memory;
use indexmap::IndexMap;
use std::alloc::Global;

/// The text `CELL_vN`.
fn variant_text(alloc: Global, cell: &[u8], number: u32) -> Result<Vec<u8>, Memory>
    ensures text { IfOk result (λ text. text.items ≡ told.variant_name cell.now number) }
{
    let mut text = Vec::new(alloc);
    put_variant_name(&mut text, cell, number)?;
    Ok(text)
}

/// A text is the name of the top.
fn is_top(top: Option<&Name>, text: &[u8]) -> bool
    ensures top { result ≡ not (is_not_top (option_copied top.entry) text.now) }
{
    match top {
        Some(name) => name.as_bytes() == text,
        None => false,
    }
}

/// The number behind another. No memory holds more variants than there are numbers.
fn next_number(number: u32) -> Result<u32, Memory>
    ensures next { IfOk result (λ next. next ≡ suc number) }
{
    match number.checked_add(1) {
        Some(next) => Ok(next),
        None => Err(Memory),
    }
}

/// A name of a variant, and its number.
#[derive(Drop)]
struct Numbered {
    number: u32,
    text: Vec<u8>,
}

/// The next name of a cell's variants behind that of a number, 0 before the first; the top's is passed over.
fn next_name(alloc: Global, top: Option<&Name>, cell: &[u8], last: u32) -> Result<Numbered, Memory>
    ensures name { IfOk result (λ next. (others : ℕ)
        → length (named_to (option_copied top.entry) cell.now last) ≡ others
        → next.text.items ≡ name_behind (option_copied top.entry) cell.now others) }
    ensures number { IfOk result (λ next.
        length (named_to (option_copied top.entry) cell.now next.number)
        ≡ suc (length (named_to (option_copied top.entry) cell.now last))) }
{
    let number = next_number(last)?;
    let text = variant_text(alloc, cell, number)?;
    if !is_top(top, &text) {
        return Ok(Numbered { number, text });
    }
    let number = next_number(number)?;
    let text = variant_text(alloc, cell, number)?;
    Ok(Numbered { number, text })
}

/// The last number that was given to a variant of a cell; 0 before the first.
fn last_number(lasts: &IndexMap<Name, u32>, cell: &Name) -> u32
    ensures last { result ≡ last_of lasts.now.entries cell.now }
{
    match lasts.get(cell) {
        Some(last) => *last,
        None => 0,
    }
}

/// The name of one more variant, which is of this cell.
fn give_name(
    alloc: Global,
    top: Option<&Name>,
    lasts: &mut IndexMap<Name, u32>,
    cell: &Name,
) -> Result<Name, Memory>
    ensures name { IfOk result (λ name. (before : List VariantValue)
        → AreGiven (option_copied top.entry) before lasts.old.entries
        → name ≡ name_behind (option_copied top.entry) cell.now (count_of cell.now before)) }
    ensures given { OnOk result ((before : List VariantValue) (v : VariantValue)
        → v.cell.head.name ≡ cell.now
        → AreGiven (option_copied top.entry) before lasts.old.entries
        → AreGiven (option_copied top.entry) (before ++ v ∷ []) lasts.new.entries) }
{
    let last = last_number(lasts, cell);
    let next = next_name(alloc, top, cell.as_bytes(), last)?;
    lasts.insert(Name::of(alloc, cell.as_bytes())?, next.number)?;
    Ok(Name::from_vec(alloc, next.text)?)
}

/// The names of variants, by their numbers: `CELL_v1`, `CELL_v2` and so on for each cell, the top's passed over.
pub fn name_variants(
    alloc: Global,
    top: Option<&Name>,
    variants: &[Variant<'_>],
) -> Result<Vec<Name>, Memory>
    ensures names { IfOk result (λ names. names.items
        ≡ told.variant_names (option_copied top.entry) variants.now) }
{
    let mut lasts = IndexMap::new(alloc);
    let mut names = Vec::with_capacity(alloc, variants.len())?;
    for variant in variants {
        names.push(give_name(alloc, top, &mut lasts, variant.cell.head().name())?)?;
    }
    Ok(names)
}
