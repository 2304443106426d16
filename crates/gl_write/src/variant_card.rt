//! The text of variants.
ghost use Rattle.std.specs.Prelude.{◌≡◌, ◌++◌, map, flat_map, zip, OnOk, IfErr};
ghost use Rattle.gl_text.specs.Decks.{body_line, body_name, head_line, sub_text};
ghost use Rattle.gl_base.specs.BaseCircuit.{Source};
ghost use Rattle.gl_deck.specs.Bodies.{body_value, bodies_value};
ghost use Rattle.gl_lifting.specs.LiftedDecks.{variant_card, variant_sub};
ghost use Rattle.gl_limit.specs.Bounds.{Tells};
ghost use Rattle.gl_write.specs.Lines.{matched_text};
ghost use Rattle.gl_write.specs.Texts.{variants_text};

use crate::carried::{Carried, Matched};
use crate::turned::put_nodes_back;
use crate::variant::Variant;
use crate::words::{name_or_empty, put, put_model, put_tail, put_word, put_words};
use gl_deck::{Body, Name, put_ends};
use gl_limit::{WriteFault, check_length, fronts_are_shorter};
use gl_match::Memory;

/// The name of a card.
fn card_name(card: &Body) -> &[u8]
    ensures name { result.now ≡ body_name (body_value card.now) }
{
    match card {
        Body::Dev(_, device) => device.name().as_bytes(),
        Body::Call(_, call) => call.name().as_bytes(),
    }
}

/// Appends what stands behind a card's nodes.
fn put_matched(out: &mut Vec<u8>, names: &[Name], matched: &Matched<'_>) -> Result<(), Memory>
    ensures ok { OnOk result (out.new.items ≡ out.old.items ++ matched_text names.now matched.now) }
{
    match matched {
        Matched::Device(model, tail) => {
            put_model(out, *model)?;
            put_tail(out, tail)
        }
        Matched::Variant(number) => put_word(out, name_or_empty(names, *number as usize)),
    }
}

/// Appends a card of a variant.
fn put_card(
    out: &mut Vec<u8>,
    names: &[Name],
    card: &Body,
    carried: &Carried<'_>,
) -> Result<(), Memory>
    ensures ok { (s : Source) → OnOk result (out.new.items ≡ out.old.items
        ++ body_line (variant_card s names.now (body_value card.now, carried.now))) }
{
    put(out, card_name(card))?;
    put_nodes_back(out, card, carried.turn)?;
    put_matched(out, names, &carried.matched)?;
    put(out, b"\n")?;
    Ok(())
}

/// Appends the cards of a variant.
fn put_cards(
    out: &mut Vec<u8>,
    names: &[Name],
    cards: &[Body],
    carried: &[Carried<'_>],
) -> Result<(), Memory>
    ensures ok { (s : Source) → OnOk result (out.new.items ≡ out.old.items
        ++ flat_map body_line (map (variant_card s names.now)
        (zip (bodies_value cards.now) carried.now))) }
{
    for (card, carried) in cards.iter().zip(carried) {
        put_card(out, names, card, carried)?;
    }
    Ok(())
}

/// Appends the card that opens a variant of a cell with these ports.
fn put_opening(out: &mut Vec<u8>, name: &Name, ports: &[Name]) -> Result<(), Memory>
    ensures ok { OnOk result (out.new.items
        ≡ out.old.items ++ head_line (record { name = name.now; ports = ports.now })) }
{
    put(out, b".subckt")?;
    put_word(out, name.as_bytes())?;
    put_words(out, ports)?;
    put(out, b"\n")?;
    Ok(())
}

/// Appends a variant under its name.
fn put_variant(
    out: &mut Vec<u8>,
    names: &[Name],
    name: &Name,
    variant: &Variant<'_>,
) -> Result<(), Memory>
    ensures ok { (s : Source) → OnOk result (out.new.items
        ≡ out.old.items ++ sub_text (variant_sub s names.now (name.now, variant.now))) }
{
    put_opening(out, name, variant.cell.head().ports())?;
    put_cards(out, names, variant.cell.cards(), &variant.cards)?;
    put_ends(out, name)?;
    Ok(())
}

/// Appends a variant under its name; the text is then no longer than a file may be.
fn put_short_variant(
    out: &mut Vec<u8>,
    names: &[Name],
    name: &Name,
    variant: &Variant<'_>,
) -> Result<(), WriteFault>
    ensures ok { (s : Source) → OnOk result (out.new.items
        ≡ out.old.items ++ sub_text (variant_sub s names.now (name.now, variant.now))) }
    ensures fault { (s : Source) → IfErr result (λ fault. Tells fault
        (out.old.items ++ sub_text (variant_sub s names.now (name.now, variant.now)))) }
{
    put_variant(out, names, name, variant)?;
    check_length(out)
}

/// Appends variants under their names, until the text is longer than a file may be.
pub fn put_variants(
    out: &mut Vec<u8>,
    names: &[Name],
    variants: &[Variant<'_>],
) -> Result<(), WriteFault>
    ensures ok { (s : Source) → OnOk result (out.new.items
        ≡ out.old.items ++ variants_text s names.now variants.now) }
    ensures fault { (s : Source) → IfErr result (λ fault. Tells fault
        (out.old.items ++ variants_text s names.now variants.now)) }
{
    fronts_are_shorter();
    for (name, variant) in names.iter().zip(variants) {
        put_short_variant(out, names, name, variant)?;
    }
    Ok(())
}
