ghost use Rattle.std.specs.Prelude.{◌≡◌, ◌∷◌, [], ◌++◌, OnOk, is_ok, length, take, map, flat_map, if◌then◌else◌};
ghost use Rattle.gl_text.specs.Cards as cards;
ghost use Rattle.gl_text.specs.Decks as decks;
ghost use Rattle.gl_text.specs.Decks.{deck_text, global_line, model_line, head_line, ends_line, passed_line};
ghost use Rattle.gl_deck.specs.Bodies.{body_value, bodies_value};

use crate::{Body, Deck, Head, Memory, ModelCard, Name, Sub};

/// Appends bytes.
pub fn put(out: &mut Vec<u8>, bytes: &[u8]) -> Result<(), Memory>
    ensures ok { OnOk result (out.new.items ≡ out.old.items ++ bytes.now) }
    ensures front { take (length out.old.items) out.new.items ≡ out.old.items }
{
    out.extend_from_slice(bytes)?;
    Ok(())
}

/// Appends the card of a global net.
fn put_global(out: &mut Vec<u8>, name: &Name) -> Result<(), Memory>
    ensures ok { OnOk result (out.new.items ≡ out.old.items ++ global_line name.now) }
    ensures front { take (length out.old.items) out.new.items ≡ out.old.items }
{
    put(out, b".global ")?;
    put(out, name.as_bytes())?;
    put(out, b"\n")
}

/// Appends a `.global` card for each of these names.
pub fn put_globals(out: &mut Vec<u8>, names: &[Name]) -> Result<(), Memory>
    ensures ok { OnOk result (out.new.items ≡ out.old.items ++ flat_map global_line names.now) }
    ensures front { take (length out.old.items) out.new.items ≡ out.old.items }
{
    for name in names {
        put_global(out, name)?;
    }
    Ok(())
}

/// Appends a model.
fn put_model(out: &mut Vec<u8>, model: &ModelCard) -> Result<(), Memory>
    ensures ok { OnOk result (out.new.items ≡ out.old.items ++ model_line model.now) }
    ensures front { take (length out.old.items) out.new.items ≡ out.old.items }
{
    model.print(out)?;
    put(out, b"\n")
}

/// Appends the models.
pub fn put_models(out: &mut Vec<u8>, models: &[ModelCard]) -> Result<(), Memory>
    ensures ok { OnOk result (out.new.items ≡ out.old.items ++ flat_map model_line models.now) }
    ensures front { take (length out.old.items) out.new.items ≡ out.old.items }
{
    for model in models {
        put_model(out, model)?;
    }
    Ok(())
}

/// Appends a device or an X card.
fn put_body(out: &mut Vec<u8>, card: &Body) -> Result<(), Memory>
    ensures ok { OnOk result
        (out.new.items ≡ out.old.items ++ decks.body_line (body_value card.now)) }
    ensures front { take (length out.old.items) out.new.items ≡ out.old.items }
{
    match card {
        Body::Dev(_, card) => card.print(out)?,
        Body::Call(_, card) => card.print(out)?,
    }
    put(out, b"\n")
}

/// Appends devices and X cards.
fn put_bodies(out: &mut Vec<u8>, cards: &[Body]) -> Result<(), Memory>
    ensures ok { OnOk result
        (out.new.items ≡ out.old.items ++ flat_map decks.body_line (bodies_value cards.now)) }
    ensures front { take (length out.old.items) out.new.items ≡ out.old.items }
{
    for card in cards {
        put_body(out, card)?;
    }
    Ok(())
}

/// Appends the `.subckt` card that opens a subcircuit.
pub fn put_head(out: &mut Vec<u8>, head: &Head) -> Result<(), Memory>
    ensures ok { OnOk result (out.new.items ≡ out.old.items ++ head_line head.now) }
    ensures front { take (length out.old.items) out.new.items ≡ out.old.items }
{
    head.print(out)?;
    put(out, b"\n")
}

/// Appends the `.ends` card that closes the subcircuit of this name.
pub fn put_ends(out: &mut Vec<u8>, name: &Name) -> Result<(), Memory>
    ensures ok { OnOk result (out.new.items ≡ out.old.items ++ ends_line name.now) }
    ensures front { take (length out.old.items) out.new.items ≡ out.old.items }
{
    put(out, b".ends ")?;
    put(out, name.as_bytes())?;
    put(out, b"\n")
}

/// Appends a subcircuit.
fn put_sub(out: &mut Vec<u8>, sub: &Sub) -> Result<(), Memory>
    ensures ok { OnOk result (out.new.items ≡ out.old.items ++ decks.sub_text sub.now) }
    ensures front { take (length out.old.items) out.new.items ≡ out.old.items }
{
    put_head(out, sub.head())?;
    put_bodies(out, sub.cards())?;
    put_ends(out, sub.head().name())
}

/// Appends the subcircuits.
fn put_subs(out: &mut Vec<u8>, subs: &[Sub]) -> Result<(), Memory>
    ensures ok { OnOk result (out.new.items ≡ out.old.items ++ flat_map decks.sub_text subs.now) }
    ensures front { take (length out.old.items) out.new.items ≡ out.old.items }
{
    for sub in subs {
        put_sub(out, sub)?;
    }
    Ok(())
}

/// Appends a title, `.end` or a card that is carried along, and a newline.
pub fn put_text(out: &mut Vec<u8>, text: &[u8]) -> Result<(), Memory>
    ensures ok { OnOk result (out.new.items ≡ out.old.items ++ passed_line text.now) }
    ensures front { take (length out.old.items) out.new.items ≡ out.old.items }
{
    put(out, text)?;
    put(out, b"\n")
}

/// Appends the cards that are carried along.
pub fn put_all_passed(out: &mut Vec<u8>, texts: &[Vec<u8>]) -> Result<(), Memory>
    ensures ok { OnOk result
        (out.new.items ≡ out.old.items ++ flat_map passed_line (map (λ t. t.items) texts.now)) }
    ensures front { take (length out.old.items) out.new.items ≡ out.old.items }
{
    for text in texts {
        put_text(out, text)?;
    }
    Ok(())
}

/// Appends the deck. What stood before stays, also where no memory is found.
fn put_deck(out: &mut Vec<u8>, deck: &Deck) -> Result<(), Memory>
    ensures ok { OnOk result (out.new.items ≡ out.old.items ++ deck_text deck.now) }
    ensures front { take (length out.old.items) out.new.items ≡ out.old.items }
{
    put_text(out, deck.title())?;
    put_globals(out, deck.globals())?;
    put_models(out, deck.models())?;
    put_subs(out, deck.subs().as_slice())?;
    put_bodies(out, deck.top())?;
    put_all_passed(out, deck.passed())?;
    put_text(out, b".end")?;
    Ok(())
}

impl Deck {
    /// Appends the deck's text: the title, `.global` cards of one name, models, subcircuits, top cards, passed cards and `.end`,
    /// each on a line. Without memory for all of it nothing is appended.
    pub fn print(&self, out: &mut Vec<u8>) -> Result<(), Memory>
        ensures printed { out.new.items
            ≡ (if is_ok result then out.old.items ++ deck_text self.now else out.old.items) }
    {
        let start = out.len();
        if put_deck(out, self).is_err() {
            out.truncate(start);
            return Err(Memory);
        }
        Ok(())
    }
}
