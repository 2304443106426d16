//! Nodes of a cell's cards as they stand at what the cards were matched with.
ghost use Rattle.std.specs.Prelude.{◌≡◌, ◌==◌, ◌++◌, ◌∷◌, [], length, OnOk};
ghost use Rattle.std.specs.List.{position, position_or_len};
ghost use Rattle.gl_text.specs.Cards.{first_byte};
ghost use Rattle.gl_card.specs.Letters.{byte_of};
ghost use Rattle.gl_card.specs.Lines.{spaced_all};
ghost use Rattle.gl_deck.specs.Bodies.{body_value};
ghost use Rattle.gl_match.specs.Turns.{turn_at};
ghost use Rattle.gl_base.specs.TypeNames.{classes_by, letter_classes, port_classes};
ghost use Rattle.gl_base.specs.BaseCircuit.{Source};
ghost use Rattle.gl_lifting.specs.LiftedDecks.{turned_back, nodes_back};

use crate::words::{name_or_empty, put_word, put_words};
use gl_deck::{Body, DevCard, Letter, Name};
use gl_match::Memory;

/// The turn of a number of a transistor, whose drain and source may be exchanged; empty past the last.
#[tactic(auto, using(gl_variant::proofs::TurnedLaws::transistor_first, gl_variant::proofs::TurnedLaws::transistor_second, gl_variant::proofs::TurnedLaws::transistor_behind))]
fn transistor_turn(turn: u32) -> &'static [u8]
    ensures turn { result.now ≡ turn_at (0 ∷ 1 ∷ 0 ∷ 2 ∷ []) turn }
{
    if turn == 0 {
        return &[0, 1, 2, 3];
    }
    if turn == 1 {
        return &[2, 1, 0, 3];
    }
    &[]
}

/// The turn of a number of what has two ends that may be exchanged; empty past the last.
#[tactic(auto, using(gl_variant::proofs::TurnedLaws::pair_first, gl_variant::proofs::TurnedLaws::pair_second, gl_variant::proofs::TurnedLaws::pair_behind))]
fn pair_turn(turn: u32) -> &'static [u8]
    ensures turn { result.now ≡ turn_at (0 ∷ 0 ∷ []) turn }
{
    if turn == 0 {
        return &[0, 1];
    }
    if turn == 1 {
        return &[1, 0];
    }
    &[]
}

/// The turn of a number of what has two ends that stay; empty past the first.
#[tactic(auto, using(gl_variant::proofs::TurnedLaws::ends_first, gl_variant::proofs::TurnedLaws::ends_behind))]
fn ends_turn(turn: u32) -> &'static [u8]
    ensures turn { result.now ≡ turn_at (0 ∷ 1 ∷ []) turn }
{
    if turn == 0 {
        return &[0, 1];
    }
    &[]
}

/// The turn of a number of a device: to which place each place goes; empty past the last.
fn device_turn(letter: Letter, turn: u32) -> &'static [u8]
    ensures turn { result.now ≡ turn_at (classes_by letter_classes (byte_of letter)) turn }
{
    match letter {
        Letter::M => transistor_turn(turn),
        Letter::R | Letter::C => pair_turn(turn),
        Letter::D | Letter::L | Letter::V | Letter::I => ends_turn(turn),
    }
}

/// Which place a turn takes to a place, if it takes one there.
fn found_source(turn: &[u8], place: usize) -> Option<usize>
    ensures found { result ≡ position (λ turned. turned == place) turn.now }
{
    turn.iter().position(|turned| usize::from(*turned) == place)
}

/// Which place a turn takes to a place; as many as it has where it takes none there.
fn source_of(turn: &[u8], place: usize) -> usize
    ensures source { result ≡ position_or_len (λ turned. turned == place) turn.now }
{
    match found_source(turn, place) {
        Some(source) => source,
        None => turn.len(),
    }
}

/// Appends a space and a name for each place, where a turn that took the places elsewhere is undone.
fn put_turned_back(out: &mut Vec<u8>, turn: &[u8], nodes: &[Name]) -> Result<(), Memory>
    ensures ok { OnOk result (out.new.items
        ≡ out.old.items ++ spaced_all (turned_back turn.now nodes.now)) }
{
    for place in 0..nodes.len() {
        put_word(out, name_or_empty(nodes, source_of(turn, place)))?;
    }
    Ok(())
}

/// Appends the nodes of a device of a cell, a turn undone.
fn put_device_nodes(out: &mut Vec<u8>, card: &DevCard, turn: u32) -> Result<(), Memory>
    ensures ok { let classes = classes_by letter_classes (first_byte card.now.name) in
        OnOk result (out.new.items
        ≡ out.old.items ++ spaced_all (turned_back (turn_at classes turn) card.now.nodes)) }
{
    put_turned_back(out, device_turn(card.letter(), turn), card.nodes())
}

/// Appends the nodes of an X card of a cell; ports have one turn, which leaves them in their places.
fn put_call_nodes(out: &mut Vec<u8>, nodes: &[Name], turn: u32) -> Result<(), Memory>
    ensures ok { let classes = port_classes (length nodes.now) in
        OnOk result (out.new.items
        ≡ out.old.items ++ spaced_all (turned_back (turn_at classes turn) nodes.now)) }
{
    if turn == 0 {
        return put_words(out, nodes);
    }
    put_turned_back(out, &[], nodes)
}

/// Appends the nodes of a cell's card as they stand at what it was matched with: the turn is undone.
pub fn put_nodes_back(out: &mut Vec<u8>, card: &Body, turn: u32) -> Result<(), Memory>
    ensures ok { (s : Source) → OnOk result (out.new.items
        ≡ out.old.items ++ spaced_all (nodes_back s (body_value card.now) turn)) }
{
    match card {
        Body::Dev(_, device) => put_device_nodes(out, device, turn),
        Body::Call(_, call) => put_call_nodes(out, call.nodes(), turn),
    }
}
