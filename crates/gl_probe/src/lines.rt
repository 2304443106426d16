//! The line of a cell.
ghost use Rattle.std.specs.Prelude.{◌≡◌, ◌∷◌, ◌++◌, [], OnOk, take, length, map, codes, Some};
ghost use Rattle.std.specs.Fmt.{decimal};
ghost use Rattle.std.specs.List.{join_with_byte};
ghost use Rattle.gl_base.specs.Reports.{name_at};
ghost use Rattle.gl_base.specs.RoundReports.{card_name};
ghost use Rattle.gl_deck.specs.Bodies.{body_value};
ghost use Rattle.gl_deck.specs.declared.body.Body.{Body as Card};
ghost use Rattle.gl_lifting.specs.Runs.{cell_nets};
ghost use Rattle.gl_key.specs.Best.{seen};
ghost use Rattle.gl_probe.specs.Probes.{vertex_word, key_line};

use crate::nets::net_set;
use crate::words::{put, put_number};
use gl_deck::{Body, Sub};
use gl_graph::{DevId, NetId, Vertex};
use gl_key::Note;
use gl_line::Name;
use gl_match::Memory;
use std::alloc::Global;

/// The name of a card.
fn name_of(card: &Body) -> &Name
    ensures name { result.now ≡ card_name (body_value card.now) }
{
    match card {
        Body::Dev(_, device) => device.name(),
        Body::Call(_, call) => call.name(),
    }
}

/// Appends the name of a card; nothing past the last.
fn put_card(out: &mut Vec<u8>, cards: &[Body], dev: DevId) -> Result<(), Memory>
    ensures ok { OnOk result (out.new.items
        ≡ out.old.items ++ name_at (map (λ (b : Card). card_name (body_value b)) cards.now) dev) }
    ensures front { take (length out.old.items) out.new.items ≡ out.old.items }
{
    match cards.get(dev.0 as usize) {
        Some(card) => put(out, name_of(card).as_bytes()),
        None => Ok(()),
    }
}

/// Appends the name of a net; nothing past the last.
fn put_net(out: &mut Vec<u8>, nets: &[Name], net: NetId) -> Result<(), Memory>
    ensures ok { OnOk result (out.new.items ≡ out.old.items ++ name_at nets.now net) }
    ensures front { take (length out.old.items) out.new.items ≡ out.old.items }
{
    match nets.get(net.0 as usize) {
        Some(name) => put(out, name.as_bytes()),
        None => Ok(()),
    }
}

/// Appends `net:` and the name of a net of a cell.
fn put_cell_net(alloc: Global, out: &mut Vec<u8>, cell: &Sub, net: NetId) -> Result<(), Memory>
    ensures ok { OnOk result (out.new.items
        ≡ out.old.items ++ (codes "net:" ++ name_at (cell_nets cell.now) net)) }
    ensures front { take (length out.old.items) out.new.items ≡ out.old.items }
{
    let nets = net_set(alloc, cell.cards())?;
    put(out, b"net:")?;
    put_net(out, nets.as_slice(), net)
}

/// Appends `device:` and the name of a card of a cell.
fn put_cell_card(out: &mut Vec<u8>, cell: &Sub, dev: DevId) -> Result<(), Memory>
    ensures ok { OnOk result (out.new.items
        ≡ out.old.items ++ (codes "device:" ++ name_at (map card_name cell.now.cards) dev)) }
    ensures front { take (length out.old.items) out.new.items ≡ out.old.items }
{
    put(out, b"device:")?;
    put_card(out, cell.cards(), dev)
}

/// Appends a vertex of a cell, by the cell's own name of it.
fn put_vertex(alloc: Global, out: &mut Vec<u8>, cell: &Sub, v: Vertex) -> Result<(), Memory>
    ensures ok { OnOk result (out.new.items ≡ out.old.items ++ vertex_word cell.now v) }
    ensures front { take (length out.old.items) out.new.items ≡ out.old.items }
{
    match v {
        Vertex::Dev(dev) => put_cell_card(out, cell, dev),
        Vertex::Net(net) => put_cell_net(alloc, out, cell, net),
    }
}

/// Appends the front of a line: the number of the round, and the name of the cell.
fn put_front(out: &mut Vec<u8>, round: usize, name: &[u8]) -> Result<(), Memory>
    ensures ok { OnOk result (out.new.items ≡ out.old.items ++ join_with_byte 32
        (codes "round" ∷ decimal round ∷ codes "cell" ∷ name.now ∷ codes "key" ∷ [])) }
    ensures front { take (length out.old.items) out.new.items ≡ out.old.items }
{
    put(out, b"round ")?;
    put_number(out, round)?;
    put(out, b" cell ")?;
    put(out, name)?;
    put(out, b" key")
}

/// Appends the front of a cell's line.
fn put_head(out: &mut Vec<u8>, round: usize, cell: &Sub) -> Result<(), Memory>
    ensures ok { OnOk result (out.new.items ≡ out.old.items ++ join_with_byte 32
        (codes "round" ∷ decimal round ∷ codes "cell" ∷ cell.now.head.name ∷ codes "key" ∷ [])) }
    ensures front { take (length out.old.items) out.new.items ≡ out.old.items }
{
    put_front(out, round, cell.head().name().as_bytes())
}

/// Appends the end of a line: the depth, and the number of candidates.
fn put_end(out: &mut Vec<u8>, depth: u32, candidates: u32) -> Result<(), Memory>
    ensures ok { OnOk result (out.new.items ≡ out.old.items ++ (join_with_byte 32
        (codes " depth" ∷ decimal depth ∷ codes "candidates" ∷ decimal candidates ∷ []) ++ codes "\n")) }
    ensures front { take (length out.old.items) out.new.items ≡ out.old.items }
{
    put(out, b" depth ")?;
    put_number(out, depth as usize)?;
    put(out, b" candidates ")?;
    put_number(out, candidates as usize)?;
    put(out, b"\n")
}

/// Appends the line of a cell, by its key.
pub fn put_line(
    alloc: Global,
    out: &mut Vec<u8>,
    round: usize,
    cell: &Sub,
    key: &Note,
) -> Result<(), Memory>
    ensures ok { OnOk result (out.new.items
        ≡ out.old.items ++ key_line round cell.now (Some (seen key.now))) }
    ensures front { take (length out.old.items) out.new.items ≡ out.old.items }
{
    put_head(out, round, cell)?;
    put(out, b" ")?;
    put_vertex(alloc, out, cell, key.vertex)?;
    put_end(out, key.depth, key.candidates)
}
