ghost use Rattle.std.specs.Prelude.{◌≡◌, ◌++◌, ◌∷◌, [], OnOk};
ghost use Rattle.gl_text.specs.Decks.{call_at};
ghost use Rattle.gl_deck.specs.Bodies.{bodies_value};
ghost use Rattle.gl_flat.specs.Ways.{IsScene, devices_behind};

use crate::device::FlatDevice;
use crate::scene::{Scene, find};
use crate::step::Step;
use crate::way::{device_at, longer};
use crate::{Body, CallCard};
use std::alloc::{AllocError, Global};

/// Adds the devices of an X card, through at most so many more X cards.
#[cycle(expansion)]
fn expand_call<'a>(
    alloc: Global,
    scene: &Scene<'a>,
    depth: usize,
    way: &[Step<'a>],
    call: &'a CallCard,
    out: &mut Vec<FlatDevice<'a>>,
) -> Result<(), AllocError>
    requires scene { IsScene scene.now }
    ensures ok { OnOk result (out.new.items
        ≡ out.old.items ++ devices_behind scene.now depth way.now (call_at 0 call.now ∷ [])) }
{
    let Some(callee) = find(scene, call.sub()) else {
        return Ok(());
    };
    if depth == 0 {
        return Ok(());
    }
    let step = Step {
        call,
        ports: callee.ports,
    };
    let inner = longer(alloc, way, step)?;
    expand(alloc, scene, depth - 1, &inner, callee.sub.cards(), out)
}

/// Adds the devices of a card, through at most so many more X cards.
#[cycle(expansion)]
fn expand_card<'a>(
    alloc: Global,
    scene: &Scene<'a>,
    depth: usize,
    way: &[Step<'a>],
    card: &'a Body,
    out: &mut Vec<FlatDevice<'a>>,
) -> Result<(), AllocError>
    requires scene { IsScene scene.now }
    ensures ok { OnOk result (out.new.items
        ≡ out.old.items ++ devices_behind scene.now depth way.now (bodies_value (card.now ∷ []))) }
{
    match card {
        Body::Dev(_, card) => {
            out.push(device_at(alloc, scene.rails, way, card)?)?;
            Ok(())
        }
        Body::Call(_, call) => expand_call(alloc, scene, depth, way, call, out),
    }
}

/// Adds the devices of cards, through at most so many more X cards.
#[cycle(expansion)]
pub fn expand<'a>(
    alloc: Global,
    scene: &Scene<'a>,
    depth: usize,
    way: &[Step<'a>],
    cards: &'a [Body],
    out: &mut Vec<FlatDevice<'a>>,
) -> Result<(), AllocError>
    requires scene { IsScene scene.now }
    ensures ok { OnOk result (out.new.items
        ≡ out.old.items ++ devices_behind scene.now depth way.now (bodies_value cards.now)) }
{
    for card in cards {
        expand_card(alloc, scene, depth, way, card, out)?;
    }
    Ok(())
}
