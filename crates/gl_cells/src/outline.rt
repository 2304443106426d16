ghost use Rattle.std.specs.Prelude.{◌≡◌, IfOk};
ghost use Rattle.gl_cells.specs.Outlines.{outline_of, outlines_of};

use crate::ports::own_skip;
use crate::{Sub, Subs};
use gl_deck::called_places;
use std::alloc::{AllocError, Global};
use std::marker::Model;

/// What is kept of a cell to find its level and whether it is skipped.
#[derive(Drop)]
pub struct Outline {
    /// It is skipped by itself.
    skipped: bool,
    /// For each of its X cards the place of the cell that it calls, in order.
    calls: Vec<usize>,
}

impl Model for Outline {
    ghost use Rattle.gl_cells.specs.Outlines.{Outline as OutlineValue};

    ghost Value = { OutlineValue };

    ghost view = { λ o. record { skipped = o.skipped; calls = o.calls.items } };
}

impl Outline {
    /// What is kept of a cell.
    fn of(alloc: Global, subs: &Subs, cell: &Sub) -> Result<Outline, AllocError>
        ensures outline { IfOk result (λ o. o ≡ outline_of subs.now cell.now) }
    {
        Ok(Outline {
            skipped: own_skip(alloc, cell)?.is_some(),
            calls: called_places(alloc, subs, cell.cards())?,
        })
    }

    /// It is skipped by itself.
    pub fn is_skipped(&self) -> bool
        ensures skipped { result ≡ self.now.skipped }
    {
        self.skipped
    }

    /// The places of the cells that it calls.
    pub fn calls(&self) -> &[usize]
        ensures calls { result.now ≡ self.now.calls }
    {
        &self.calls
    }
}

/// What is kept of each cell, in order.
pub fn outlines(alloc: Global, subs: &Subs) -> Result<Vec<Outline>, AllocError>
    ensures outlines { IfOk result (λ v. v.items ≡ outlines_of subs.now) }
{
    let mut outlines = Vec::with_capacity(alloc, subs.len())?;
    let mut rest = subs.as_slice();
    while let [cell, behind @ ..] = rest {
        outlines.push(Outline::of(alloc, subs, cell)?)?;
        rest = behind;
    }
    Ok(outlines)
}
