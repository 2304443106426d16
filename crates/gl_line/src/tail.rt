ghost use Rattle.std.specs.Prelude.{◌≡◌, IfOk};
ghost use Rattle.gl_text.specs.LogicalLines.{tail_of};

use crate::packed::Packed;
use crate::trim::{trim_end, trim_loose};
use gl_fault::Memory;
use std::alloc::Global;
use std::marker::Model;

/// A tail: what follows a card's last field, normalised; up to 22 bytes stand in place. Contracts see it as the list of
/// its bytes.
#[derive(Debug, Drop)]
pub struct Tail {
    bytes: Packed,
}

impl Model for Tail {
    ghost use Rattle.std.specs.Prelude.{ℕ, List};

    ghost Value = { List ℕ };

    ghost view = { λ t. t.bytes };
}

impl Tail {
    /// The tail of the text behind a card's last field: without blanks, commas and closing parentheses at its front
    /// and blanks at its end, and with one space for each run of blanks. Letters keep their case.
    pub fn normal(alloc: Global, text: &[u8]) -> Result<Tail, Memory>
        ensures normal { IfOk result (λ tail. tail ≡ tail_of text.now) }
    {
        Ok(Tail {
            bytes: Packed::squeezed(alloc, trim_end(trim_loose(text)))?,
        })
    }

    /// The tail of the bytes as they stand.
    pub fn of(alloc: Global, bytes: &[u8]) -> Result<Tail, Memory>
        ensures bytes { IfOk result (λ tail. tail ≡ bytes.now) }
    {
        Ok(Tail {
            bytes: Packed::of(alloc, bytes)?,
        })
    }

    /// Its bytes.
    pub fn as_bytes(&self) -> &[u8]
        ensures bytes { result.now ≡ self.now }
    {
        self.bytes.as_bytes()
    }
}
