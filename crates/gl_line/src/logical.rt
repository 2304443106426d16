ghost use Rattle.std.specs.Prelude.{◌≡◌};

use std::alloc::Global;
use std::borrow::CowSlice;
use std::marker::Model;

/// A logical line: a card with its continuation lines joined. Contracts see it as its number and its bytes.
#[derive(Drop)]
pub struct Logical<'a> {
    /// The number of its first line, from 1.
    pub line: u32,
    /// Its bytes: those of the file where one line serves, a copy where it continues.
    pub text: CowSlice<'a, u8, Global>,
}

impl<'a> Model for Logical<'a> {
    ghost use Rattle.gl_text.specs.LogicalLines.{Line};
    ghost use Rattle.std.specs.Cow.{cow_slice_items};

    ghost Value = { Line };

    ghost view = { λ l. record { line = l.line; text = cow_slice_items l.text } };
}

impl Logical<'_> {
    /// The number of its first line.
    pub fn line(&self) -> u32
        ensures line { result ≡ self.now.line }
    {
        self.line
    }

    /// Its bytes.
    pub fn text(&self) -> &[u8]
        ensures text { result.now ≡ self.now.text }
    {
        self.text.as_slice()
    }
}
