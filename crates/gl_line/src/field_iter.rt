ghost use Rattle.std.specs.Prelude.{◌≡◌, ◌<◌, ◌^◌, length};
ghost use Rattle.gl_text.specs.LogicalLines.{fields_of};
ghost use Rattle.gl_line.specs.Fields.{fields_left, text_of};

use crate::field::{Field, FieldIter};
use crate::run::next_run;

/// The fields of a text, in order, each with the place where it begins. It takes no memory.
pub fn fields(text: &[u8]) -> FieldIter<'_>
    requires size { length text.now < 2 ^ 32 }
    ensures fields { fields_left result ≡ fields_of text.now }
    ensures of_text { text_of result ≡ text.now }
{
    FieldIter { text, at: 0 }
}

impl<'a> Iterator for FieldIter<'a> {
    type Item = Field<'a>;

    ghost use Rattle.gl_line.specs.Fields.{fields_left, GivesField};
    ghost use Rattle.std.specs.Iterator.{item_count};

    ghost next_gives = { GivesField };

    ghost remaining = { item_count fields_left };

    fn next(&mut self) -> Option<Field<'a>> {
        let run = next_run(&self.text[self.at..])?;
        let start = self.at + run.start;
        let end = self.at + run.end;
        self.at = end;
        Some(Field {
            start: start as u32,
            bytes: &self.text[start..end],
        })
    }
}
