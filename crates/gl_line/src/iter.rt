ghost use Rattle.std.specs.Prelude.{◌≡◌, ◌≤◌, length};
ghost use Rattle.gl_text.specs.LogicalLines.{FILE, logical_lines};
ghost use Rattle.gl_line.specs.Lines.{lines_left};

use crate::fault::LineFault;
use crate::logical::Logical;
use crate::state::LogicalLines;
use crate::steps::{Left, Step, next_step};
use std::alloc::Global;

impl<'a> LogicalLines<'a> {
    /// The logical lines of bytes whose first line has this number: 2 behind a title, else 1. It takes no memory.
    pub fn new(alloc: Global, bytes: &'a [u8], first_line: u32) -> LogicalLines<'a>
        requires size { length bytes.now ≤ FILE }
        requires numbered { (1 ≤ first_line) × (first_line ≤ 2) }
        ensures lines { lines_left result ≡ logical_lines first_line bytes.now }
    {
        LogicalLines {
            alloc,
            left: Some(Left {
                bytes,
                line: first_line,
            }),
        }
    }
}

impl<'a> Iterator for LogicalLines<'a> {
    type Item = Result<Logical<'a>, LineFault>;

    ghost use Rattle.gl_line.specs.Lines.{lines_left};
    ghost use Rattle.gl_line.specs.Answers.{GivesFirst};
    ghost use Rattle.std.specs.Prelude.{◌≡◌, [], MatchOption};
    ghost use Rattle.std.specs.Iterator.{item_count};

    ghost next_gives = { λ s r t. MatchOption r ((lines_left s ≡ []) × (lines_left t ≡ [])) (λ x. GivesFirst x (lines_left s) (lines_left t)) };

    ghost remaining = { item_count lines_left };

    fn next(&mut self) -> Option<Result<Logical<'a>, LineFault>> {
        let left = self.left?;
        match next_step(self.alloc, left.bytes, left.line) {
            Some(Step { given, left }) => {
                self.left = left;
                Some(given)
            }
            None => None,
        }
    }
}
