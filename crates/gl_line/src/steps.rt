ghost use Rattle.std.specs.Prelude.{◌≡◌, ◌<◌, ◌+◌, ◌^◌, ◌∷◌, [], List, length, IfSome, MatchOption, OnSome};
ghost use Rattle.gl_text.specs.LogicalLines.{Line, begins, logical_lines, up_to_long, up_to_end};
ghost use Rattle.std.specs.Cow.{cow_slice_items};
ghost use Rattle.gl_line.specs.Answers.{GivesFirst, IsTold, left_of, FewLeft};

use crate::end::is_end;
use crate::fault::LineFault;
use crate::gather::continued;
use crate::kept::next_kept;
use crate::logical::Logical;
use std::alloc::Global;
use std::borrow::CowSlice;

/// What is left of the bytes, and the number of the first line there.
#[derive(Clone, Copy)]
pub struct Left<'a> {
    pub bytes: &'a [u8],
    pub line: u32,
}

/// A logical line or why there is none, and what is left if there may be more.
pub struct Step<'a> {
    pub given: Result<Logical<'a>, LineFault>,
    pub left: Option<Left<'a>>,
}

/// The bytes that a logical line may have.
const LONGEST: usize = 131_072;

/// The logical line with this text, or that it is too long. It takes no memory, and never tells of want of it.
fn judged<'a>(line: u32, text: CowSlice<'a, u8, Global>, left: Left<'a>) -> Step<'a>
    requires few { left.line + length left.bytes.now < 2 ^ 32 }
    requires fits { length (cow_slice_items text) < 2 ^ 32 }
    ensures given { (ls : List Line)
        → logical_lines left.entry.line left.entry.bytes.now ≡ up_to_long (up_to_end ls)
        → GivesFirst result.given
        (up_to_long (up_to_end ((record { line = line; text = cow_slice_items text.entry }) ∷ ls)))
        (left_of result.left) }
    ensures told { IsTold result.given }
    ensures few { FewLeft result.left }
{
    let len = text.len();
    if len > LONGEST {
        let len = len as u32;
        return Step {
            given: Err(LineFault::LongLine { line, len }),
            left: None,
        };
    }
    if is_end(text.as_slice()) {
        return Step {
            given: Ok(Logical { line, text }),
            left: None,
        };
    }
    Step {
        given: Ok(Logical { line, text }),
        left: Some(left),
    }
}

/// A line begins with `+`.
fn is_more(text: &[u8]) -> bool
    ensures { result ≡ begins 43 text.now }
{
    match text {
        [b'+', ..] => true,
        _ => false,
    }
}

/// The first logical line.
pub fn next_step<'a>(alloc: Global, bytes: &'a [u8], first: u32) -> Option<Step<'a>>
    requires few { first + length bytes.now < 2 ^ 32 }
    ensures given { MatchOption result (logical_lines first bytes.now ≡ [])
        (λ s. GivesFirst s.given (logical_lines first bytes.now) (left_of s.left)) }
    ensures few { IfSome result (λ s. FewLeft s.left) }
{
    let kept = next_kept(bytes, first)?;
    if is_more(kept.text) {
        return Some(Step {
            given: Err(LineFault::LoosePlus { line: kept.line }),
            left: None,
        });
    }
    match continued(alloc, kept.text, kept.rest, kept.line + 1) {
        Ok(gathered) => Some(judged(
            kept.line,
            gathered.text,
            Left {
                bytes: gathered.rest,
                line: gathered.line,
            },
        )),
        Err(_) => Some(Step {
            given: Err(LineFault::Memory),
            left: None,
        }),
    }
}
