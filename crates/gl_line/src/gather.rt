ghost use Rattle.std.specs.Prelude.{◌≡◌, ◌<◌, ◌≤◌, ◌+◌, ◌^◌, ◌++◌, [], length, drop, true, false, IfOk, MatchOption};
ghost use Rattle.std.specs.Bool.{OnFalse};
ghost use Rattle.gl_text.specs.LogicalLines.{begins};
ghost use Rattle.gl_line.specs.Rest.{pluses, groups, added};
ghost use Rattle.std.specs.Cow.{cow_slice_items};

use crate::kept::next_kept;
use std::alloc::{AllocError, Global};
use std::borrow::CowSlice;

/// What follows the `+` that a line begins with.
fn behind_plus(text: &[u8]) -> Option<&[u8]>
    ensures { MatchOption result (begins 43 text.now ≡ false)
        (λ more. (begins 43 text.now ≡ true) × (more.now ≡ drop 1 text.now)) }
{
    match text {
        [b'+', more @ ..] => Some(more),
        _ => None,
    }
}

/// What follows several lines of lines, and the group's text.
#[derive(Drop)]
struct Whole<'a> {
    text: Vec<u8>,
    rest: &'a [u8],
    line: u32,
}

/// The text with all `+` lines that follow it.
fn copied<'a>(
    alloc: Global,
    front: &[u8],
    bytes: &'a [u8],
    first: u32,
) -> Result<Whole<'a>, AllocError>
    requires few { first + length bytes.now < 2 ^ 32 }
    ensures text { IfOk result (λ g. g.text.items ≡ front.now ++ added (pluses first bytes.now)) }
    ensures groups { IfOk result (λ g. groups g.line g.rest.now ≡ groups first bytes.now) }
    ensures none { IfOk result (λ g. pluses g.line g.rest.now ≡ []) }
    ensures few { IfOk result (λ g. g.line + length g.rest.now ≤ first + length bytes.now) }
    ensures len { IfOk result
        (λ g. length g.text.items + length g.rest.now ≤ length front.now + length bytes.now) }
{
    let mut text = Vec::from_slice(alloc, front)?;
    let mut rest = bytes;
    let mut line = first;
    while let Some(kept) = next_kept(rest, line) {
        let Some(more) = behind_plus(kept.text) else {
            return Ok(Whole { text, rest, line });
        };
        text.push(b' ')?;
        text.extend_from_slice(more)?;
        rest = kept.rest;
        line = kept.line + 1;
    }
    Ok(Whole { text, rest, line })
}

/// A group's text, and what follows it.
#[derive(Drop)]
pub struct Gathered<'a> {
    pub text: CowSlice<'a, u8, Global>,
    pub rest: &'a [u8],
    pub line: u32,
}

/// A `+` line is the next that is not dropped.
fn goes_on(bytes: &[u8], first: u32) -> bool
    requires few { first + length bytes.now < 2 ^ 32 }
    ensures { OnFalse result (pluses first bytes.now ≡ []) }
{
    match next_kept(bytes, first) {
        Some(kept) => behind_plus(kept.text).is_some(),
        None => false,
    }
}

/// The text with all `+` lines that follow it, copied only where there is one.
pub fn continued<'a>(
    alloc: Global,
    front: &'a [u8],
    bytes: &'a [u8],
    first: u32,
) -> Result<Gathered<'a>, AllocError>
    requires few { first + length bytes.now < 2 ^ 32 }
    ensures text { IfOk result
        (λ g. cow_slice_items g.text ≡ front.now ++ added (pluses first bytes.now)) }
    ensures groups { IfOk result (λ g. groups g.line g.rest.now ≡ groups first bytes.now) }
    ensures none { IfOk result (λ g. pluses g.line g.rest.now ≡ []) }
    ensures few { IfOk result (λ g. g.line + length g.rest.now ≤ first + length bytes.now) }
    ensures len { IfOk result
        (λ g. length (cow_slice_items g.text) + length g.rest.now ≤ length front.now + length bytes.now) }
{
    if !goes_on(bytes, first) {
        return Ok(Gathered {
            text: CowSlice::Borrowed(front),
            rest: bytes,
            line: first,
        });
    }
    let all = copied(alloc, front, bytes, first)?;
    Ok(Gathered {
        text: CowSlice::Owned(all.text),
        rest: all.rest,
        line: all.line,
    })
}
