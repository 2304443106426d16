ghost use Rattle.std.specs.Prelude.{◌≡◌, ◌<◌, ◌≤◌, ◌+◌, ◌^◌, [], ◌∷◌, length, MatchOption, IfSome};
ghost use Rattle.gl_text.specs.LogicalLines.{kept_lines};
ghost use Rattle.gl_text.specs.LogicalLines as lines;

use crate::line::next_line;
use crate::trim::trim;

/// A line is neither empty nor begins with `*`.
fn is_kept(text: &[u8]) -> bool
    ensures is_kept { result ≡ lines.is_kept (record { line = 0; text = text.now }) }
{
    match text {
        [] | [b'*', ..] => false,
        _ => true,
    }
}

/// A line that is not dropped, its number, and what is behind it.
#[derive(Clone, Copy)]
pub struct Kept<'a> {
    pub line: u32,
    pub text: &'a [u8],
    pub rest: &'a [u8],
}

/// The first line that is not dropped.
pub fn next_kept(bytes: &[u8], first: u32) -> Option<Kept<'_>>
    requires few { first + length bytes.now < 2 ^ 32 }
    ensures kept { MatchOption result (kept_lines first bytes.now ≡ [])
        (λ k. kept_lines first bytes.now
        ≡ (record { line = k.line; text = k.text.now }) ∷ kept_lines (k.line + 1) k.rest.now) }
    ensures shorter { IfSome result (λ k. k.line + length k.rest.now < first + length bytes.now) }
    ensures behind { IfSome result (λ k. length k.rest.now < length bytes.now) }
    ensures len { IfSome result (λ k. length k.text.now + length k.rest.now ≤ length bytes.now) }
{
    let mut rest = bytes;
    let mut line = first;
    while let Some((raw, behind)) = next_line(rest) {
        let text = trim(raw);
        if is_kept(text) {
            return Some(Kept {
                line,
                text,
                rest: behind,
            });
        }
        rest = behind;
        line += 1;
    }
    None
}
