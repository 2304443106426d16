ghost use Rattle.std.specs.Prelude.{◌≡◌, ◌<◌, ◌≤◌, ◌+◌, ◌==◌, ◌∷◌, [], length, MatchOption, IfSome};
ghost use Rattle.std.specs.List.{position};
ghost use Rattle.gl_text.specs.LogicalLines.{lines_of, title_of, after_title};

use crate::trim::without_returns;
use bstr::ByteSlice;

/// Where the first newline stands.
fn newline(bytes: &[u8]) -> Option<usize>
    ensures first { result ≡ position (λ b. b == 10) bytes.now }
{
    bytes.find_byte(b'\n')
}

/// The first line, and what is behind it.
pub fn next_line(bytes: &[u8]) -> Option<(&[u8], &[u8])>
    ensures lines { MatchOption result (lines_of bytes.now ≡ [])
        (λ p. lines_of bytes.now ≡ p.0.now ∷ lines_of p.1.now) }
    ensures shorter { MatchOption result (bytes.now ≡ [])
        (λ p. length p.0.now + length p.1.now ≤ length bytes.now) }
    ensures behind { IfSome result (λ p. length p.1.now < length bytes.now) }
{
    if bytes.is_empty() {
        return None;
    }
    match newline(bytes) {
        Some(end) => Some((&bytes[..end], &bytes[end + 1..])),
        None => Some((bytes, &[])),
    }
}

/// The title of a deck, that is its first line without the carriage returns at its end, and the bytes after that
/// line. A deck of no bytes has an empty title. It takes no memory.
pub fn split_title(bytes: &[u8]) -> (&[u8], &[u8])
    ensures title { result.0.now ≡ title_of bytes.now }
    ensures after { result.1.now ≡ after_title bytes.now }
{
    match newline(bytes) {
        Some(end) => (without_returns(&bytes[..end]), &bytes[end + 1..]),
        None => (without_returns(bytes), &[]),
    }
}
