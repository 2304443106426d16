ghost use Rattle.std.specs.Prelude.{◌≡◌, ◌==◌, ◌≤◌, length};
ghost use Rattle.gl_text.specs.LogicalLines as line;

use crate::bytes::{is_blank, is_loose};

/// A text without the blanks at its front.
fn trim_front(text: &[u8]) -> &[u8]
    ensures trimmed { result.now ≡ line.trim_front line.is_blank text.now }
    ensures no_longer { length result.now ≤ length text.now }
{
    let mut rest = text;
    while let [first, behind @ ..] = rest {
        if !is_blank(*first) {
            return rest;
        }
        rest = behind;
    }
    rest
}

/// A text without the blanks, commas and closing parentheses at its front.
pub fn trim_loose(text: &[u8]) -> &[u8]
    ensures trimmed { result.now ≡ line.trim_front line.is_loose text.now }
{
    let mut rest = text;
    while let [first, behind @ ..] = rest {
        if !is_loose(*first) {
            return rest;
        }
        rest = behind;
    }
    rest
}

/// A text without the blanks at its end.
pub fn trim_end(text: &[u8]) -> &[u8]
    ensures trimmed { result.now ≡ line.trim_end line.is_blank text.now }
    ensures no_longer { length result.now ≤ length text.now }
{
    let mut rest = text;
    while let [before @ .., last] = rest {
        if !is_blank(*last) {
            return rest;
        }
        rest = before;
    }
    rest
}

/// A text without the blanks at both ends.
pub fn trim(text: &[u8]) -> &[u8]
    ensures trimmed { result.now
        ≡ line.trim_front line.is_blank (line.trim_end line.is_blank text.now) }
    ensures no_longer { length result.now ≤ length text.now }
{
    trim_front(trim_end(text))
}

/// A carriage return.
fn is_return(byte: u8) -> bool
    ensures is_return { result ≡ (byte == 13) }
{
    byte == b'\r'
}

/// A text without the carriage returns at its end.
pub fn without_returns(text: &[u8]) -> &[u8]
    ensures trimmed { result.now ≡ line.trim_end (λ b. b == 13) text.now }
{
    let mut rest = text;
    while let [before @ .., last] = rest {
        if !is_return(*last) {
            return rest;
        }
        rest = before;
    }
    rest
}
