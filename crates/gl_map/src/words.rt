ghost use Rattle.std.specs.Prelude.{◌≡◌, ◌==◌, ◌∷◌, [], MatchOption};
ghost use Rattle.std.specs.List.{list_all, position};
ghost use Rattle.gl_lifting.specs.MapReading as reading;
ghost use Rattle.gl_lifting.specs.MapReading.{words_of};

use gl_line::{fold, is_separator};

/// Where the first space stands.
fn space(text: &[u8]) -> Option<usize>
    ensures first { result ≡ position (λ b. b == 32) text.now }
{
    text.iter().position(|byte| *byte == b' ')
}

/// What stands before the first space, and what behind it.
pub fn split_word(text: &[u8]) -> Option<(&[u8], &[u8])>
    ensures words { MatchOption result (words_of text.now ≡ text.now ∷ []) (λ p. words_of text.now ≡ p.0.now ∷ words_of p.1.now) }
{
    match space(text) {
        Some(end) => Some((&text[..end], &text[end + 1..])),
        None => None,
    }
}

/// A byte of a name: no newline, no separator, and no large letter.
fn is_name_byte(byte: u8) -> bool
    ensures is_name_byte { result ≡ reading.is_name_byte byte }
{
    byte != b'\n' && !is_separator(byte) && fold(byte) == byte
}

/// All bytes are bytes of a name.
fn are_name_bytes(bytes: &[u8]) -> bool
    ensures all { result ≡ list_all reading.is_name_byte bytes.now }
{
    bytes.iter().all(|byte| is_name_byte(*byte))
}

/// How many bytes a name may have.
const LONGEST: usize = 1024;

/// A name of a map: 1 to 1,024 bytes of a name.
pub fn is_map_name(name: &[u8]) -> bool
    ensures is_map_name { result ≡ reading.is_map_name name.now }
{
    !name.is_empty() && name.len() <= LONGEST && are_name_bytes(name)
}
