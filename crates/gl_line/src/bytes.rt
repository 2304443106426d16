ghost use Rattle.std.specs.Prelude.{◌≡◌, ◌≤◌, length};
ghost use Rattle.gl_text.specs.LogicalLines as lines;
ghost use Rattle.gl_text.specs.LogicalLines.{same_text, folded};

/// A space, a tab or a carriage return.
pub fn is_blank(byte: u8) -> bool
    ensures is_blank { result ≡ lines.is_blank byte }
{
    byte == b' ' || byte == b'\t' || byte == b'\r'
}

/// A byte between fields: a blank, a comma, an equal sign or a parenthesis.
pub fn is_separator(byte: u8) -> bool
    ensures is_separator { result ≡ lines.is_separator byte }
{
    is_blank(byte) || byte == b',' || byte == b'=' || byte == b'(' || byte == b')'
}

/// What may not stand at the front of a tail: a blank, a comma or a closing parenthesis.
pub fn is_loose(byte: u8) -> bool
    ensures is_loose { result ≡ lines.is_loose byte }
{
    is_blank(byte) || byte == b',' || byte == b')'
}

/// A large letter as the small one, another byte as it is.
pub fn fold(byte: u8) -> u8
    ensures folded { result ≡ lines.fold_byte byte }
{
    byte.to_ascii_lowercase()
}

/// Whether a field is this word, large letters read as small ones on both sides.
pub fn is_word(field: &[u8], word: &[u8]) -> bool
    ensures folded_alike { result ≡ same_text (folded field.now) (folded word.now) }
{
    field.eq_ignore_ascii_case(word)
}
