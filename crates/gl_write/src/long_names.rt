//! Names that have more bytes than a name may have.
ghost use Rattle.std.specs.Prelude.{◌≡◌, ◌++◌, nat_lt, length, option_to_list};
ghost use Rattle.std.specs.Option.{option_copied};
ghost use Rattle.gl_text.specs.LogicalLines.{NAME};
ghost use Rattle.gl_lifting.specs.Counting.{has_longer};

use gl_line::Name;

/// The most bytes of a name.
const NAME_LENGTH: usize = 1_024;

/// Whether a name is too long.
fn is_long(name: &Name) -> bool
    ensures long { result ≡ nat_lt NAME (length name.now) }
{
    name.as_bytes().len() > NAME_LENGTH
}

/// Whether one of some names is too long.
fn is_one_long(names: &[Name]) -> bool
    ensures long { result ≡ has_longer NAME names.now }
{
    for name in names {
        if is_long(name) {
            return true;
        }
    }
    false
}

/// Whether a name is too long that may be none.
fn is_there_long(name: Option<&Name>) -> bool
    ensures long { result ≡ has_longer NAME (option_to_list (option_copied name.entry)) }
{
    match name {
        Some(name) => is_long(name),
        None => false,
    }
}

/// Whether the name of a variant, or that of the top, is too long.
pub fn has_long_name(names: &[Name], top: Option<&Name>) -> bool
    ensures long { result
        ≡ has_longer NAME (names.now ++ option_to_list (option_copied top.entry)) }
{
    is_one_long(names) || is_there_long(top)
}
