ghost use Rattle.std.specs.Prelude.{◌≡◌, codes};
ghost use Rattle.gl_text.specs.LogicalLines.{first_field, same_text};

use crate::bytes::is_word;
use crate::run::next_run;

/// The first field is `.end`, in large or small letters.
pub fn is_end(text: &[u8]) -> bool
    ensures is_end { result ≡ same_text (first_field text.now) (codes ".end") }
{
    match next_run(text) {
        Some(run) => is_word(&text[run.start..run.end], b".end"),
        None => false,
    }
}
