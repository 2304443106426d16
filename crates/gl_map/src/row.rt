ghost use Rattle.std.specs.Prelude.{◌≡◌, ◌∷◌, []};
ghost use Rattle.gl_lifting.specs.MapReading as reading;
ghost use Rattle.gl_lifting.specs.MapReading.{names_row, words_of};
ghost use Rattle.gl_map.specs.Rows.{row_seen};

use crate::words::{is_map_name, split_word};

/// What a line says: the new and the old name of a device or of a net, or the end.
#[derive(Clone, Copy)]
pub enum Row<'a> {
    /// A device's names.
    Device {
        /// Its new name.
        new: &'a [u8],
        /// Its old name.
        old: &'a [u8],
    },
    /// A net's names.
    Net {
        /// Its new name.
        new: &'a [u8],
        /// Its old name.
        old: &'a [u8],
    },
    /// The end of the map.
    End,
}

/// The row of a word and two names.
fn names_in<'a>(word: &[u8], new: &'a [u8], old: &'a [u8]) -> Option<Row<'a>>
    ensures row { row_seen result ≡ names_row word.now new.now old.now }
{
    if !is_map_name(new) || !is_map_name(old) {
        return None;
    }
    if word == b"device".as_slice() {
        return Some(Row::Device { new, old });
    }
    if word == b"net".as_slice() {
        return Some(Row::Net { new, old });
    }
    None
}

/// The row of a line of one word.
fn end_in<'a>(word: &'a [u8]) -> Option<Row<'a>>
    ensures row { row_seen result ≡ reading.row_of (word.now ∷ []) }
{
    if word == b"end".as_slice() {
        Some(Row::End)
    } else {
        None
    }
}

/// The row of a word and what stands behind it.
fn behind_word<'a>(word: &[u8], behind: &'a [u8]) -> Option<Row<'a>>
    ensures row { row_seen result ≡ reading.row_of (word.now ∷ words_of behind.now) }
{
    let (new, old) = split_word(behind)?;
    match split_word(old) {
        Some(_) => None,
        None => names_in(word, new, old),
    }
}

/// The row of a line, or nothing where it is no line of a map.
pub fn row_of(line: &[u8]) -> Option<Row<'_>>
    ensures row { row_seen result ≡ reading.row_of (words_of line.now) }
{
    match split_word(line) {
        None => end_in(line),
        Some((word, behind)) => behind_word(word, behind),
    }
}
