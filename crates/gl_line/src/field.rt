ghost use Rattle.std.specs.Prelude.{◌<◌, ◌≤◌, ◌+◌, ◌^◌, length};

/// A field: a longest run of bytes that are no separators.
#[derive(Clone, Copy)]
pub struct Field<'a> {
    /// Where it begins in its text, from 0.
    pub start: u32,
    /// Its bytes as they are written.
    pub bytes: &'a [u8],
    ghost short: { start + length bytes.now < 2 ^ 32 },
}

/// The fields of a text, first to last.
#[derive(Drop)]
pub struct FieldIter<'a> {
    pub(crate) text: &'a [u8],
    pub(crate) at: usize,
    ghost within: { at ≤ length text.now },
    ghost short: { length text.now < 2 ^ 32 },
}
