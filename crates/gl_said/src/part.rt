/// A part of a message.
#[derive(Clone, Copy)]
pub enum Part<'a> {
    /// A text of the program's own.
    Text(&'static str),
    /// A name from a file.
    Name(&'a [u8]),
    /// A number.
    Number(u32),
}
