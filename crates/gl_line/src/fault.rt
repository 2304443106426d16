use thiserror::Error;

/// Why there is no logical line. In one text the first of them counts, and nothing comes after it.
#[derive(Debug, Drop, Error)]
pub enum LineFault {
    /// A line that begins with `+` has no card before it.
    #[error("line {line}: a `+` line has no card before it")]
    LoosePlus {
        /// The number of the `+` line.
        line: u32,
    },
    /// A logical line is longer than 131,072 bytes.
    #[error("line {line}: {len} bytes, more than a card may have")]
    LongLine {
        /// The number of its first line.
        line: u32,
        /// Its length in bytes.
        len: u32,
    },
    /// There was no memory to join a line that continues.
    #[error("out of memory")]
    Memory,
}
