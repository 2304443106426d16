/// The most X cards that may stand in a chain.
pub const DEPTH: usize = 32;

/// The most cards that a deck may expand to.
pub const CARDS: u32 = 400_000;

/// The most devices that a deck may expand to.
pub const DEVICES: u32 = 200_000;
