//! Libraries of cells: a file read as its definition has it, with each cell's level and why it is skipped, or the first refusal.
#![tactic(auto)]

mod cells;
mod clashes;
mod fault;
mod known;
mod laws;
mod levels;
mod library;
mod limits;
mod outline;
mod ports;
mod read;
mod said;
mod skip;
mod skips;

pub use fault::{LibFault, Limit};
pub use gl_deck::{Body, Deck, DeckFault, Name, Sub, Subs};
pub use known::read_libraries_are_known;
pub use laws::{
    level_rows, levels_and_skips_are_settled, limit_rows, read_decks_have_ranks, refusal_rows,
    skip_rows,
};
pub use library::{LibCell, Library};
pub use said::library_parts;
pub use skip::Skip;
