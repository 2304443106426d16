//! Decks: the cards of a file, read as their definition has them or refused with the first refusal.
#![tactic(auto)]

mod body;
mod calls;
mod deck;
mod draft;
mod fault;
mod finish;
mod globals;
mod laws;
mod lines;
mod places;
mod print;
mod ranks;
mod reach;
mod read;
mod refused;
mod said;
mod site;
mod step;
mod sub;
mod subs;

pub use body::Body;
pub use deck::Deck;
pub use fault::DeckFault;
pub use gl_card::{CallCard, Card, DevCard, Head, Letter, Memory, ModelCard, Name, Tail};
pub use laws::{lines_make_the_deck, tables_have_ranks};
pub use places::{called_place, called_places};
pub use print::{put, put_all_passed, put_ends, put_globals, put_head, put_models, put_text};
pub use said::deck_parts;
pub use sub::Sub;
pub use subs::Subs;
