//! Cards of a deck.
#![tactic(auto)]

mod call;
mod card;
mod device;
mod fault;
mod head;
mod kind;
mod letter;
mod line;
mod make;
mod model;
mod parts;
mod print;
mod read;
mod refusals;
mod slices;

pub use call::CallCard;
pub use card::Card;
pub use device::DevCard;
pub use fault::CardFault;
pub use gl_line::{Memory, Name, Tail};
pub use head::Head;
pub use letter::Letter;
pub use model::ModelCard;
