//! What a program sees of the outside: slots that are opened, read to their end and written, with every failure counted.
#![tactic(auto)]

mod calls;
mod desk;
mod fault;
mod handle;
mod memory_desk;
mod read;
mod real_desk;
mod seat;
mod slot;
mod write;

pub use calls::CallKind;
pub use desk::Desk;
pub use fault::{Failed, ReadFault};
pub use gl_fault::Memory;
pub use memory_desk::MemoryDesk;
pub use read::{FILE_BYTES, read_all};
pub use real_desk::RealDesk;
pub use slot::Slot;
pub use write::write_all;
