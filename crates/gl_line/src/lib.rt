//! The title, the logical lines and the fields of a text, each exactly as its definition has it.
#![tactic(auto)]

mod bytes;
mod end;
mod fault;
mod field;
mod field_iter;
mod gather;
mod iter;
mod kept;
mod line;
mod logical;
mod name;
mod packed;
mod run;
mod squeeze;
mod state;
mod steps;
mod tail;
mod trim;

pub use bytes::{fold, is_blank, is_separator, is_word};
pub use fault::LineFault;
pub use field::{Field, FieldIter};
pub use field_iter::fields;
pub use gl_fault::Memory;
pub use line::split_title;
pub use logical::Logical;
pub use name::Name;
pub use state::LogicalLines;
pub use tail::Tail;
pub use trim::trim_end;
