//! What a run is lifted with: its rails, the circuit of its flat deck, and the cells of its library with their patterns, exactly as they are defined.
#![tactic(auto)]

mod building;
mod cards;
mod cells;
mod devices;
mod fault;
mod kept;
mod kinds;
mod laws;
mod levels;
mod names;
mod parts;
mod pinned;
mod rails;
mod roles;
mod said;
mod shapes;
mod tables;
mod type_name;
mod words;

pub use fault::KeepFault;
pub use gl_card::{DevCard, Head, Letter, ModelCard, Name};
pub use gl_cells::Library;
pub use gl_flat::Flat;
pub use laws::{
    kept_level_rows, level_rows, run_rails_are_fine, runs_are_sound, sample_files_are_sound,
};
pub use levels::{Levels, levels_of};
pub use rails::run_rails;
pub use said::{keep_parts, unknown_keep_row};
