use gl_cells::Library;
use gl_flat::Flat;

/// What a base is made from.
#[derive(Drop)]
pub struct Parts<'a> {
    /// The flat deck. Its rails are those of the run but `0`, by their numbers from 1.
    pub flat: &'a Flat,
    /// The library.
    pub library: &'a Library,
}
