//! The map of names: under which new name each original device and net stands, printed and read.
#![tactic(auto)]

mod fault;
mod laws;
mod name_map;
mod naming;
mod print;
mod read;
mod row;
mod rows;
mod said;
mod tables;
mod words;

pub use fault::MapFault;
pub use gl_line::{Memory, Name};
pub use laws::read_maps_have_names;
pub use name_map::NameMap;
pub use naming::{put_device_name, put_instance_name, put_net_name, put_variant_name};
pub use print::{put_map_end, put_map_header, put_map_line};
pub use said::map_parts;
