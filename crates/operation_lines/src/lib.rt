//! Lines of a text that name operations and switches of a station.
#![tactic(auto)]

mod operation;
mod path;

pub use operation::{LineFault, read_operation};
pub use path::switch_of_path;
