//! The text of `compare`: what a new station judges otherwise than an old one, operation by operation, and a line for each
//! bay.
#![tactic(auto)]

mod bay_lines;
mod laws;
mod names;
mod text;
mod vector_lines;

pub use laws::texts_turned_round;
pub use text::{CompareReport, compare_text};
