//! The paths of a station as the names of a text that goes out in pieces.
#![tactic(auto)]

mod names;

pub use names::switch_names;
