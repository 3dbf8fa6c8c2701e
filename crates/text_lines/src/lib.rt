//! The lines of a text in bytes.
#![tactic(auto)]

mod decimals;
mod heads;
mod lines;

pub use decimals::decimal_number;
pub use heads::after;
pub use lines::{Lines, MOST_BYTES};
