//! How much of a station is released, and what comes of its log, in four lines.
#![tactic(auto)]

mod tally;
mod text;

pub use tally::{Sight, Tally, tally_operations};
pub use text::work_text;
