//! What a bay is told of the positions of its switches: five words, and the file that gives them.
#![tactic(auto)]

mod bay_words;
mod positions;
mod readings;
mod rows;

pub use bay_words::BayWords;
pub use positions::{PositionsFault, read_positions, switch_named, text_of};
pub use readings::{Readings, agrees, word_from};
pub use rows::Rows;
