//! The station as it was read, in lines, and the law that it can be read back from them.
#![tactic(auto)]

mod laws;
mod lines;
mod links;
mod rows;
mod steps;

pub use laws::{one_text_one_station, said_is_read};
pub use lines::push_rows;
pub use rows::{push_three, push_two};
pub use steps::shown_word;
