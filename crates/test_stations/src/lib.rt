//! The stations that tests are worked on, as tables and as drawings, and the words of a call, for the test crates.
#![tactic(auto)]

mod asked;
mod drawing;
mod example;
mod tables;
mod texts;
mod words;

pub use asked::{StationRow, row_holds, rows_hold};
pub use drawing::{Drawing, DrawingFault, SwitchLine, station_of};
pub use example::{Example, built, drawing_of};
pub use texts::{AS_A_TOOL_WRITES, FEEDERS_APART, TWO_FEEDERS};
pub use words::words_of;
