//! The tests of a bay, or of all bays of a station, as a text.
#![tactic(auto)]

mod law;
mod lines;
mod station;
mod text;

pub use law::{station_tests_fit, tests_fit};
pub use station::station_tests_text;
pub use text::tests_text;
