//! The log of an operation whose breakers may trip: what it says, and the replay of it with a report.
#![tactic(auto)]

mod event;
mod following;
mod laws;
mod log;
mod record;

pub use event::TripLogEvent;
pub use following::{TripReport, replay_trips};
pub use laws::{trip_headline_holds, trip_log_is_not_refused};
pub use log::{TripLog, TripLogFault, read_trip_log};
