//! The law that a program which stops inside a put of its record is a restart, to all bays of a station.
#![tactic(auto)]

mod laws;

pub use laws::logs_with_stops_are_logs;
