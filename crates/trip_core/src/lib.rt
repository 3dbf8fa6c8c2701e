//! All bays of a station whose breakers may trip at any moment.
#![tactic(auto)]

mod laws;
mod notes;
mod tasks;
mod turning;
mod values;
mod world;

pub use laws::{trip_facts_hold_at_the_start, trip_facts_speak_of_the_truth};
pub use reservation_core::{MESSAGES, NodeOutput, Outcome, Which, WorldEvent, WorldOutcome};
pub use values::{EVENTS, Note, TripEvent};
pub use world::TripWorld;
