//! All bays of a station, the messages between them, and the drives of its switches.
#![tactic(auto)]

mod beside;
mod deliveries;
mod drives;
mod happening;
mod laws;
mod looking;
mod scene;
mod start;
mod turns;
mod values;
mod world;

pub use bay_protocol::{NodeOutput, Outcome};
pub use laws::{
    broken_premises_change_nothing, facts_are_kept, facts_hold_at_the_start,
    granted_operations_obey, kept_words_are_true, left_locks_are_freed, round_facts_are_kept,
    soundness_of_truth_is_kept,
};
pub use values::{LogEvent, MESSAGES, Position, Which, WorldEvent, WorldOutcome};
pub use world::World;
