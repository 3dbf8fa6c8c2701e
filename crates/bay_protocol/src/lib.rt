//! The protocol of a bay: frames in, frames out, and what a node keeps, as values and as a relation.
#![tactic(auto)]

mod laws;
mod lines;
mod record;
mod values;

pub use laws::{restart_is_resume, resumed_is_node, step_gives, step_keeps};
pub use record::{is_bay, is_other, is_own, kept_fits};
pub use values::{Collection, Grant, Kept, LAST_ROUND, Lock, NodeEvent, NodeOutput, Outcome};
