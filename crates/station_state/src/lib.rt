//! The state of each node over every reading of the positions: whether it is live, and whether it is
//! earthed.
#![tactic(auto)]

mod certainty;
mod extremes;
mod states;
mod supply;
mod text;

pub use certainty::{Certainty, NodeState};
pub use states::{NodeStates, node_states};
pub use text::state_text;
