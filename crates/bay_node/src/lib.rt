//! The node of one bay: it reserves all other bays by frames, decides by what it knows, grants, and keeps
//! what must outlive a restart.
#![tactic(auto)]

mod deciding;
mod events;
mod heard;
mod node;
mod receiving;
mod sending;

pub use bay_protocol::{Grant, Kept, Lock, NodeEvent, NodeOutput, Outcome, kept_fits};
pub use node::Node;
