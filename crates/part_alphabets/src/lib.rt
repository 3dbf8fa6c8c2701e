//! What an alphabet of a part is: its distinct contractions on the nodes that it shares, and the steps that lead from the
//! positions of its switches to one of them.
#![tactic(auto)]

mod fork;
mod limits;

pub use fork::{Fork, PartStep, Target};
pub use limits::{CONTRACTIONS, LETTERS};
